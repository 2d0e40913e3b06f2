//! What is done of a script's act: its calls in order, each of them until it is done or refused.
ghost use Rattle.std.specs.Prelude.{◌≡◌, ◌<◌, ℕ, length, true};
ghost use Rattle.svga_driver.specs.Driving.{IsShort, client_in};
ghost use Rattle.svga_model.specs.ClientActs.{calls_of};
ghost use Rattle.svga_model.specs.ScriptBounds.{is_bounded};
ghost use Rattle.svga_pair.specs.Calls.{call_at};
ghost use Rattle.svga_pair.specs.Going.{GoesOn, HasEnded};
ghost use Rattle.svga_pair.specs.Racing.{AreEnded};
ghost use Rattle.svga_pair.specs.Waiting.{StepsOn};
ghost use Rattle.svga_script.specs.Acts.{act_of};

use crate::answer::{Answer, Refused, Told};
use crate::attempting::{attempt, call_count};
use crate::waiter::Waiter;
use std::sync::Wait;
use svga_driver::Driver;
use svga_script::ClientAct;

/// Does the calls of an act in order, up to the first that is refused. It gives what they tell.
pub(crate) fn act_until<R: Wait, W: Waiter>(
    rt: &R,
    driver: &mut Driver,
    waiter: &mut W,
    act: &ClientAct,
) -> Result<Told, Refused>
    requires short { IsShort driver.old.view }
    requires bounded { is_bounded (act_of act.now) ≡ true }
    ensures ends { (line : ℕ) → AreEnded line (client_in driver.old) (calls_of (act_of act.now)) result
        (client_in driver.new) }
    ensures goes { GoesOn driver.old 1 driver.new }
    ensures waiter { StepsOn W.table W.shows waiter.old waiter.new }
{
    let mut told = Told::Nothing;
    for k in 0..call_count(act) {
        match call_until(rt, driver, waiter, act, k) {
            Ok(more) => told = more,
            Err(refused) => return Err(refused),
        }
    }
    Ok(told)
}

// Makes call `k` of an act until it is done or refused, and takes a turn each time that it waits.
fn call_until<R: Wait, W: Waiter>(
    rt: &R,
    driver: &mut Driver,
    waiter: &mut W,
    act: &ClientAct,
    k: u32,
) -> Result<Told, Refused>
    requires short { IsShort driver.old.view }
    requires bounded { is_bounded (act_of act.now) ≡ true }
    requires call { k < length (calls_of (act_of act.now)) }
    ensures ends { HasEnded driver.old (call_at (act_of act.now) k) result driver.new }
    ensures waiter { StepsOn W.table W.shows waiter.old waiter.new }
{
    for _ in rt.forever() {
        match attempt(driver, act, k) {
            Answer::Done(told) => return Ok(told),
            Answer::Refused(refused) => return Err(refused),
            Answer::Again => waiter.turn(rt),
            Answer::Unseen => {
                waiter.turn(rt);
                driver.poll();
            }
        }
    }
    unreachable!()
}
