//! A command that comes to stand across the ring's end.
ghost use Rattle.bench_ring.specs.Passing.{IsNext, IsPlain, IsReady, IsWaiting};
ghost use Rattle.std.specs.Prelude.{◌+◌, ◌<◌, ◌≤◌, ◌^◌, length, IsTrue};
ghost use Rattle.svga_cmd.specs.declared.command.Command.{Command};

use crate::commands::{define_gmr2, define_gmrfb};
use crate::passing::{LIMITS, RING};
use crate::receiving::take;
use crate::sending::send;
use std::alloc::{AllocError, Global};
use std::sync::Wait;
use svga_cmd::{Session, Way};
use svga_link::{DeviceEnd, DriverEnd, Reserved, make};

/// What is found of a command that is sent and then taken.
#[derive(Clone, Copy)]
pub struct Passed {
    pub reserved: Reserved,
    /// NEXT_CMD, as the device loads it.
    pub next: u32,
    /// Whether the device reads the words that were sent.
    pub whole: bool,
}

// Sends the command that these words spell, and takes it.
fn pass_one<R: Wait>(
    rt: &R,
    driver: &mut DriverEnd,
    device: &mut DeviceEnd,
    words: &[u32],
) -> Passed
    requires ready { IsReady driver.old }
    requires few { length words.now ≤ 5 }
    requires short { length driver.old.view.sent + 5 < 2 ^ 62 }
    requires waiting { IsWaiting device.old.view }
    requires next { (c : Command) × IsNext driver.old.view c words.now × IsPlain c words.now }
    ensures ready { IsReady driver.new }
    ensures sent { length driver.new.view.sent ≤ length driver.old.view.sent + 5 }
    ensures waiting { IsTrue result.whole → IsWaiting device.new.view }
{
    let reserved = send(rt, driver, words);
    let next = device.read_next();
    let whole = take(rt, device, words);
    Passed {
        reserved,
        next,
        whole,
    }
}

/// Passes a DEFINE_GMR2 and so many DEFINE_GMRFB, each taken before the next is sent. It gives what is found
/// of the last, or `None` where one of them isn't read as it was sent.
pub fn wrap<R: Wait>(rt: &R, alloc: Global, count: u32) -> Result<Option<Passed>, AllocError>
    requires { count ≤ 2 ^ 20 }
{
    let Some(session) = Session::new(RING, LIMITS, 1, Way::Reserve) else {
        return Ok(None);
    };
    let (mut driver, mut device) = make(alloc, &session)?;
    let mut passed = pass_one(rt, &mut driver, &mut device, &define_gmr2());
    for n in 0..count {
        if !passed.whole {
            return Ok(None);
        }
        passed = pass_one(rt, &mut driver, &mut device, &define_gmrfb(n));
    }
    Ok(if passed.whole { Some(passed) } else { None })
}
