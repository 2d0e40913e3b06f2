//! The driver's side: commands are sent as soon as there is room for them.
ghost use Rattle.bench_ring.specs.Passing.{HasSent, IsNext, IsReady, Stays, fence_count};
ghost use Rattle.std.specs.Prelude.{◌≡◌, ℕ, ◌+◌, ◌*◌, ◌/◌, ◌<◌, ◌≤◌, ◌^◌, [], length};
ghost use Rattle.svga_cmd.specs.Spelling.{Spells};
ghost use Rattle.svga_cmd.specs.declared.command.Command.{Command};

use crate::commands::{FENCE_EVERY, define_gmrfb, fence};
use std::sync::Wait;
use svga_link::{DriverEnd, Reserved};
use svga_ring::fence_number;

// Begins a reservation as soon as there is room.
fn begin<R: Wait>(rt: &R, driver: &mut DriverEnd, bytes: u32) -> Reserved
    requires ready { IsReady driver.old }
    requires short { length driver.old.view.sent + bytes / 4 < 2 ^ 62 }
    ensures begun { (driver.new.reserved ≡ bytes) × (driver.new.words ≡ []) }
    ensures stays { Stays driver.old.view driver.new.view }
{
    for _ in rt.forever() {
        match driver.reserve(bytes) {
            Ok(reserved) => return reserved,
            Err(_) => {}
        }
    }
    unreachable!()
}

// Puts all words of the reservation.
fn put_all(driver: &mut DriverEnd, words: &[u32])
    requires full { driver.old.reserved ≡ 4 * length words.now }
    requires empty { driver.old.words ≡ [] }
    ensures full { driver.new.reserved ≡ 4 * length words.now }
    ensures words { driver.new.words ≡ words.now }
    ensures stays { Stays driver.old.view driver.new.view }
{
    for i in 0..words.len() {
        driver.put(words[i]);
    }
}

/// Sends the command that these words spell, and gives the reservation for it.
pub fn send<R: Wait>(rt: &R, driver: &mut DriverEnd, words: &[u32]) -> Reserved
    requires ready { IsReady driver.old }
    requires few { length words.now ≤ 5 }
    requires short { length driver.old.view.sent + 5 < 2 ^ 62 }
    requires next { (c : Command) × IsNext driver.old.view c words.now }
    ensures ready { IsReady driver.new }
    ensures sent { (c : Command) → Spells c words.now → HasSent c words.now driver.old.view driver.new.view }
{
    let reserved = begin(rt, driver, 4 * words.len() as u32);
    put_all(driver, words);
    driver.commit();
    reserved
}

// Sends command n, where so many of them were fences, and tells how many are then.
fn send_nth<R: Wait>(rt: &R, driver: &mut DriverEnd, n: u32, first: u32, fences: u64) -> u64
    requires ready { IsReady driver.old }
    requires short { length driver.old.view.sent + 5 < 2 ^ 62 }
    requires first { (first ≡ driver.old.view.terms.first) × (1 ≤ first) }
    requires fences { fences ≡ fence_count driver.old.view }
    requires few { 16 * fences ≤ n }
    requires window { n < 2 ^ 20 }
    ensures ready { IsReady driver.new }
    ensures terms { driver.new.view.terms ≡ driver.old.view.terms }
    ensures sent { length driver.new.view.sent ≤ length driver.old.view.sent + 5 }
    ensures fences { result ≡ fence_count driver.new.view }
    ensures few { 16 * result ≤ n + 1 }
{
    if n % FENCE_EVERY == FENCE_EVERY - 1 {
        send(rt, driver, &fence(fence_number(first, fences)));
        fences + 1
    } else {
        send(rt, driver, &define_gmrfb(n));
        fences
    }
}

/// Sends so many commands.
pub fn send_all<R: Wait>(rt: &R, driver: &mut DriverEnd, first: u32, count: u32)
    requires ready { IsReady driver.old }
    requires opening { (driver.old.view.acts ≡ []) × (driver.old.view.sent ≡ []) }
    requires first { (first ≡ driver.old.view.terms.first) × (1 ≤ first) }
    requires few { count ≤ 2 ^ 20 }
{
    let mut fences = 0;
    for n in 0..count {
        fences = send_nth(rt, driver, n, first, fences);
    }
}
