//! How a command's words come into the ring: a reservation, its words, and its end.
ghost use Rattle.std.specs.Prelude.{◌≡◌, ℕ, ◌+◌, ◌*◌, ◌≤◌, ◌<◌, ◌^◌, [], ◌++◌, length, false};
ghost use Rattle.svga_cmd.specs.Spelling.{Spells};
ghost use Rattle.svga_cmd.specs.declared.command.Command.{Command};
ghost use Rattle.svga_driver.specs.Sending.{SendAnswers};
ghost use Rattle.svga_driver.specs.Driving.{IsAtNext};
ghost use Rattle.svga_link.specs.Reserving.{MaySend};
ghost use Rattle.svga_link.specs.ReserveAnswers.{ring_bytes};
ghost use Rattle.svga_ring.specs.Layouts.{Layout};
ghost use Rattle.svga_ring.specs.Rings.{size_of};

use crate::fault::DriverFault;
use svga_link::{DriverEnd, ReserveFault};
use svga_ring::{Geometry, advance};

// Puts words into the reservation.
fn put_words(end: &mut DriverEnd, words: &[u32])
    requires { 4 * (length end.old.words + length words.now) ≤ end.old.reserved }
    ensures { end.new ≡ record end.old {
      view = record end.old.view { pending = end.new.view.pending };
      words = end.old.words ++ words.now;
    } }
{
    for i in 0..words.len() {
        end.put(words[i]);
    }
}

/// Sends the words of a command, which come in two parts.
pub(crate) fn send(end: &mut DriverEnd, front: &[u32], rest: &[u32]) -> Result<(), DriverFault>
    requires runs { end.old.view.stopped ≡ false }
    requires none_reserved { end.old.reserved ≡ 0 }
    requires none_put { end.old.words ≡ [] }
    requires short { length end.old.view.sent + (length front.now + length rest.now) < 2 ^ 62 }
    requires some { 0 < length front.now }
    requires fits { 4 * (length front.now + length rest.now) < ring_bytes end.old }
    requires small { length front.now + length rest.now < 2 ^ 16 }
    requires may { (command : Command) × MaySend end.old.view (front.now ++ rest.now) command }
    ensures { (command : Command) → Spells command (front.now ++ rest.now)
        → SendAnswers end.old command (front.now ++ rest.now) result end.new }
{
    let bytes = 4 * (front.len() + rest.len()) as u32;
    match end.reserve(bytes) {
        Err(ReserveFault::NoRoom { stop, free }) => Err(DriverFault::NoRoom { stop, free }),
        Err(ReserveFault::TooLarge) => unreachable!(),
        Err(ReserveFault::Unaligned) => unreachable!(),
        Err(ReserveFault::Reserving) => unreachable!(),
        Ok(_) => {
            put_words(end, front);
            put_words(end, rest);
            end.commit();
            Ok(())
        }
    }
}

/// The offset of NEXT_CMD behind so many words more.
pub(crate) fn behind(ring: Geometry, next: u32, words: usize) -> u32
    requires here { (layout : Layout) × (sent : ℕ) × IsAtNext ring next layout sent }
    requires fits { 4 * words < size_of ring }
    ensures { (layout : Layout) (sent : ℕ) → IsAtNext ring next layout sent
        → IsAtNext ring result layout (sent + words) }
{
    advance(ring, next, 4 * words as u32)
}
