//! The three ways of writing a command's words. By reservations they are put in place, or copied from the
//! buffer where they wrap, and NEXT_CMD is stored once; by dword NEXT_CMD is stored behind each.
ghost use Rattle.std.specs.Prelude.{◌≡◌, ◌≢◌, ℕ, ◌+◌, ◌<◌, ◌≤◌, ◌^◌, ◌++◌, [], List, length, false};
ghost use Rattle.svga_cmd.specs.Spelling.{Spells};
ghost use Rattle.svga_cmd.specs.declared.command.Command.{Command};
ghost use Rattle.svga_cmd.specs.declared.session.Way.TheVariants.{Dword, Reserve};
ghost use Rattle.svga_link.specs.Reserving.{HasRoom, MaySend};
ghost use Rattle.svga_link.specs.Told.{committed, with_pending, with_all_pending};
ghost use Rattle.svga_ring.specs.Conditions.{unsent};

use crate::driver_seat::DriverSeat;
use svga_cmd::Way;

/// Puts the words into their cells, one behind another, and round the ring's end.
pub(crate) fn copy(seat: &mut DriverSeat, words: &[u32])
    requires { HasRoom seat.old.view (length words.now) }
    ensures { seat.new ≡ record seat.old { view = with_all_pending seat.old.view words.now } }
{
    for i in 0..words.len() {
        seat.store_cell(words[i]);
    }
}

// Sends the pending words, and nothing is reserved any more.
fn send_reserved(seat: &mut DriverSeat)
    requires way { seat.old.view.terms.way ≡ Reserve }
    requires all_sent { unsent seat.old.view ≡ [] }
    requires may { (command : Command) × MaySend seat.old.view seat.old.view.pending command }
    ensures all_sent { unsent seat.new.view ≡ [] }
    ensures sent { (command : Command) → Spells command seat.old.view.pending
        → seat.new ≡ record seat.old { view = committed seat.old.view command seat.old.view.pending } }
{
    seat.send_whole();
    seat.store_reserved(0);
}

// Sends the words one by one.
fn send_by_dword(seat: &mut DriverSeat, words: &[u32])
    requires way { seat.old.view.terms.way ≡ Dword }
    requires room { HasRoom seat.old.view (length words.now) }
    requires none_reserved { seat.old.view.reserved ≡ 0 }
    requires none_pending { seat.old.view.pending ≡ [] }
    requires all_sent { unsent seat.old.view ≡ [] }
    requires may { (command : Command) × MaySend seat.old.view words.now command }
    ensures all_sent { unsent seat.new.view ≡ [] }
    ensures sent { (command : Command) → Spells command words.now
        → seat.new ≡ record seat.old { view = committed seat.old.view command words.now } }
{
    seat.store_cell(words[0]);
    seat.send_first(words);
    for i in 1..words.len() {
        seat.store_cell(words[i]);
        seat.send_more();
    }
}

/// Sends the command that the pending words and then these spell. Where the words were put in place these
/// are none.
pub(crate) fn send(seat: &mut DriverSeat, words: &[u32])
    requires room { HasRoom seat.old.view (length words.now) }
    requires none_reserved { seat.old.view.terms.way ≡ Dword → seat.old.view.reserved ≡ 0 }
    requires none_pending { seat.old.view.terms.way ≡ Dword → seat.old.view.pending ≡ [] }
    requires all_sent { unsent seat.old.view ≡ [] }
    requires may { (command : Command) × MaySend seat.old.view (seat.old.view.pending ++ words.now) command }
    ensures all_sent { unsent seat.new.view ≡ [] }
    ensures sent { (command : Command) → Spells command (seat.old.view.pending ++ words.now)
        → seat.new ≡ record seat.old {
          view = committed seat.old.view command
              (seat.old.view.pending ++ words.now);
        } }
{
    match seat.way() {
        Way::Reserve => {
            copy(seat, words);
            send_reserved(seat);
        }
        Way::Dword => send_by_dword(seat, words),
    }
}
