//! Commands are read word by word.
ghost use Rattle.std.specs.Prelude.{◌≡◌, ◌<◌, ℕ, false, true};
ghost use Rattle.svga_decode.specs.DecoderStates.{begun_words, IsLive};
ghost use Rattle.svga_device.specs.Reading.{IsReading, IsWhole, with_words};
ghost use Rattle.svga_link.specs.Ends.{DeviceSeen};
ghost use Rattle.svga_link.specs.Told.{with_read};
ghost use Rattle.svga_ring.specs.Core.{read_count};

use svga_decode::{Decoder, Fed, one_answer};
use svga_link::DeviceEnd;

/// Reads the words that are known to be sent, up to the last one of a command, and says whether one is whole.
pub(crate) fn read_command(end: &mut DeviceEnd, decoder: &mut Decoder) -> bool
    requires { IsReading end.old.view decoder.old }
    ensures left { end.new ≡ with_words end.old end.new.view.read }
    ensures whole { result ≡ true → IsWhole end.new.view decoder.new }
    ensures none { result ≡ false → IsReading end.new.view decoder.new
        × (read_count end.new.view ≡ end.new.view.next) }
{
    end.facts();
    let count = end.known();
    for k in 0..count {
        let _ = k;
        if read_word(end, decoder) {
            return true;
        }
    }
    false
}

/// Reads the next word, and says whether a command is whole with it. No word that is sent is refused.
fn read_word(end: &mut DeviceEnd, decoder: &mut Decoder) -> bool
    requires known { read_count end.old.view < end.old.view.next }
    requires reading { IsReading end.old.view decoder.old }
    ensures left { (word : ℕ) × (end.new ≡ record end.old { view = with_read end.old.view word }) }
    ensures whole { result ≡ true → IsWhole end.new.view decoder.new }
    ensures more { result ≡ false → IsReading end.new.view decoder.new }
{
    one_answer();
    let word = end.next_word();
    end.facts();
    match decoder.feed(word) {
        Fed::Whole => true,
        Fed::More => false,
        Fed::Refused { cause: _ } => unreachable!(),
    }
}
