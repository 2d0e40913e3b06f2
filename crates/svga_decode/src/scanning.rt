//! Whole lists of words: how many commands, the last fence, and how the words end.
ghost use Rattle.std.specs.Prelude.{◌≡◌, ◌≤◌, List, drop, length};
ghost use Rattle.svga_cmd.specs.Lent.{command_of};
ghost use Rattle.svga_cmd.specs.declared.command.Command.{Command};
ghost use Rattle.svga_decode.specs.DecoderStates.{IsReady};
ghost use Rattle.svga_decode.specs.Scans.{AreCounted, IsLeft, IsScan};
ghost use Rattle.svga_model.specs.Endings.{fence_after};

use crate::answer::Fed;
use crate::decoder::Decoder;
use crate::visiting::each_command;
use crate::visitor::Visitor;
use crate::words::SliceWords;
use std::convert::Infallible;
use svga_cmd::constants::MAX_INPUT_WORDS;
use svga_cmd::{CommandRef, Ending};

/// What a list of words holds.
#[derive(Clone, Copy, Debug, PartialEq, Eq)]
pub struct Scanned {
    /// How many whole commands there are before the end or the bad word.
    pub commands: u32,
    /// The value of the last FENCE among them, 0 where there is none.
    pub fence: u32,
    pub ending: Ending,
}

/// The whole commands so far.
#[derive(Clone, Copy, Debug, PartialEq, Eq)]
pub(crate) struct Counted {
    pub(crate) commands: u32,
    pub(crate) fence: u32,
    /// The first word of the last command, and the word behind its last; 0 where there is none.
    pub(crate) first: u32,
    pub(crate) end: u32,
}

impl Visitor<()> for Counted {
    ghost use Rattle.std.specs.Prelude.{◌≡◌, ◌≤◌};
    ghost use Rattle.svga_decode.specs.Scans.{counts};

    type Stop = Infallible;

    ghost can_take = { λ counted on first. counted.commands ≤ first };

    ghost takes = { λ counted on first c now on'. now ≡ counts counted first c };

    ghost stops = { λ counted on first c stop now on'. ⊥ };

    fn command(
        &mut self,
        _on: &mut (),
        first: u32,
        end: u32,
        command: &CommandRef<'_>,
    ) -> Result<(), Infallible> {
        self.commands += 1;
        self.fence = fence_with(command, self.fence);
        self.first = first;
        self.end = end;
        Ok(())
    }
}

/// Reads the words on from a decoder that is between two commands, as if they were fed to it up to the first
/// refused one.
pub fn scan(decoder: &mut Decoder, words: &[u32]) -> Scanned
    requires ready { IsReady decoder.old }
    requires few { length words.now ≤ MAX_INPUT_WORDS }
    ensures { IsScan words.now result decoder.old decoder.new }
{
    let mut counted = Counted {
        commands: 0,
        fence: 0,
        first: 0,
        end: 0,
    };
    let Ok(ending) = each_command(&SliceWords::new(words), &mut [], &mut counted, &mut ());
    leave(decoder, words, counted, ending);
    Scanned {
        commands: counted.commands,
        fence: counted.fence,
        ending,
    }
}

/// Leaves the decoder as feeding the words would, but for the words of a refused command, which nothing
/// tells.
fn leave(decoder: &mut Decoder, words: &[u32], counted: Counted, ending: Ending)
    requires ready { IsReady decoder.old }
    requires counted { (cs : List Command) × AreCounted words.now cs counted ending }
    ensures { (cs : List Command) → AreCounted words.now cs counted ending
        → IsLeft ending words.now cs decoder.old decoder.new }
{
    match ending {
        Ending::Whole => {
            if counted.commands > 0 {
                decoder.keep(words_from(words, counted.first), Fed::Whole);
            }
        }
        Ending::Refused { cause, .. } => decoder.keep(&[], Fed::Refused { cause }),
        Ending::Torn { .. } => decoder.keep(words_from(words, counted.end), Fed::More),
    }
}

/// The words from word `first` on.
fn words_from(words: &[u32], first: u32) -> &[u32]
    requires { first ≤ length words.now }
    ensures { result.now ≡ drop first words.now }
{
    &words[first as usize..]
}

/// The last fence, with this command.
fn fence_with(command: &CommandRef<'_>, fence: u32) -> u32
    ensures { result ≡ fence_after fence (command_of command.now) }
{
    match command {
        CommandRef::Fence { value } => *value,
        _ => fence,
    }
}
