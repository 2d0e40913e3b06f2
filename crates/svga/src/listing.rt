//! The lines of the commands in words.
ghost use Rattle.std.specs.Prelude.{◌≤◌, length};
ghost use Rattle.svga.specs.Lists.{Lists};

use svga_cmd::CommandRef;
use svga_cmd::constants::MAX_INPUT_WORDS;
use svga_decode::{SliceWords, Visitor, each_command};
use svga_io::{Sink, WriteFault};
use svga_text::Render;

/// Writes the line of each command that it is handed to a sink, and stops where that fails.
#[derive(Drop)]
pub struct Lister {
    pub render: Render,
}

impl<K: Sink> Visitor<K> for Lister {
    ghost use Rattle.std.specs.Prelude.{⊤};
    ghost use Rattle.svga_io.specs.Growing.{Grows, GrowsByPrefix};
    ghost use Rattle.svga_text.specs.CommandLines.{command_line};

    type Stop = WriteFault;

    ghost can_take = { λ lister sink first. ⊤ };

    ghost takes = { λ lister sink first c now after.
        Grows K.held K.faults sink after (command_line first c) };

    ghost stops = { λ lister sink first c stop now after.
        GrowsByPrefix K.held K.faults sink after (command_line first c) };

    fn command(
        &mut self,
        sink: &mut K,
        first: u32,
        _end: u32,
        command: &CommandRef<'_>,
    ) -> Result<(), WriteFault> {
        self.render.command(sink, first, command)
    }
}

/// Writes the line of each whole command before the end or the bad word.
pub fn list_commands<K: Sink>(
    words: &[u32],
    lister: &mut Lister,
    sink: &mut K,
) -> Result<(), WriteFault>
    requires { length words.now ≤ MAX_INPUT_WORDS }
    ensures { Lists K.held K.faults sink.old sink.new words.now result }
{
    match each_command(&SliceWords::new(words), &mut [], lister, sink) {
        Ok(_) => Ok(()),
        Err(fault) => Err(fault),
    }
}
