//! Replays: the words of a capture, run on its opening state.
ghost use Rattle.std.specs.Prelude.{◌≡◌, List, IfOk};
ghost use Rattle.svga_cmd.specs.declared.command.Command.{Command};
ghost use Rattle.svga_cmd.specs.declared.ending.Ending.{Ending};
ghost use Rattle.svga_model.specs.Endings.{IsEnding};
ghost use Rattle.svga_model.specs.Replays.{IsWithinRegions, end_of_words, replay_of};
ghost use Rattle.svga_capture.specs.Replayed.{IsReplayOf, replay_in};

use crate::capture::Capture;
use std::alloc::{AllocError, Global};
use svga_cmd::constants::MAX_COMMAND_WORDS;
use svga_cmd::{CommandRef, Ending, Fault, MemPages, ReplayEnd};
use svga_decode::{Visitor, each_command};
use svga_machine::Machine;

/// What a replay leaves: the state of the commands before its end.
#[derive(Drop)]
pub struct Replayed {
    /// How many commands were run whole.
    pub commands: u32,
    /// The fence of the state.
    pub fence: u32,
    pub machine: Machine,
    pub pages: MemPages,
    pub ending: ReplayEnd,
}

/// A replay that goes on.
#[derive(Drop)]
pub(crate) struct Running {
    pub(crate) machine: Machine,
    pub(crate) pages: MemPages,
    /// How many commands were run.
    pub(crate) commands: u32,
}

impl Visitor<()> for Running {
    ghost use Rattle.svga_capture.specs.Running.{CanRun, Runs, Stops};

    type Stop = Fault;

    ghost can_take = { λ running on first. CanRun running first };

    ghost takes = { λ running on first c now on'. Runs running c now };

    ghost stops = { λ running on first c fault now on'. Stops running c fault now };

    fn command(
        &mut self,
        _on: &mut (),
        _first: u32,
        _end: u32,
        command: &CommandRef<'_>,
    ) -> Result<(), Fault> {
        self.machine.run(&mut self.pages, command)?;
        self.commands += 1;
        Ok(())
    }
}

/// Runs the words of a capture on its opening state, up to the first bad word, torn command or fault.
/// The code takes all memory before it runs a command; that no contract says.
pub fn replay(alloc: Global, capture: &Capture<'_>) -> Result<Replayed, AllocError>
    ensures replay { IfOk result (IsReplayOf capture.now) }
    // It is the replay over the pages of the regions alone, and every other page is unchanged.
    ensures within { IfOk result (λ r. (cs : List Command) (end : Ending) → IsEnding capture.now.words cs end
        → (replay_in r ≡ replay_of capture.now.opening cs end) × IsWithinRegions capture.now.opening cs end) }
{
    let (machine, pages) = capture.opening(alloc)?;
    let mut room = vec![in alloc; 0; MAX_COMMAND_WORDS as usize]?;
    let mut running = Running {
        machine,
        pages,
        commands: 0,
    };
    let ending = match each_command(capture, &mut room, &mut running, &mut ()) {
        Ok(ending) => replay_end(ending),
        Err(fault) => ReplayEnd::Fault {
            command: running.commands,
            fault,
        },
    };
    Ok(Replayed {
        commands: running.commands,
        fence: running.machine.fence(),
        machine: running.machine,
        pages: running.pages,
        ending,
    })
}

/// How a replay ends whose words end so.
fn replay_end(ending: Ending) -> ReplayEnd
    ensures { result ≡ end_of_words ending }
{
    match ending {
        Ending::Whole => ReplayEnd::Whole,
        Ending::Refused { word, cause } => ReplayEnd::Refused { word, cause },
        Ending::Torn { word } => ReplayEnd::Torn { word },
    }
}
