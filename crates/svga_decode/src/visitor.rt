//! What is done with the commands that are read.
ghost use Rattle.std.specs.Prelude.{◌≡◌, ℕ, ◌+◌, IfErr, OnOk, length};
ghost use Rattle.svga_cmd.specs.Lent.{command_of};
ghost use Rattle.svga_cmd.specs.Spelling.{spelling};
ghost use Rattle.svga_cmd.specs.WellFormed.{IsWellFormed};
ghost use Rattle.svga_cmd.specs.declared.command.Command.{Command};

use svga_cmd::CommandRef;

/// Takes commands one after another, and may stop at one.
///
/// `T` is what it works on beside itself, as a sink, and `()` where there is nothing.
pub trait Visitor<T> {
    /// Why it stops.
    type Stop;

    /// It can take a command that begins at this word.
    ghost can_take: { Self → T → ℕ → Type 0 };

    /// This is left where it has taken this command, which began at this word.
    ghost takes: { Self → T → ℕ → Command → Self → T → Type 0 };

    /// It stops so at this command, which began at this word, and this is left.
    ghost stops: { Self → T → ℕ → Command → Self.Stop → Self → T → Type 0 };

    /// Takes the command whose first word has number `first`, and behind whose last word number `end`
    /// follows.
    fn command(
        &mut self,
        on: &mut T,
        first: u32,
        end: u32,
        command: &CommandRef<'_>,
    ) -> Result<(), Self::Stop>
        requires well_formed { IsWellFormed (command_of command.now) }
        requires end { end ≡ first + length (spelling (command_of command.now)) }
        requires can { can_take self.old on.old first }
        ensures taken { OnOk result (takes self.old on.old first (command_of command.now) self.new on.new) }
        ensures can { OnOk result (can_take self.new on.new end) }
        ensures stopped { IfErr result (λ stop. stops self.old on.old first (command_of command.now) stop
            self.new on.new) };
}
