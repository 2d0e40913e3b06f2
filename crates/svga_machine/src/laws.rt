//! What holds of every valid state and every command. The function does nothing: its contract is the law.
ghost use Rattle.svga_cmd.specs.Pages.{HasPage, IsKey};
ghost use Rattle.svga_cmd.specs.declared.command.Command.{Command};
ghost use Rattle.svga_cmd.specs.declared.page.PageKey.{PageKey};
ghost use Rattle.svga_model.specs.States.{State};
ghost use Rattle.svga_model.specs.ValidStates.{IsState};
ghost use Rattle.svga_machine.specs.Touched.{HasTouched};

/// A store that has all pages of the device serves every command.
pub fn whole_store()
    ensures { (s : State) (c : Command) → IsState s
        → ((key : PageKey) → IsKey s.kept.limits key → HasPage s.memory key) → HasTouched s.kept s.memory c }
{}
