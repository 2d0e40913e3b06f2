//! A command that was read whole is served.
ghost use Rattle.std.specs.FinMap as map;
ghost use Rattle.std.specs.Prelude.{◌≡◌, ℕ, [], true};
ghost use Rattle.svga_cmd.specs.Lent.{command_of};
ghost use Rattle.svga_cmd.specs.Spelling.{Spells};
ghost use Rattle.svga_cmd.specs.WellFormed.{IsWellFormed};
ghost use Rattle.svga_cmd.specs.declared.command.Command.TheVariants.{Fence};
ghost use Rattle.svga_device.specs.Serving.{IsRun, taken_with};
ghost use Rattle.svga_device.specs.Telling.{IsQuiet, ShowNext, SomeShow};
ghost use Rattle.svga_head.specs.Plugs.{plug_states};
ghost use Rattle.svga_model.specs.Pictures.{pictures_of};

use crate::giving::give_all;
use crate::held_pages::HeldPages;
use crate::holding::hold_touched;
use crate::telling::tell;
use svga_cmd::CommandRef;
use svga_head::{Head, HeadsOf};
use svga_link::DeviceEnd;
use svga_machine::{Effect, Machine};

/// Serves the command that was read: holds the pages that it touches, runs it on them, gives them back, tells
/// the heads what changed, and stores FENCE, where it is a fence, and STOP. No command that is read has a fault.
pub(crate) fn serve<B: Head>(
    end: &mut DeviceEnd,
    held: &mut HeldPages,
    machine: &mut Machine,
    heads: &mut HeadsOf<B>,
    command: &CommandRef<'_>,
) -> Effect
    requires well_formed { IsWellFormed (command_of command.now) }
    requires kept { end.old.view.kept ≡ machine.old.kept }
    requires limits { end.old.view.terms.limits ≡ end.old.view.kept.limits }
    requires read { Spells (command_of command.now) end.old.view.read }
    requires noted { end.old.view.noted ≡ map.empty }
    requires pages { end.old.pages ≡ map.empty }
    requires empty { held.old ≡ [] }
    requires showing { SomeShow (pictures_of machine.old.kept.screens) (plug_states B.state heads.old) }
    ensures ran { IsRun machine.old.kept (command_of command.now) result machine.new.kept }
    ensures taken { end.new ≡ record end.old { view = taken_with end.old.view machine.new.kept } }
    ensures chain { machine.new.chain ≡ machine.old.chain }
    ensures left { held.new ≡ [] }
    ensures shows { ShowNext (pictures_of machine.old.kept.screens) (pictures_of machine.new.kept.screens)
        (plug_states B.state heads.old) (plug_states B.state heads.new) }
    ensures quiet { IsQuiet result → heads.new ≡ heads.old }
{
    end.facts();
    hold_touched(end, held, machine, command);
    end.facts();
    match machine.run(end, command) {
        Ok(effect) => {
            give_all(end, held);
            tell(heads, &effect, machine.screens());
            store_fence(end, command);
            end.store_stop();
            effect
        }
        Err(_) => unreachable!(),
    }
}

/// Stores the number of the command that was read, where it is a fence.
fn store_fence(end: &mut DeviceEnd, command: &CommandRef<'_>)
    requires { Spells (command_of command.now) end.old.view.read }
    ensures left { end.new
        ≡ record end.old { view = record end.old.view { stored = end.new.view.stored } } }
    ensures stored { (value : ℕ) → command_of command.now ≡ Fence value → end.new.view.stored ≡ true }
{
    if let CommandRef::Fence { value } = *command {
        end.store_fence(value);
    }
}
