//! How a command is judged before it is sent.
ghost use Rattle.std.specs.FinSet.{FinSet};
ghost use Rattle.std.specs.Prelude.{◌≡◌, IfOk, option_map};
ghost use Rattle.std.specs.Result.{result_err};
ghost use Rattle.svga_client.specs.Following.{refusal_by};
ghost use Rattle.svga_cmd.specs.Lent.{command_of};
ghost use Rattle.svga_cmd.specs.Pages.{key_cmp};
ghost use Rattle.svga_cmd.specs.WellFormed.{IsWellFormed};
ghost use Rattle.svga_driver.specs.Answering.{told};
ghost use Rattle.svga_driver.specs.LendingSet.{AreLent};
ghost use Rattle.svga_model.specs.States.{Kept, shape_of};
ghost use Rattle.svga_model.specs.Touches.{touched_region};
ghost use Rattle.svga_shape.specs.Admission.{region_of};
ghost use Rattle.svga_shape.specs.ShapeSet.{shape_in};

use crate::fault::DriverFault;
use crate::lending::Lendings;
use crate::touching::first_out;
use svga_cmd::CommandRef;
use svga_shape::{Shape, Touch};

/// The region whose pages a command touches, all of which are lent, or why it is refused: for its fault, else
/// for the first page that isn't lent.
pub(crate) fn judge(
    shape: &Shape,
    lendings: &Lendings,
    command: &CommandRef<'_>,
) -> Result<Touch, DriverFault>
    requires { IsWellFormed (command_of command.now) }
    ensures refused { (kept : Kept) (lent : FinSet key_cmp) → shape_of kept ≡ shape_in shape.now
        → AreLent lent lendings.now
        → result_err result ≡ option_map told (refusal_by kept lent (command_of command.now)) }
    ensures touch { IfOk result (λ touch. region_of touch
        ≡ touched_region shape.now.gmrfb (command_of command.now)) }
{
    let touch = match shape.admit(command) {
        Ok(touch) => touch,
        Err(fault) => return Err(DriverFault::Refused(fault)),
    };
    if let Touch::Region(id) = touch {
        if let Some(key) = first_out(lendings, shape.regions(), id) {
            return Err(DriverFault::PageOut(key));
        }
    }
    Ok(touch)
}
