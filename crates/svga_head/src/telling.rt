//! Telling heads of a change.
ghost use Rattle.std.specs.Prelude.{◌≡◌, All, length};
ghost use Rattle.std.specs.List.{AllZip};
ghost use Rattle.svga_head.specs.Changes.{changed};
ghost use Rattle.svga_head.specs.Plugs.{IfPlugged, IsPlugTold};
ghost use Rattle.svga_head.specs.Telling.{IsTold, MayTell};

use crate::change::Change;
use crate::fault::HeadFault;
use crate::head::Head;
use crate::plug::PlugOf;
use std::mem;

/// Tells each plugged head.
pub fn tell_all<B: Head>(plugs: &mut Vec<PlugOf<B>>, change: &Change<'_>)
    requires { All (IfPlugged B.state (MayTell change.now)) plugs.old.items }
    ensures { AllZip (IsPlugTold B.state (changed change.now)) plugs.old.items plugs.new.items }
{
    for k in 0..plugs.len() {
        tell_plug(&mut plugs[k], change);
    }
}

/// Tells the head of one plug, if it is plugged.
fn tell_plug<B: Head>(plug: &mut PlugOf<B>, change: &Change<'_>)
    requires { IfPlugged B.state (MayTell change.now) plug.old }
    ensures { IsPlugTold B.state (changed change.now) plug.old plug.new }
{
    *plug = told_plug(mem::replace(plug, PlugOf::Empty), change);
}

fn told_plug<B: Head>(plug: PlugOf<B>, change: &Change<'_>) -> PlugOf<B>
    requires { IfPlugged B.state (MayTell change.now) plug }
    ensures { IsPlugTold B.state (changed change.now) plug result }
{
    match plug {
        PlugOf::Plugged(mut head) => match tell(&mut head, change) {
            Ok(()) => PlugOf::Plugged(head),
            Err(HeadFault::Failed) => PlugOf::DroppedFault(head),
            Err(HeadFault::Memory) => PlugOf::DroppedMemory(head),
        },
        unplugged => unplugged,
    }
}

fn tell<B: Head>(head: &mut B, change: &Change<'_>) -> Result<(), HeadFault>
    requires { MayTell change.now (B.state head.old) }
    ensures { IsTold (changed change.now) (B.state head.old) (B.state head.new) result }
{
    match *change {
        Change::Show { id, width, height } => head.show(id, width, height),
        Change::Hide { id } => head.hide(id),
        Change::Paint { id, x, y, colours } => head.paint(id, x, y, colours),
    }
}
