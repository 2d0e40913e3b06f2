//! How a race closes its session.
ghost use Rattle.std.specs.Prelude.{◌≡◌, List, true};
ghost use Rattle.svga_head.specs.PlugStates.{PlugState};
ghost use Rattle.svga_head.specs.Plugs.{plug_states};
ghost use Rattle.svga_head.specs.Showing.{AllShow};
ghost use Rattle.svga_device.specs.Devices.{Shows};
ghost use Rattle.svga_model.specs.Closings.{IsMeant};
ghost use Rattle.svga_model.specs.Pictures.{pictures_of};
ghost use Rattle.svga_model.specs.Scripts.{Script, meaning_of};
ghost use Rattle.svga_pair.specs.RaceDrivers.{IsStoppedFor};
ghost use Rattle.svga_ring.specs.Conditions.{MayJoin};

use svga_device::Device;
use svga_head::{Head, HeadsOf};
use svga_link::{Closed, DriverEnd, close};
use svga_machine::Machine;

/// What is left of a driver's end and a device that were closed together.
#[derive(Drop)]
pub(crate) struct Left<B> {
    pub(crate) closed: Closed,
    pub(crate) machine: Machine,
    pub(crate) heads: HeadsOf<B>,
}

/// Closes the two sides of a session, both of which have stopped.
pub(crate) fn close_sides<B: Head>(driver: DriverEnd, device: Device<B>) -> Left<B>
    requires stopped { driver.view.stopped ≡ true }
    requires one_table { device.table ≡ driver.table }
    requires may { MayJoin device.view }
    ensures meant { (s : Script) (is : IsStoppedFor s.session (meaning_of s).client driver)
        → IsMeant is.session (meaning_of s) result.closed }
    ensures kept { result.machine.kept ≡ result.closed.kept }
    ensures shown { (first : List PlugState) → Shows first device
        → AllShow (pictures_of result.closed.kept.screens) first (plug_states B.state result.heads) }
{
    driver.facts();
    let ended = device.close();
    Left {
        closed: close(driver, ended.end),
        machine: ended.machine,
        heads: ended.heads,
    }
}
