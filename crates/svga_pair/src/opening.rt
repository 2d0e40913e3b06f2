//! What a race is opened with.
ghost use Rattle.std.specs.Prelude.{◌≡◌, IfErr, IfOk};
ghost use Rattle.svga_device.specs.Devices.{Shows};
ghost use Rattle.svga_head.specs.Plugs.{plug_states};
ghost use Rattle.svga_pair.specs.Going.{IsFresh};
ghost use Rattle.svga_script.specs.Asked.{numbers_of};

use crate::race_end::NoRace;
use std::alloc::Global;
use svga_cmd::Session;
use svga_device::Device;
use svga_driver::Driver;
use svga_head::{Head, HeadsOf};

/// The driver and the device of a session, which have done nothing yet.
pub(crate) fn open<B: Head>(
    alloc: Global,
    session: &Session,
    heads: HeadsOf<B>,
) -> Result<(Driver, Device<B>), NoRace<B>>
    ensures fresh { IfOk result (λ ends. IsFresh (numbers_of session.now) ends.0) }
    ensures one_table { IfOk result (λ ends. ends.1.table ≡ ends.0.table) }
    ensures shows { IfOk result (λ ends. Shows (plug_states B.state heads) ends.1) }
    ensures no_memory { IfErr result (λ none. none.heads ≡ heads) }
{
    match Driver::new(alloc, *session) {
        Ok((driver, end)) => match Device::new(alloc, end, session.limits, heads) {
            Ok(device) => Ok((driver, device)),
            Err(none) => Err(NoRace { heads: none.heads }),
        },
        Err(_) => Err(NoRace { heads }),
    }
}
