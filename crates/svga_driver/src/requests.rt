//! Requests by the registers.
ghost use Rattle.std.specs.Prelude.{◌≡◌};
ghost use Rattle.svga_driver.specs.Answering.{SettleAnswers};
ghost use Rattle.svga_driver.specs.Driving.{open_request};

use crate::fault::DriverFault;
use svga_link::DriverEnd;

/// Loads the reply, where a request is open: it isn't open any more once the reply is its number.
pub(crate) fn settle_request(
    end: &mut DriverEnd,
    asked: &mut Option<u32>,
) -> Result<(), DriverFault>
    requires { asked.old ≡ open_request end.old.view }
    ensures end { end.new ≡ record end.old { view = end.new.view } }
    ensures asked { asked.new ≡ open_request end.new.view }
    ensures answer { SettleAnswers end.old.view result end.new.view }
{
    if let Some(request) = *asked {
        let reply = end.read_reply();
        if reply != request {
            return Err(DriverFault::Asked { request, reply });
        }
        *asked = None;
    }
    Ok(())
}
