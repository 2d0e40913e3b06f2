//! The call that describes a region by a chain of table pages.
ghost use Rattle.std.specs.Prelude.{◌≡◌, option_map};
ghost use Rattle.svga_driver.specs.DescribeAnswers.{DescribeAnswers, LoadAnswers};
ghost use Rattle.svga_link.specs.Reserving.{next_command};
ghost use Rattle.svga_model.specs.ClientFaults.{Refused, first_true};
ghost use Rattle.svga_model.specs.Clients.{Client, start_refusals};

use crate::driver::Driver;
use crate::fault::{DriverFault, Posted};
use crate::requests::settle_request;
use crate::walking::read_chain;
use svga_cmd::constants::MAX_REGION_ID;
use svga_cmd::{Fault, Limits};
use svga_link::DriverEnd;

impl Driver {
    /// Asks the device to give a region the list of the descriptor chain that begins on a guest page, or to
    /// delete the region, by page 0. All that was sent has to be taken, and the chain's table pages have to
    /// be lent; they stay so, and no lending begins anew. The request is open until `settle` finds it
    /// answered.
    pub fn describe(&mut self, id: u32, first: u32) -> Result<Posted, DriverFault>
        ensures { DescribeAnswers self.old id first result self.new }
    {
        settle_request(&mut self.end, &mut self.asked)?;
        match start_fault(self.shape.limits(), id, first) {
            None => {}
            Some(fault) => return Err(DriverFault::Refused(fault)),
        }
        match see_all_taken(&mut self.end, self.next) {
            Ok(()) => {}
            Err(fault) => return Err(fault),
        }
        self.end.facts();
        match read_chain(&mut self.end, &mut self.shape, id, first) {
            Ok(()) => {}
            Err(fault) => return Err(fault),
        }
        let request = self.end.ask(id, first);
        self.asked = Some(request);
        Ok(Posted { request })
    }
}

// Why a chain can't be begun, by its region and its first page alone.
fn start_fault(limits: Limits, id: u32, first: u32) -> Option<Fault>
    ensures { (c : Client) → c.state.kept.limits ≡ limits
        → option_map Refused result ≡ first_true (start_refusals c id first) }
{
    if id > MAX_REGION_ID {
        return Some(Fault::RegionId);
    }
    if first != 0 && first >= limits.pages {
        return Some(Fault::BadPage);
    }
    None
}

// Loads STOP: it is NEXT_CMD once all that was sent is taken.
fn see_all_taken(end: &mut DriverEnd, next: u32) -> Result<(), DriverFault>
    requires { next ≡ next_command end.old.view }
    ensures end { end.new ≡ record end.old { view = end.new.view } }
    ensures answer { LoadAnswers end.old.view result end.new.view }
{
    let stop = end.read_stop();
    if stop != next {
        return Err(DriverFault::Busy { stop, next });
    }
    Ok(())
}
