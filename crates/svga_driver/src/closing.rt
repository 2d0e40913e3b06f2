//! How a driver's requests end, and the driver itself.
ghost use Rattle.svga_driver.specs.RequestAnswers.{CloseAnswers, SettledAnswers};

use crate::driver::Driver;
use crate::fault::DriverFault;
use crate::requests::settle_request;
use svga_link::DriverEnd;

/// A driver that can't stop yet: its request is out, and the reply that it loaded isn't its number.
#[derive(Drop)]
pub struct Unsettled {
    pub driver: Driver,
    pub request: u32,
    pub reply: u32,
}

impl Driver {
    /// Loads the reply where a request is open. It is Ok where none is any more.
    pub fn settle(&mut self) -> Result<(), DriverFault>
        ensures { SettledAnswers self.old result self.new }
    {
        settle_request(&mut self.end, &mut self.asked)
    }

    /// Stops the session, unless a request is out: then the driver comes back.
    pub fn close(self) -> Result<DriverEnd, Unsettled>
        ensures { CloseAnswers self result }
    {
        let mut driver = self;
        match settle_request(&mut driver.end, &mut driver.asked) {
            Err(DriverFault::Asked { request, reply }) => Err(Unsettled {
                driver,
                request,
                reply,
            }),
            Err(_) => unreachable!(),
            Ok(()) => {
                let Driver { mut end, .. } = driver;
                end.stop();
                Ok(end)
            }
        }
    }
}
