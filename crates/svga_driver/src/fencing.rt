//! The call that commits the next FENCE.
use crate::driver::Driver;
use crate::fault::{DriverFault, Fence};
use crate::requests::settle_request;
use crate::sending::{behind, send};
use svga_cmd::constants::FENCE_WINDOW;
use svga_cmd::{Command, encode_short};
use svga_ring::fence_number;

impl Driver {
    ghost use Rattle.svga_driver.specs.CommitAnswers.{FenceAnswers};
    ghost use Rattle.svga_driver.specs.Driving.{IsShort};

    /// Commits the FENCE with the next number. Once it is seen, all commands ahead of it are done.
    pub fn fence(&mut self) -> Result<Fence, DriverFault>
        requires { IsShort self.old.view }
        ensures { FenceAnswers self.old result self.new }
    {
        settle_request(&mut self.end, &mut self.asked)?;
        if self.emitted >= self.seen + u64::from(FENCE_WINDOW) {
            return Err(DriverFault::FenceWindow);
        }
        let number = fence_number(self.first, self.emitted);
        let words = encode_short(&Command::Fence { value: number });
        match send(&mut self.end, words.as_slice(), &[]) {
            Ok(()) => {}
            Err(fault) => return Err(fault),
        }
        self.emitted += 1;
        self.committed += 1;
        self.next = behind(self.ring, self.next, words.as_slice().len());
        Ok(Fence { number })
    }
}
