//! How a call commits its command: once no request is open it is judged, sent, and noted.
ghost use Rattle.std.specs.Prelude.{◌≡◌, ◌+◌, ◌≤◌, ◌<◌, ◌++◌, length, None};
ghost use Rattle.svga_cmd.specs.Lent.{command_of};
ghost use Rattle.svga_cmd.specs.Spelling.{spelling};
ghost use Rattle.svga_cmd.specs.WellFormed.{IsWellFormed};
ghost use Rattle.svga_model.specs.Faults.{ReadsNumbers};
ghost use Rattle.svga_model.specs.Fences.{fence_value};

use crate::driver::Driver;
use crate::fault::DriverFault;
use crate::judging::judge;
use crate::requests::settle_request;
use crate::sending::{behind, send};
use crate::touching::note_touch;
use svga_cmd::CommandRef;

impl Driver {
    ghost use Rattle.svga_driver.specs.CommitAnswers.{CommitAnswers};
    ghost use Rattle.svga_driver.specs.Driving.{IsShort, MAX_SENT_WORDS};

    // Commits a command that is no FENCE, whose words come in two parts.
    pub(crate) fn commit(
        &mut self,
        command: &CommandRef<'_>,
        front: &[u32],
        rest: &[u32],
    ) -> Result<(), DriverFault>
        requires well_formed { IsWellFormed (command_of command.now) }
        requires named { ¬ (ReadsNumbers (command_of command.now)) }
        requires no_fence { fence_value (command_of command.now) ≡ None }
        requires spelled { front.now ++ rest.now ≡ spelling (command_of command.now) }
        requires some { 0 < length front.now }
        requires most { length front.now + length rest.now ≤ MAX_SENT_WORDS }
        requires short { IsShort self.old.view }
        ensures { CommitAnswers self.old (command_of command.now) result self.new }
    {
        settle_request(&mut self.end, &mut self.asked)?;
        let touch = match judge(&self.shape, &self.lendings, command) {
            Ok(touch) => touch,
            Err(fault) => return Err(fault),
        };
        match send(&mut self.end, front, rest) {
            Ok(()) => {}
            Err(fault) => return Err(fault),
        }
        let fences = self.emitted + 1;
        note_touch(
            &mut self.lendings,
            self.shape.regions(),
            touch,
            self.committed,
            fences,
        );
        self.shape.apply(command);
        self.committed += 1;
        self.next = behind(self.ring, self.next, front.len() + rest.len());
        Ok(())
    }
}
