//! How a driver learns which fences have passed, and how a page comes back.
ghost use Rattle.std.specs.Prelude.{◌≡◌, ◌+◌, ◌<◌, ◌≤◌, ℕ, length};
ghost use Rattle.svga_cmd.specs.declared.constants.TheConstants.{FENCE_WINDOW};
ghost use Rattle.svga_driver.specs.PageAnswers.{PassAnswers, PollTold, TakeAnswers};
ghost use Rattle.svga_driver.specs.declared.lending.Lending.TheVariants.{Touched};
ghost use Rattle.svga_link.specs.Lending.{FenceTold};
ghost use Rattle.svga_model.specs.Fences.{fences, number_of_fence};
ghost use Rattle.svga_ring.specs.Committed.{commands};

use crate::driver::Driver;
use crate::fault::DriverFault;
use crate::lending::Lending;
use crate::requests::settle_request;
use svga_cmd::PageKey;
use svga_link::DriverEnd;
use svga_ring::{fence_number, seen_index};

impl Driver {
    /// Loads FENCE, and gives how many fences have been seen.
    pub fn poll(&mut self) -> u64
        ensures { PollTold self.old result self.new }
    {
        self.seen = see_fences(&mut self.end, self.first, self.emitted, self.seen);
        self.seen
    }

    /// Takes back a page that is lent: at once where no command of its lending touches it, else once the
    /// first fence behind the last such command has passed.
    pub fn take_back(&mut self, key: PageKey) -> Result<(), DriverFault>
        ensures { TakeAnswers self.old key result self.new }
    {
        if !self.lendings.is_key(key) {
            return Err(DriverFault::PageRange(key));
        }
        match self.lendings.at(key) {
            None => Err(DriverFault::NotLent(key)),
            Some(lending) => {
                settle_request(&mut self.end, &mut self.asked)?;
                match pass_fence(
                    &mut self.end,
                    key,
                    lending,
                    self.first,
                    self.emitted,
                    &mut self.seen,
                ) {
                    Err(fault) => Err(fault),
                    Ok(()) => {
                        self.end.take(key);
                        self.lendings.take(key);
                        Ok(())
                    }
                }
            }
        }
    }
}

// Loads FENCE for a page that a command touches, which can come back once it shows the first fence behind
// that command.
fn pass_fence(
    end: &mut DriverEnd,
    key: PageKey,
    lending: Lending,
    first: u32,
    emitted: u64,
    seen: &mut u64,
) -> Result<(), DriverFault>
    requires first { first ≡ end.old.view.terms.first }
    requires emitted { emitted ≡ length (fences (commands end.old.view.acts)) }
    requires seen { seen.old ≡ end.old.view.seen }
    requires low { seen.old ≤ emitted }
    requires window { emitted ≤ seen.old + FENCE_WINDOW }
    requires some { (command count : ℕ) → lending ≡ Touched command count → 0 < count }
    ensures end { end.new ≡ record end.old { view = end.new.view } }
    ensures seen { seen.new ≡ end.new.view.seen }
    ensures answer { PassAnswers end.old.view key lending result end.new.view }
{
    match lending {
        Lending::Untouched => Ok(()),
        Lending::Touched { command: _, fences } => {
            if fences > emitted {
                return Err(DriverFault::NoFence(key));
            }
            *seen = see_fences(end, first, emitted, *seen);
            if *seen < fences {
                return Err(DriverFault::NotYet {
                    key,
                    fence: fence_number_of(end, first, fences - 1),
                });
            }
            Ok(())
        }
    }
}

// The number of a fence.
fn fence_number_of(end: &DriverEnd, first: u32, fence: u64) -> u32
    requires { first ≡ end.now.view.terms.first }
    ensures { result ≡ number_of_fence first fence }
{
    end.facts();
    fence_number(first, fence)
}

/// Loads FENCE, and gives how many fences have been seen.
pub(crate) fn see_fences(end: &mut DriverEnd, first: u32, emitted: u64, seen: u64) -> u64
    requires first { first ≡ end.old.view.terms.first }
    requires emitted { emitted ≡ length (fences (commands end.old.view.acts)) }
    requires seen { seen ≡ end.old.view.seen }
    requires low { seen ≤ emitted }
    requires window { emitted ≤ seen + FENCE_WINDOW }
    ensures end { end.new ≡ record end.old { view = end.new.view } }
    ensures seen { result ≡ end.new.view.seen }
    ensures told { (register : ℕ) × FenceTold end.old.view end.new.view register }
{
    end.facts();
    let register = end.read_fence();
    seen_index(first, seen, emitted, register)
}
