//! A waiter beside a device that another thread steps.
ghost use Rattle.std.specs.Prelude.{None};

use crate::waiter::Waiter;
use crossbeam_utils::Backoff;
use std::sync::Wait;

/// Steps no device: a turn leaves the processor to the thread that does, the longer the more turns it took.
#[derive(Drop)]
pub struct Beside {
    backoff: Backoff,
}

impl Beside {
    pub fn new() -> Beside {
        Beside {
            backoff: Backoff::new(),
        }
    }
}

impl Waiter for Beside {
    ghost table = { λ _. None };

    ghost shows = { λ _ _. Unit {0} };

    fn turn<R: Wait>(&mut self, _rt: &R) {
        self.backoff.snooze();
    }
}
