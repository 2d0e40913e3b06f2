//! The engine of a device: it serves the commands that its end reads, and the requests that it loads.
//!
//! A step loads CONFIG_DONE and NEXT_CMD, reads words until one command is whole, holds the pages that it
//! touches, runs its machine on them, gives them back, tells its heads what changed, and stores FENCE and
//! STOP. Where no command is whole it loads the request, and answers it if it is out: it reads the table pages
//! of its chain, and stores the reply.
#![tactic(auto)]

mod answering;
mod device;
mod giving;
mod held_pages;
mod holding;
mod reading;
mod serving;
mod stepped;
mod telling;

pub use device::{Device, DeviceClosed, NoDevice};
pub use stepped::Stepped;
pub use telling::tell;

#[cfg(test)]
mod telling_tests;
#[cfg(test)]
mod tests;
