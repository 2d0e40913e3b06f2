//! The shared table of a driver and a device, and the two ends that step on it.
//!
//! The table is an `atomic_table` whose rule is all that `svga_ring` proves to be sound. Each end has a
//! seat at it, and each call of an end makes steps of its own kinds under their conditions. No call but
//! `make` takes memory, and none waits.
#![tactic(auto)]

mod board;
mod closed;
mod closing;
mod closing_plays;
mod device;
mod device_plays;
mod device_seat;
mod driver;
mod driver_pages;
mod driver_plays;
mod driver_seat;
mod making;
mod named;
mod page_words;
mod plays;
mod requests;
mod reserving;
mod ring;
mod sending;
mod table_words;

pub use board::View;
pub use closed::Closed;
pub use closing::close;
pub use device::{Beside, DeviceEnd};
pub use driver::DriverEnd;
pub use making::make;
pub use requests::Request;
pub use reserving::{ReserveFault, Reserved};

#[cfg(test)]
mod device_tests;
#[cfg(test)]
mod driver_tests;
#[cfg(test)]
mod tests;
