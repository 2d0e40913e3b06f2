//! Captures: a FIFO and the memory of its device, in a file that anybody may hand us.
//!
//! What is read is exactly what is there, and the first thing that is wrong is named with its byte.
#![tactic(auto)]

mod capture;
mod fault;
mod field;
mod fields;
mod header;
mod opening;
mod pages;
mod regions;
mod replaying;
mod ring;

pub use capture::{Capture, read_capture};
pub use fault::CaptureFault;
pub use replaying::{Replayed, replay};
pub use svga_cmd::{CaptureCause, Cause, ReplayEnd};

#[cfg(test)]
mod tests;
