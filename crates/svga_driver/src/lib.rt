//! The driver of a session: a client's calls as commands in the ring, and pages that are lent and taken back.
#![tactic(auto)]

mod closing;
mod commands;
mod committing;
mod describing;
mod driver;
mod fault;
mod fencing;
mod judging;
mod lending;
mod pages;
mod requests;
mod sending;
mod taking;
mod touching;
mod walking;

pub use closing::Unsettled;
pub use driver::Driver;
pub use fault::{DriverFault, Fence, Posted};

#[cfg(test)]
mod device_tests;
#[cfg(test)]
mod tests;
