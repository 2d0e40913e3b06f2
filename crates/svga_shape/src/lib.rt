//! What can be told of a command before it runs: its fault, and the region whose pages it may touch.
//!
//! A shape is the part of a device's state that this takes: limits, regions, screen definitions and the
//! GMRFB. It has no bytes and no pixels, so that a driver can keep one as well as a device.
#![tactic(auto)]

mod blits;
mod judging;
mod lesser;
mod shape;
mod span;
mod touch;

pub use shape::Shape;
pub use touch::Touch;

#[cfg(test)]
mod tests;
