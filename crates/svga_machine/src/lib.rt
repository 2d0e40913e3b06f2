//! One machine over any store of pages: the meaning of every command, one after another on one thread.
//!
//! A machine keeps regions, screens, the GMRFB and the last fence. The pages are the caller's: a device
//! lends those that a command touches, and a software display has all of them at hand.
#![tactic(auto)]

mod display;
mod effect;
mod laws;
mod machine;
mod remap;
mod run_all;

pub use display::Display;
pub use effect::Effect;
pub use laws::whole_store;
pub use machine::Machine;
pub use run_all::Ran;

#[cfg(test)]
mod tests;
