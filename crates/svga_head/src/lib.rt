//! Heads: outputs of a display, which are told what the device shows, may fail, and come and go.
//!
//! `Head` is what an output does, and any crate may have one of its own. `Heads` are some of them in plugs:
//! each plugged head is told of each change, and one that answers a fault is told nothing more. `Mirror` and
//! `Flaky` are heads in memory.
#![tactic(auto)]

mod album;
mod boxed;
mod change;
mod fault;
mod flaky;
mod head;
mod heads;
mod laws;
mod mirror;
mod picture;
mod plug;
mod telling;

pub use fault::HeadFault;
pub use flaky::Flaky;
pub use head::Head;
pub use heads::{Heads, HeadsOf};
pub use laws::{heads_keep_showing, pictures_of_screens};
pub use mirror::Mirror;
pub use plug::{Plug, PlugOf};

#[cfg(test)]
mod tests;
