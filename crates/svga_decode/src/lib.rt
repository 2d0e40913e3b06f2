//! The decoder: 32-bit words to commands.
//!
//! It stands on the commands of `svga_cmd` and on the grammar of `svga_model`. Words that are all there are
//! gone over by `each_command`, which hands each command to a visitor; a `Decoder` takes words one at a time.
//! It takes its memory when it is made, and none after that.
#![tactic(auto)]

mod answer;
mod decoder;
mod laws;
mod length;
mod next;
mod parse;
mod refusal;
mod scanning;
mod visiting;
mod visitor;
mod words;

pub use answer::Fed;
pub use decoder::Decoder;
pub use laws::one_answer;
pub use scanning::{Scanned, scan};
pub use svga_cmd::{Cause, Ending};
pub use visiting::each_command;
pub use visitor::Visitor;
pub use words::{SliceWords, Words};

#[cfg(test)]
mod tests;
