//! Callers of the decoder, of a display and of captures. Each shows how a user's contract follows from
//! theirs.
#![tactic(auto)]

mod decoding;
mod displaying;
mod replaying;

pub use decoding::{command_count, next_command};
pub use displaying::write_and_update;
pub use replaying::fence_left;

#[cfg(test)]
mod tests;
