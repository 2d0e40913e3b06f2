//! What the decoder answers to a word.
use svga_cmd::Cause;

/// The answer to a word.
#[derive(Clone, Copy, Debug, PartialEq, Eq)]
pub enum Fed {
    /// The word belongs to a command that isn't whole yet.
    More,
    /// With this word a command is whole.
    Whole,
    /// No command goes on with this word. The decoder answers this from now on.
    Refused { cause: Cause },
}
