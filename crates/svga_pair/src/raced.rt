//! What doing a script comes to.
use svga_cmd::PageKey;

/// The act that was refused.
#[derive(Clone, Copy, Debug, PartialEq, Eq)]
pub struct Refusal {
    /// The number of its line, from 1.
    pub line: u32,
    /// The number of its fault.
    pub number: u32,
    /// The page that the fault is about, of the faults that are about one.
    pub key: Option<PageKey>,
}

/// How far a script was done, and whether its text was written.
#[derive(Clone, Copy, Debug, PartialEq, Eq)]
pub struct Raced {
    pub refused: Option<Refusal>,
    /// Whether writing failed, behind which nothing more was written.
    pub write_fault: bool,
}
