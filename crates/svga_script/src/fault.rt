//! Why bytes are no script.
use svga_cmd::ScriptCause;
use thiserror::Error;

/// Why no script was had of bytes.
#[derive(Clone, Copy, Debug, PartialEq, Eq, Error)]
pub enum ScriptFault {
    /// They are no script: the line of the first cause, and the column in it, both counted from 1. The column
    /// counts bytes.
    #[error("no script: line {number}, column {column}")]
    Line {
        number: u32,
        column: u32,
        cause: ScriptCause,
    },
    /// They are a script, and no memory was had for it.
    #[error("out of memory")]
    Memory,
}

/// What is wrong in a line.
#[derive(Clone, Copy)]
pub(crate) struct LineFault {
    pub(crate) column: u32,
    pub(crate) cause: ScriptCause,
}
