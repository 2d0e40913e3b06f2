//! How words end, and how a replay of them does.
use crate::cause::Cause;
use crate::fault::Fault;

/// How words end.
#[derive(Clone, Copy, Debug, PartialEq, Eq)]
pub enum Ending {
    /// With a whole command, or there are none.
    Whole,
    /// At word number `word`, from 0, with which no list of commands goes on.
    Refused { word: u32, cause: Cause },
    /// Inside a command. There were `word` words.
    Torn { word: u32 },
}

/// How a replay ended.
#[derive(Clone, Copy, Debug, PartialEq, Eq)]
pub enum ReplayEnd {
    /// All words are whole commands, and all of them were run.
    Whole,
    /// At word number `word`, counted from STOP, with which no list of commands goes on.
    Refused { word: u32, cause: Cause },
    /// Inside a command. There were `word` words.
    Torn { word: u32 },
    /// At command number `command`, counted from 0, which has this fault.
    Fault { command: u32, fault: Fault },
}
