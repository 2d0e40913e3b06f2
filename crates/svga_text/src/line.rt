//! The lines of a text that aren't a command's.
use svga_cmd::PageKey;

/// A line, with what stands in it.
#[derive(Clone, Copy, Debug)]
pub enum Line {
    /// The last fence.
    Fence {
        value: u32,
    },
    /// A word, counted from 0, that no sentence has there.
    RefusedWord {
        word: u32,
        cause: &'static str,
    },
    /// An end inside a command, or bytes that are no whole word, behind so many words.
    TornWord {
        word: u32,
    },
    /// How many commands were run whole.
    Commands {
        count: u32,
    },
    /// The command, counted from 0, that has a fault, with the fault's number and name.
    FaultAt {
        command: u32,
        number: u32,
        name: &'static str,
    },
    /// All was run.
    End,
    /// The byte at which an input is no capture.
    CaptureByte {
        place: u32,
        cause: &'static str,
    },
    /// The line of a script whose act is refused, with the fault's number and name, and the page that is told
    /// with it.
    RefusedLine {
        line: u32,
        number: u32,
        name: &'static str,
        key: Option<PageKey>,
    },
    /// The line and the column at which bytes are no script.
    ScriptLine {
        line: u32,
        column: u32,
        cause: &'static str,
    },
}
