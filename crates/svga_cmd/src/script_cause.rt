//! Why bytes are no script.

/// The first thing that is wrong with a script.
#[derive(Clone, Copy, Debug, PartialEq, Eq)]
pub enum ScriptCause {
    /// A number or a list goes past its limit, or there is a line too many.
    Limit,
    /// A byte is no character from a space to `~`.
    Character,
    /// A space stands at the front, at the end, or behind another one.
    Space,
    /// The session's line isn't the first one, or isn't there, or stands a second time.
    Session,
    /// A word isn't one of those that may stand there.
    Word,
    /// A word isn't a number of the kind that has to stand there.
    Number,
    /// The line ends before its last word.
    Missing,
    /// A word follows the line's last one.
    Extra,
}
