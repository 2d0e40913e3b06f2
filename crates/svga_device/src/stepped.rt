//! What a step of a device comes to.

/// What `step` has done.
#[derive(Clone, Copy, Debug, PartialEq, Eq)]
pub enum Stepped {
    /// One command was read whole, and served.
    Ran,
    /// One request was done, and replied to.
    Answered,
    /// No command is whole; the driver runs, and NEXT_CMD was loaded as `next`.
    Idle { next: u32 },
    /// The driver has stopped, and all that it sent is taken.
    Stopped,
}
