//! What a head answers where it doesn't do what it was told.

/// `Failed` is a fault of the output, `Memory` that it was refused memory.
#[derive(Clone, Copy, Debug, PartialEq, Eq)]
pub enum HeadFault {
    Failed,
    Memory,
}
