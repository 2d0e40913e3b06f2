//! What a command may touch.

/// The pages that a command may read or write: none, or those of the region with this id.
#[derive(Clone, Copy, Debug, PartialEq, Eq)]
pub enum Touch {
    Nothing,
    Region(u32),
}
