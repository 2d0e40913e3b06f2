//! The guest memory region framebuffer, and pointers into regions.
use crate::format::Format;

/// A byte of a region.
#[derive(Clone, Copy, Debug, PartialEq, Eq)]
pub struct GuestPtr {
    pub region: u32,
    pub offset: u32,
}

/// The framebuffer in guest memory that blits read and write: its first pixel is at byte `offset` of
/// `region`, and a row begins `pitch` bytes behind the one above it.
#[derive(Clone, Copy, Debug, PartialEq, Eq)]
pub struct Gmrfb {
    pub region: u32,
    pub offset: u32,
    pub pitch: u32,
    pub format: Format,
}
