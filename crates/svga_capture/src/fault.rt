//! What is wrong with bytes that are no capture.
use svga_cmd::CaptureCause;
use thiserror::Error;

/// Why no capture was had of bytes.
#[derive(Clone, Copy, Debug, PartialEq, Eq, Error)]
pub enum CaptureFault {
    /// They are no capture. The byte is the first of the first field that is wrong; where the bytes are too
    /// few, their number; where they are too many, the first that follows.
    #[error("no capture: byte {place}")]
    Byte { place: u32, cause: CaptureCause },
    /// They are a capture, and no memory was had for it. A capture that borrows its bytes needs none.
    #[error("out of memory")]
    Memory,
}

/// Where a field is wrong, and why.
pub(crate) type Wrong = (u32, CaptureCause);
