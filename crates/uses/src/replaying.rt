//! A caller of captures.
ghost use Rattle.std.specs.Prelude.{◌≤◌, IfOk, length};
ghost use Rattle.uses.specs.Fences.{IsFenceOf};

use std::alloc::{AllocError, Global};
use svga_capture::{CaptureFault, read_capture, replay};
use svga_cmd::constants::MAX_INPUT_BYTES;

/// The fence that the replay of a capture leaves, or none where the bytes are no capture.
pub fn fence_left(alloc: Global, bytes: &[u8]) -> Result<Option<u32>, AllocError>
    requires { length bytes.now ≤ MAX_INPUT_BYTES }
    ensures { IfOk result (IsFenceOf bytes.now) }
{
    match read_capture(bytes) {
        Ok(capture) => Ok(Some(replay(alloc, &capture)?.fence)),
        Err(CaptureFault::Byte { .. }) => Ok(None),
        Err(CaptureFault::Memory) => Err(AllocError),
    }
}
