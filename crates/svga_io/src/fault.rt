//! What a source, a sink and the calls over them answer when they don't succeed.
ghost use Rattle.std.specs.Prelude.{◌≡◌};
ghost use Rattle.svga_io.specs.declared.fault.InFault.TheVariants.{Memory, ReadFault};

use std::alloc::AllocError;
use thiserror::Error;

/// One call of a source or a sink failed. It took or appended nothing, and may be made again.
#[derive(Clone, Copy, Debug, PartialEq, Eq)]
pub struct Failed;

/// A sink failed before it held all that was to be written.
#[derive(Clone, Copy, Debug, PartialEq, Eq)]
pub struct WriteFault;

impl From<Failed> for WriteFault {
    fn from(_: Failed) -> WriteFault {
        WriteFault
    }
}

/// Why no input was had. The bytes taken so far are lost.
#[derive(Clone, Copy, Debug, PartialEq, Eq, Error)]
pub enum InFault {
    #[error("the input could not be read")]
    ReadFault,
    #[error("the input is too long")]
    TooLong,
    #[error("out of memory")]
    Memory,
}

/// A source that failed is a fault of reading.
impl From<Failed> for InFault {
    ghost from_gives = { λ _ fault. fault ≡ ReadFault };

    fn from(_: Failed) -> InFault {
        InFault::ReadFault
    }
}

impl From<AllocError> for InFault {
    ghost from_gives = { λ _ fault. fault ≡ Memory };

    fn from(_: AllocError) -> InFault {
        InFault::Memory
    }
}
