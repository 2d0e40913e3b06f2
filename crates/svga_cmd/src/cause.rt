//! Why a word of the FIFO is refused.

/// Why a word is refused.
#[derive(Clone, Copy, Debug, PartialEq, Eq)]
pub enum Cause {
    /// The id of a command that is known and not taken.
    Unsupported,
    /// An id of the 3D commands, 1000 to 2999.
    ThreeD,
    /// The id of ESCAPE.
    Escape,
    /// Any other id.
    Unknown,
    /// The size of a screen's structure is neither 28 nor 44 bytes.
    BadSize,
    /// The flag word of a remap is none of 0, 1, 2, 3, 4 and 6.
    BadFlags,
    /// The format of a GMRFB is none of the four.
    BadFormat,
    /// A remap has more than 65,536 pages.
    TooManyPages,
}
