//! Why bytes are no capture.

/// Why a field of a capture is wrong.
#[derive(Clone, Copy, Debug, PartialEq, Eq)]
pub enum CaptureCause {
    /// The bytes don't begin with the letters SVGF.
    Magic,
    /// The version isn't 1.
    Version,
    /// A number breaks the rule of its field.
    Number,
    /// A region's id or a page's key isn't above the one before it.
    Order,
    /// The bytes end inside the field or before it.
    Short,
    /// Bytes follow the last field.
    Long,
}
