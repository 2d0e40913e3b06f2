//! Areas of screens.

/// A part of a screen, counted from the screen's left top corner.
#[derive(Clone, Copy, Debug, Default, PartialEq, Eq)]
pub struct Area {
    pub screen: u32,
    pub left: u32,
    pub top: u32,
    pub width: u32,
    pub height: u32,
}
