//! Screen definitions.

/// A screen's backing store. It is read and kept, and nothing uses it.
#[derive(Clone, Copy, Debug, PartialEq, Eq)]
pub struct Backing {
    pub region: u32,
    pub offset: u32,
    pub pitch: u32,
    pub clones: u32,
}

/// A screen of `width` by `height` pixels whose left top corner is at (`x`, `y`) of the virtual coordinates.
#[derive(Clone, Copy, Debug, PartialEq, Eq)]
pub struct ScreenDef {
    pub id: u32,
    pub flags: u32,
    pub width: u32,
    pub height: u32,
    pub x: i32,
    pub y: i32,
    pub backing: Option<Backing>,
}
