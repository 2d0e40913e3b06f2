//! Points, rectangles and the blits that they describe.

/// A point, in pixels.
#[derive(Clone, Copy, Debug, PartialEq, Eq)]
pub struct Point {
    pub x: i32,
    pub y: i32,
}

/// The pixels from `left` up to below `right`, and from `top` up to below `bottom`.
#[derive(Clone, Copy, Debug, PartialEq, Eq)]
pub struct Rect {
    pub left: i32,
    pub top: i32,
    pub right: i32,
    pub bottom: i32,
}

/// A copy between the GMRFB and a screen, in one of the two directions.
///
/// `point` is the GMRFB pixel that goes with the left top corner of `rect`. `rect` is in the coordinates of
/// `screen`, or in virtual ones where `screen` is `SVGA_ID_INVALID`.
#[derive(Clone, Copy, Debug, PartialEq, Eq)]
pub struct Blit {
    pub point: Point,
    pub rect: Rect,
    pub screen: u32,
}
