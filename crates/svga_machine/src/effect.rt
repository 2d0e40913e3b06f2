//! What a command that ran shows.
use arrayvec::ArrayVec;
use svga_screen::Area;

/// What whoever shows the screens or signals fences has to do after a command.
#[derive(Debug, Drop)]
pub enum Effect {
    /// Nothing that can be seen.
    Nothing,
    /// The fence is this number now.
    Fence(u32),
    /// The screen with this id is defined anew, and black.
    Shown(u32),
    /// The screen with this id is gone.
    Hidden(u32),
    /// These areas of screens were painted: one for each screen with a pixel that was, by ascending id.
    Painted(ArrayVec<Area, 16>),
}
