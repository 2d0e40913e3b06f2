//! The limits of one device.
ghost use Rattle.std.specs.Prelude.{◌≡◌, ◌↔◌, IsTrue};
ghost use Rattle.svga_cmd.specs.Limits.{AreLimits, IsBetween, frame_page_count};

use crate::constants::{
    MAX_FRAME_HEIGHT, MAX_FRAME_WIDTH, MAX_GUEST_PAGES, MAX_PIXEL_BUDGET, PAGE_SIZE,
};

/// How large a device is: its pages of guest memory, the guest framebuffer's sides, and how many pixels all
/// screens together may have.
#[derive(Clone, Copy, Debug, PartialEq, Eq)]
pub struct Limits {
    pub pages: u32,
    pub gfb_width: u32,
    pub gfb_height: u32,
    pub budget: u32,
}

impl Limits {
    /// How many pages the guest framebuffer takes, at 4 bytes a pixel.
    pub fn frame_pages(&self) -> u32
        requires { AreLimits self.now }
        ensures { result ≡ frame_page_count self.now }
    {
        (4 * self.gfb_width * self.gfb_height).div_ceil(PAGE_SIZE as u32)
    }

    /// Whether a device may be so large.
    pub(crate) fn are_allowed(&self) -> bool
        ensures { IsTrue result ↔ AreLimits self.now }
    {
        is_between(1, MAX_GUEST_PAGES, self.pages)
            && is_between(1, MAX_FRAME_WIDTH, self.gfb_width)
            && is_between(1, MAX_FRAME_HEIGHT, self.gfb_height)
            && is_between(1, MAX_PIXEL_BUDGET, self.budget)
    }
}

/// Whether a number is from `low` to `high`, both included.
pub(crate) fn is_between(low: u32, high: u32, number: u32) -> bool
    ensures { IsTrue result ↔ IsBetween low high number }
{
    low <= number && number <= high
}
