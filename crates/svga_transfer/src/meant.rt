//! Which screens a blit means, and where they lie in its coordinates.
ghost use Rattle.std.specs.Prelude.{◌≡◌};
ghost use Rattle.svga_model.specs.BlitPixels.{corner_x, corner_y, is_meant as means};

use svga_cmd::{Blit, Point, ScreenDef};

/// In place of a screen's id: virtual coordinates, and all screens.
pub(crate) const SVGA_ID_INVALID: u32 = 0xFFFF_FFFF;

/// Whether the blit means the screen with this id.
pub(crate) fn is_meant(blit: &Blit, id: u32) -> bool
    ensures { result ≡ means blit.now.screen id }
{
    blit.screen == SVGA_ID_INVALID || blit.screen == id
}

/// Where a screen's left top corner is in the blit's coordinates.
pub(crate) fn corner_of(blit: &Blit, def: &ScreenDef) -> Point
    ensures x { result.x ≡ corner_x blit.now.screen def.now }
    ensures y { result.y ≡ corner_y blit.now.screen def.now }
{
    if blit.screen == SVGA_ID_INVALID {
        Point { x: def.x, y: def.y }
    } else {
        Point { x: 0, y: 0 }
    }
}
