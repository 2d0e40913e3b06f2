//! One screen: its definition and its pixels, row behind row.
ghost use Rattle.std.specs.Option.{option_copied};
ghost use Rattle.std.specs.Prelude.{◌≡◌, ◌<◌, All, IfSome, Some, is_some, length, nat_lt, slice_get};
ghost use Rattle.svga_model.specs.Screens.{has_sides as are_sides, is_side as is_length};
ghost use Rattle.svga_screen.specs.Kept.{IsPicture, rows_from};

use svga_cmd::ScreenDef;
use svga_cmd::constants::{COLOURS, MAX_SCREEN_SIDE};

/// Whether both sides are 1 to 8,192 pixels.
pub fn has_sides(def: &ScreenDef) -> bool
    ensures { result ≡ are_sides def.now }
{
    is_side(def.width) && is_side(def.height)
}

fn is_side(length: u32) -> bool
    ensures { result ≡ is_length length }
{
    0 < length && length <= MAX_SCREEN_SIDE
}

/// Row `y` of the pixels of a screen so defined.
pub fn row_in<'a>(def: &ScreenDef, pixels: &'a [u32], y: u32) -> Option<&'a [u32]>
    requires picture { IsPicture (Some def.now) pixels.now }
    ensures row { option_copied result ≡ slice_get (rows_from def.now.width def.now.height pixels.now) y }
    ensures present { is_some result ≡ nat_lt y def.now.height }
    ensures width { IfSome result (λ row. length row.now ≡ def.now.width) }
    ensures in_range { IfSome result (λ row. All (λ c. c < COLOURS) row.now) }
{
    if y < def.height {
        let start = y as usize * def.width as usize;
        Some(&pixels[start..start + def.width as usize])
    } else {
        None
    }
}
