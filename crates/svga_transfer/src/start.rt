//! Where the bytes of a blit's pixel begin that the GMRFB's region has.
ghost use Rattle.std.specs.Prelude.{◌≡◌, ◌≤◌, ◌^◌, false, pos, unsigned_abs};
ghost use Rattle.svga_model.specs.BlitFaults.{is_outside};
ghost use Rattle.svga_model.specs.BlitPixels.{blit_offset};
ghost use Rattle.svga_region.specs.RegionSet.{places_in};

use svga_cmd::{Blit, Gmrfb};
use svga_pixel::pixel_start;
use svga_region::Regions;

/// Where the bytes of the pixel for a place begin, which the region has.
pub(crate) fn first_byte(regions: &Regions, gmrfb: &Gmrfb, blit: &Blit, x: i64, y: i64) -> u64
    requires x { unsigned_abs x ≤ 2 ^ 32 }
    requires y { unsigned_abs y ≤ 2 ^ 32 }
    requires within { is_outside (places_in regions.now gmrfb.now.region) (blit_offset gmrfb.now blit.now x y)
        ≡ false }
    ensures { pos result ≡ blit_offset gmrfb.now blit.now x y }
{
    // Asked so that the proof knows that a region's length fits 32 bits, and so its bytes' numbers 64.
    let _places = regions.length(gmrfb.region);
    pixel_start(gmrfb, blit, x, y) as u64
}
