//! The bytes of a blit's pixels, row by row: along a row they are one span.
ghost use Rattle.std.specs.Prelude.{◌≡◌, ◌+◌, ◌*◌, ◌<◌, ◌≤◌, ◌^◌, pos, ◌+ℤ◌, ◌-ℤ◌, ◌*ℤ◌, unsigned_abs, IsSome, Some};
ghost use Rattle.std.specs.FinMap as map;
ghost use Rattle.std.specs.List.{list_any, range_with_len};
ghost use Rattle.svga_model.specs.BlitFaults.{some_byte};
ghost use Rattle.svga_model.specs.BlitPixels.{blit_offset};
ghost use Rattle.svga_model.specs.Colours.{pixel_length as bytes_per_pixel};
ghost use Rattle.svga_model.specs.Screens.{IsDefinition};
ghost use Rattle.svga_region.specs.RegionSet.{list_of, places_in};
ghost use Rattle.svga_shape.specs.Spans.{area_passes, breaks, screen_passes, some_in_span};

use crate::span::{ByteRule, span_breaks};
use svga_cmd::constants::{MAX_SCREEN_SIDE, SVGA_ID_INVALID};
use svga_cmd::{Blit, Gmrfb, ScreenDef};
use svga_pixel::{pixel_length, pixel_start};
use svga_region::Regions;
use svga_screen::{Area, Definitions, clip, place};

/// Whether a byte of a pixel of the blit breaks the rule. It takes time in the rows of the blit and the
/// places that they touch, not in its pixels.
pub(crate) fn blit_breaks(
    regions: &Regions,
    screens: &Definitions,
    gmrfb: &Gmrfb,
    blit: &Blit,
    rule: ByteRule,
) -> bool
    requires defined { IsSome (list_of regions.now gmrfb.now.region) }
    ensures { result ≡ some_byte (map.get screens.now.screens) gmrfb.now blit.now
        (breaks rule (places_in regions.now gmrfb.now.region)) }
{
    screens_break(regions, screens, gmrfb, blit, rule)
}

/// The same, told screen by screen.
fn screens_break(
    regions: &Regions,
    screens: &Definitions,
    gmrfb: &Gmrfb,
    blit: &Blit,
    rule: ByteRule,
) -> bool
    requires defined { IsSome (list_of regions.now gmrfb.now.region) }
    ensures { result ≡ list_any (λ id. screen_passes
        (breaks rule (places_in regions.now gmrfb.now.region)) gmrfb.now blit.now id
        (map.get screens.now.screens id)) (range_with_len 0 16) }
{
    (0..16).any(|id| match screens.def(id) {
        None => false,
        Some(def) => screen_breaks(regions, gmrfb, blit, id, def, rule),
    })
}

/// Whether a byte of the blit's pixels on this screen breaks the rule.
fn screen_breaks(
    regions: &Regions,
    gmrfb: &Gmrfb,
    blit: &Blit,
    id: u32,
    def: &ScreenDef,
    rule: ByteRule,
) -> bool
    requires defined { IsSome (list_of regions.now gmrfb.now.region) }
    requires definition { IsDefinition id def.now }
    ensures { result ≡ screen_passes (breaks rule (places_in regions.now gmrfb.now.region)) gmrfb.now blit.now
        id (Some def.now) }
{
    if blit.screen == SVGA_ID_INVALID {
        area_breaks(regions, gmrfb, blit, def, def.x, def.y, rule)
    } else if blit.screen == id {
        area_breaks(regions, gmrfb, blit, def, 0, 0, rule)
    } else {
        false
    }
}

/// Whether a byte of the blit's pixels on a screen breaks the rule, where the screen's corner is at (`x`,
/// `y`).
fn area_breaks(
    regions: &Regions,
    gmrfb: &Gmrfb,
    blit: &Blit,
    def: &ScreenDef,
    x: i32,
    y: i32,
    rule: ByteRule,
) -> bool
    requires defined { IsSome (list_of regions.now gmrfb.now.region) }
    requires width { def.now.width ≤ MAX_SCREEN_SIDE }
    requires height { def.now.height ≤ MAX_SCREEN_SIDE }
    ensures { result ≡ area_passes (breaks rule (places_in regions.now gmrfb.now.region)) gmrfb.now blit.now x
        y def.now.width def.now.height }
{
    let area = clip(blit.rect, x, y, def.width, def.height);
    let left = place(x, area.left);
    rows_break(regions, gmrfb, blit, left, y, area, rule)
}

/// The same for the rows of an area, of which each begins at the place `left`: the bytes of its pixels are
/// one span.
fn rows_break(
    regions: &Regions,
    gmrfb: &Gmrfb,
    blit: &Blit,
    left: i64,
    y: i32,
    area: Area,
    rule: ByteRule,
) -> bool
    requires defined { IsSome (list_of regions.now gmrfb.now.region) }
    requires left { unsigned_abs left ≤ 2 ^ 32 }
    requires width { area.width ≤ MAX_SCREEN_SIDE }
    requires height { area.top + area.height ≤ MAX_SCREEN_SIDE }
    ensures { result ≡ list_any (λ v. some_in_span (breaks rule (places_in regions.now gmrfb.now.region))
        (blit_offset gmrfb.now blit.now left (y +ℤ pos v)) (area.width * bytes_per_pixel gmrfb.now.format))
        (range_with_len area.top area.height) }
{
    let count = u64::from(area.width) * pixel_length(gmrfb.format) as u64;
    (area.top..area.top + area.height).any(|row| {
        let from = pixel_start(gmrfb, blit, left, place(y, row));
        span_breaks(regions, gmrfb.region, rule, from, count)
    })
}
