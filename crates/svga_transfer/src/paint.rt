//! Blits to screens.
ghost use Rattle.std.specs.FinMap as map;
ghost use Rattle.std.specs.Prelude.{◌≡◌, ℕ, ◌*◌, ◌<◌, ◌≤◌, ◌^◌, All, IfNone, IfSome, IsSomeAnd, None, Some, length, take, unsigned_abs};
ghost use Rattle.svga_cmd.specs.declared.gmrfb.Gmrfb.{Gmrfb as GmrfbValue};
ghost use Rattle.svga_cmd.specs.declared.screen.ScreenDef.{ScreenDef as ScreenDefValue};
ghost use Rattle.svga_model.specs.BlitEffects.{blit_colour, repainted_screens};
ghost use Rattle.svga_model.specs.BlitPixels.{blit_offset, corner_x, corner_y, is_meant as means};
ghost use Rattle.svga_model.specs.Colours.{pixel_length as bytes_per_pixel};
ghost use Rattle.svga_model.specs.Screens.{AreScreens, IsDefinition, IsOnScreen, definitions_of, painted};
ghost use Rattle.svga_region.specs.RegionSet.{places_in};
ghost use Rattle.svga_transfer.specs.Areas.{ArePainted, IsPainted};
ghost use Rattle.svga_transfer.specs.Painting.{IsRepainted, colours_from};
ghost use Rattle.svga_transfer.specs.Reach.{AreMapped, HasBytes, HasPages, byte_in, blit_colour_in};

use crate::bytes::bytes_together;
use crate::meant::{corner_of, is_meant};
use crate::pixel_row::PixelRow;
use crate::room::RowRoom;
use crate::start::first_byte;
use arrayvec::ArrayVec;
use svga_cmd::constants::MAX_SCREEN_SIDE;
use svga_cmd::{Blit, Gmrfb, PageStore, ScreenDef};
use svga_pixel::{pixel_length, row_facts};
use svga_region::Regions;
use svga_screen::{Area, Screens, clip, place};

/// Shows on each screen that is meant what the GMRFB has there, and names the areas that it paints.
pub fn blit_to_screens<P: PageStore>(
    regions: &Regions,
    screens: &mut Screens,
    store: &P,
    gmrfb: &Gmrfb,
    blit: &Blit,
    room: &mut RowRoom,
) -> ArrayVec<Area, 16>
    requires mapped { AreMapped (definitions_of screens.old.screens) gmrfb.now blit.now
        (places_in regions.now gmrfb.now.region) }
    requires there { HasPages (P.pages store.now) (places_in regions.now gmrfb.now.region) }
    ensures painted { screens.new ≡ record screens.old {
      screens = repainted_screens (blit_colour_in (P.pages store.now) regions.now gmrfb.now blit.now)
          screens.old.screens;
    } }
    ensures areas { ArePainted (blit_colour_in (P.pages store.now) regions.now gmrfb.now blit.now)
        (definitions_of screens.old.screens) result.items }
{
    let mut areas = ArrayVec::new();
    for id in 0..16 {
        if let Some(area) = paint_screen(regions, screens, store, gmrfb, blit, id, room) {
            areas.push(area);
        }
    }
    areas
}

/// Shows on one screen what the GMRFB has there, and names the area that it paints, if there is one.
fn paint_screen<P: PageStore>(
    regions: &Regions,
    screens: &mut Screens,
    store: &P,
    gmrfb: &Gmrfb,
    blit: &Blit,
    id: u32,
    room: &mut RowRoom,
) -> Option<Area>
    requires mapped { AreMapped (definitions_of screens.old.screens) gmrfb.now blit.now
        (places_in regions.now gmrfb.now.region) }
    requires there { HasPages (P.pages store.now) (places_in regions.now gmrfb.now.region) }
    ensures painted { IsRepainted (blit_colour_in (P.pages store.now) regions.now gmrfb.now blit.now id) id
        screens.old screens.new }
    ensures some { IfSome result (λ area. (area.screen ≡ id)
        × IsSomeAnd (definitions_of screens.old.screens id)
        (λ d. IsPainted (blit_colour_in (P.pages store.now) regions.now gmrfb.now blit.now id d) d area)) }
    ensures none { IfNone result ((d : ScreenDefValue) (x y : ℕ) → definitions_of screens.old.screens id
        ≡ Some d → x < d.width → y < d.height → blit_colour_in
        (P.pages store.now) regions.now gmrfb.now blit.now id d x y ≡ None) }
    // No screen has a higher id.
    ensures ids { (q : ℕ) → 16 ≤ q → map.get screens.old.screens q ≡ None }
{
    let def = *screens.def(id)?;
    let area = painted_area(blit, id, &def)?;
    paint_rows(regions, screens, store, gmrfb, blit, &def, area, room);
    Some(area)
}

/// The part of a screen that the blit paints, if there is one.
fn painted_area(blit: &Blit, id: u32, def: &ScreenDef) -> Option<Area>
    requires { IsDefinition id def.now }
    ensures some { (bytes : ℕ → ℕ) (g : GmrfbValue)
        → IfSome result (λ area. (area.screen ≡ id)
        × IsPainted (blit_colour bytes g blit.now id def.now) def.now area) }
    ensures none { (bytes : ℕ → ℕ) (g : GmrfbValue)
        → IfNone result ((x y : ℕ) → x < def.now.width → y < def.now.height
        → blit_colour bytes g blit.now id def.now x y ≡ None) }
{
    if !is_meant(blit, id) {
        return None;
    }
    let corner = corner_of(blit, def);
    let area = clip(blit.rect, corner.x, corner.y, def.width, def.height);
    if area.width == 0 {
        return None;
    }
    Some(Area { screen: id, ..area })
}

/// Paints the area of a screen, row by row.
fn paint_rows<P: PageStore>(
    regions: &Regions,
    screens: &mut Screens,
    store: &P,
    gmrfb: &Gmrfb,
    blit: &Blit,
    def: &ScreenDef,
    area: Area,
    room: &mut RowRoom,
)
    requires valid { AreScreens screens.old.budget screens.old.screens }
    requires definition { IsDefinition area.screen def.now }
    requires defined { definitions_of screens.old.screens area.screen ≡ Some def.now }
    requires area { IsPainted (blit_colour_in (P.pages store.now) regions.now gmrfb.now blit.now area.screen
        def.now) def.now area }
    requires mapped { AreMapped (definitions_of screens.old.screens) gmrfb.now blit.now
        (places_in regions.now gmrfb.now.region) }
    requires there { HasPages (P.pages store.now) (places_in regions.now gmrfb.now.region) }
    ensures { IsRepainted (blit_colour_in (P.pages store.now) regions.now gmrfb.now blit.now area.screen)
        area.screen screens.old screens.new }
{
    let corner = corner_of(blit, def);
    let left = place(corner.x, area.left);
    for row in area.top..area.top + area.height {
        let from = first_byte(regions, gmrfb, blit, left, place(corner.y, row));
        paint_row(regions, screens, store, gmrfb, from, area, row, room);
    }
}

/// Paints one row of the area with the pixels that begin at byte `from` of the GMRFB's region.
fn paint_row<P: PageStore>(
    regions: &Regions,
    screens: &mut Screens,
    store: &P,
    gmrfb: &Gmrfb,
    from: u64,
    area: Area,
    row: u32,
    room: &mut RowRoom,
)
    requires short { area.width ≤ MAX_SCREEN_SIDE }
    requires on_screen { IsOnScreen (definitions_of screens.old.screens area.screen)
        area.left row area.width }
    requires there { HasBytes (P.pages store.now) (places_in regions.now gmrfb.now.region) from
        (area.width * bytes_per_pixel gmrfb.now.format) }
    ensures { screens.new ≡ record screens.old {
      screens = painted screens.old.screens area.screen area.left
          row (colours_from (byte_in (P.pages store.now) regions.now gmrfb.now.region) gmrfb.now.format from
          area.width);
    } }
{
    let width = area.width as usize;
    let count = width * pixel_length(gmrfb.format);
    let bytes = bytes_together(regions, store, gmrfb.region, from, count, &mut room.bytes);
    row_facts(gmrfb.format, bytes, width);
    let pixels = PixelRow {
        format: gmrfb.format,
        count: width,
        bytes,
    };
    screens.fill(area.screen, area.left, row, width, &pixels);
}
