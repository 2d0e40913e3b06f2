//! Blits back: from screens to a region.
ghost use Rattle.std.specs.Prelude.{◌≡◌, ◌≤◌, ◌^◌, false, pos, ◌+ℤ◌, ◌≤ℤ◌, ◌<ℤ◌, unsigned_abs};
ghost use Rattle.svga_model.specs.BlitEffects.{blit_writes};
ghost use Rattle.svga_model.specs.BlitFaults.{is_outside};
ghost use Rattle.svga_model.specs.BlitPixels.{blit_offset};
ghost use Rattle.svga_model.specs.Memories.{written};
ghost use Rattle.svga_model.specs.Screens.{definitions_of};
ghost use Rattle.svga_region.specs.RegionSet.{places_in};
ghost use Rattle.svga_transfer.specs.Backs.{writes_along};
ghost use Rattle.svga_transfer.specs.Reach.{AreMapped, HasPages};
ghost use Rattle.svga_transfer.specs.Runs.{IsRun};

use crate::colours::write_colours;
use crate::room::RowRoom;
use crate::runs::{Run, next_row, next_run};
use crate::start::first_byte;
use svga_cmd::{Blit, Gmrfb, PageStore};
use svga_region::Regions;
use svga_screen::Screens;

/// Writes to the GMRFB what the screens show, from the top down and along each row from the left. Where
/// several screens show a place, it is what the one with the least id shows.
pub fn blit_to_region<P: PageStore>(
    regions: &Regions,
    screens: &Screens,
    store: &mut P,
    gmrfb: &Gmrfb,
    blit: &Blit,
    room: &mut RowRoom,
)
    requires mapped { AreMapped (definitions_of screens.now.screens) gmrfb.now blit.now
        (places_in regions.now gmrfb.now.region) }
    requires there { HasPages (P.pages store.old) (places_in regions.now gmrfb.now.region) }
    ensures written { P.pages store.new ≡ written (places_in regions.now gmrfb.now.region) (P.pages store.old)
        (blit_writes screens.now.screens gmrfb.now blit.now) }
    ensures rest { P.rest store.new ≡ P.rest store.old }
{
    let bottom = i64::from(blit.rect.bottom);
    let mut from = i64::from(blit.rect.top);
    while from < bottom {
        let Some(y) = next_row(screens, blit, from) else {
            return;
        };
        back_row(regions, screens, store, gmrfb, blit, y, room);
        from = y + 1;
    }
}

/// Writes what the screens show of row `y` of the blit.
fn back_row<P: PageStore>(
    regions: &Regions,
    screens: &Screens,
    store: &mut P,
    gmrfb: &Gmrfb,
    blit: &Blit,
    y: i64,
    room: &mut RowRoom,
)
    requires row { (blit.now.rect.top ≤ℤ y) × (y <ℤ blit.now.rect.bottom) }
    requires near { unsigned_abs y ≤ 2 ^ 32 }
    requires mapped { AreMapped (definitions_of screens.now.screens) gmrfb.now blit.now
        (places_in regions.now gmrfb.now.region) }
    requires there { HasPages (P.pages store.old) (places_in regions.now gmrfb.now.region) }
    ensures written { P.pages store.new ≡ written (places_in regions.now gmrfb.now.region) (P.pages store.old)
        (writes_along screens.now.screens gmrfb.now blit.now y blit.now.rect.left blit.now.rect.right) }
    ensures rest { P.rest store.new ≡ P.rest store.old }
{
    let right = i64::from(blit.rect.right);
    let mut from = i64::from(blit.rect.left);
    while from < right {
        let Some(run) = next_run(screens, blit, from, y) else {
            return;
        };
        back_run(regions, screens, store, gmrfb, blit, y, run, room);
        from = run.from + i64::from(run.length);
    }
}

/// Writes the pixels of a run in row `y`: their bytes stand one behind another.
fn back_run<P: PageStore>(
    regions: &Regions,
    screens: &Screens,
    store: &mut P,
    gmrfb: &Gmrfb,
    blit: &Blit,
    y: i64,
    run: Run,
    room: &mut RowRoom,
)
    requires row { (blit.now.rect.top ≤ℤ y) × (y <ℤ blit.now.rect.bottom) }
    requires near_y { unsigned_abs y ≤ 2 ^ 32 }
    requires near_x { unsigned_abs run.from ≤ 2 ^ 32 }
    requires run { IsRun (definitions_of screens.now.screens) blit.now y run }
    requires mapped { AreMapped (definitions_of screens.now.screens) gmrfb.now blit.now
        (places_in regions.now gmrfb.now.region) }
    requires there { HasPages (P.pages store.old) (places_in regions.now gmrfb.now.region) }
    ensures written { P.pages store.new ≡ written (places_in regions.now gmrfb.now.region) (P.pages store.old)
        (writes_along screens.now.screens gmrfb.now blit.now y run.from (run.from +ℤ pos run.length)) }
    ensures rest { P.rest store.new ≡ P.rest store.old }
{
    if let Some(row) = screens.row(run.screen, run.y) {
        let count = run.length as usize;
        let first = run.x as usize;
        let from = first_byte(regions, gmrfb, blit, run.from, y);
        let colours = &row[first..first + count];
        write_colours(regions, store, gmrfb, from, colours, &mut room.bytes);
    }
}
