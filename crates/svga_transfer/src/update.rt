//! UPDATE: the screens show what the guest framebuffer has.
ghost use Rattle.std.specs.Prelude.{◌≡◌, ◌^◌, ◌<◌, pos};
ghost use Rattle.svga_cmd.specs.Limits.{AreLimits, frame_page_count};
ghost use Rattle.svga_model.specs.BlitEffects.{repainted_screens, update_colour};
ghost use Rattle.svga_model.specs.Memories.{region_byte};
ghost use Rattle.svga_model.specs.Regions.{frame_places};
ghost use Rattle.svga_model.specs.Screens.{definitions_of};
ghost use Rattle.svga_transfer.specs.Areas.{ArePainted};
ghost use Rattle.svga_transfer.specs.Reach.{HasPages};
ghost use Rattle.svga_transfer.specs.Updates.{frame_gmrfb, up_to as up_to_number, update_blit};

use crate::meant::SVGA_ID_INVALID;
use crate::paint::blit_to_screens;
use crate::room::RowRoom;
use arrayvec::ArrayVec;
use svga_cmd::{Blit, Format, Gmrfb, Limits, PageStore, Point, Rect};
use svga_region::Regions;
use svga_screen::{Area, Screens};

/// The region of the guest framebuffer's pages.
const GMR_FRAMEBUFFER: u32 = 0xFFFF_FFFE;

/// A rectangle of virtual coordinates as UPDATE has it: no side is negative.
#[derive(Clone, Copy, Debug, PartialEq, Eq)]
pub struct Extent {
    pub x: u32,
    pub y: u32,
    pub width: u32,
    pub height: u32,
}

/// Shows on the screens what the guest framebuffer has in this part of virtual coordinates, and names the
/// areas that it paints. What lies past the framebuffer's edges stays.
pub fn update_screens<P: PageStore>(
    limits: Limits,
    regions: &Regions,
    screens: &mut Screens,
    store: &P,
    extent: Extent,
    room: &mut RowRoom,
) -> ArrayVec<Area, 16>
    requires limits { AreLimits limits }
    requires frame { regions.now.frame ≡ frame_page_count limits }
    requires there { HasPages (P.pages store.now) (frame_places regions.now.frame) }
    ensures painted { screens.new ≡ record screens.old {
      screens = repainted_screens (λ id. update_colour
          (region_byte (P.pages store.now) (frame_places regions.now.frame)) limits extent.x extent.y
          extent.width extent.height) screens.old.screens;
    } }
    ensures areas { ArePainted (λ id. update_colour
        (region_byte (P.pages store.now) (frame_places regions.now.frame)) limits extent.x extent.y
        extent.width extent.height) (definitions_of screens.old.screens) result.items }
{
    let gmrfb = frame_as_gmrfb(limits);
    let blit = update_as_blit(limits, extent);
    blit_to_screens(regions, screens, store, &gmrfb, &blit, room)
}

/// The guest framebuffer as a GMRFB.
fn frame_as_gmrfb(limits: Limits) -> Gmrfb
    requires { AreLimits limits }
    ensures { result ≡ frame_gmrfb limits }
{
    Gmrfb {
        region: GMR_FRAMEBUFFER,
        offset: 0,
        pitch: 4 * limits.gfb_width,
        format: Format::Bgrx32,
    }
}

/// The part of the rectangle on the guest framebuffer as a blit to all screens.
fn update_as_blit(limits: Limits, extent: Extent) -> Blit
    requires { AreLimits limits }
    ensures { result ≡ update_blit limits extent.x extent.y extent.width extent.height }
{
    let left = up_to(limits.gfb_width, u64::from(extent.x));
    let top = up_to(limits.gfb_height, u64::from(extent.y));
    let right = up_to(
        limits.gfb_width,
        u64::from(extent.x) + u64::from(extent.width),
    );
    let bottom = up_to(
        limits.gfb_height,
        u64::from(extent.y) + u64::from(extent.height),
    );
    Blit {
        point: Point { x: left, y: top },
        rect: Rect {
            left,
            top,
            right,
            bottom,
        },
        screen: SVGA_ID_INVALID,
    }
}

/// The number, or the end where it lies past it.
fn up_to(end: u32, n: u64) -> i32
    requires { end < 2 ^ 31 }
    ensures { result ≡ pos (up_to_number end n) }
{
    n.min(u64::from(end)) as i32
}
