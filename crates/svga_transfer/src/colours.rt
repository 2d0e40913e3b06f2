//! Colours that are written to a region as pixels.
ghost use Rattle.std.specs.Prelude.{◌≡◌, ◌+◌, ◌*◌, ◌%◌, ◌<◌, ◌≤◌, All, length};
ghost use Rattle.svga_model.specs.Colours.{pixel_length as bytes_per_pixel, row_bytes};
ghost use Rattle.svga_model.specs.Memories.{writes_from, written};
ghost use Rattle.svga_region.specs.RegionSet.{places_in};
ghost use Rattle.svga_transfer.specs.Reach.{HasBytes};

use crate::bytes::{is_on_one_page, locate, write_bytes};
use svga_cmd::constants::{COLOURS, PAGE_SIZE};
use svga_cmd::{Gmrfb, PageStore};
use svga_pixel::{pixel_length, write_row};
use svga_region::Regions;

/// Writes the pixels of these colours one behind another to the GMRFB's region from byte `from` on: where
/// they lie, if that is on one page, and else by way of the room.
pub(crate) fn write_colours<P: PageStore>(
    regions: &Regions,
    store: &mut P,
    gmrfb: &Gmrfb,
    from: u64,
    colours: &[u32],
    room: &mut [u8],
)
    requires in_range { All (λ c. c < COLOURS) colours.now }
    requires room { length colours.now * bytes_per_pixel gmrfb.now.format ≤ length room.old }
    requires there { HasBytes (P.pages store.old) (places_in regions.now gmrfb.now.region) from
        (length colours.now * bytes_per_pixel gmrfb.now.format) }
    ensures written { P.pages store.new ≡ written (places_in regions.now gmrfb.now.region) (P.pages store.old)
        (writes_from from (row_bytes gmrfb.now.format colours.now)) }
    ensures rest { P.rest store.new ≡ P.rest store.old }
{
    let count = colours.len() * pixel_length(gmrfb.format);
    if is_on_one_page(from, count) {
        write_there(regions, store, gmrfb, from, colours, count);
    } else {
        let bytes = &mut room[..count];
        write_row(gmrfb.format, colours, bytes);
        write_bytes(regions, store, gmrfb.region, from, bytes);
    }
}

/// Writes the pixels of these colours where they lie, which is on one page.
fn write_there<P: PageStore>(
    regions: &Regions,
    store: &mut P,
    gmrfb: &Gmrfb,
    from: u64,
    colours: &[u32],
    count: usize,
)
    requires in_range { All (λ c. c < COLOURS) colours.now }
    requires count { count ≡ length colours.now * bytes_per_pixel gmrfb.now.format }
    requires one_page { (0 < count) × (from % PAGE_SIZE + count ≤ PAGE_SIZE) }
    requires there { HasBytes (P.pages store.old) (places_in regions.now gmrfb.now.region) from count }
    ensures written { P.pages store.new ≡ written (places_in regions.now gmrfb.now.region) (P.pages store.old)
        (writes_from from (row_bytes gmrfb.now.format colours.now)) }
    ensures rest { P.rest store.new ≡ P.rest store.old }
{
    let (key, start) = locate(regions, gmrfb.region, from);
    let page = store.page_mut(key).bytes_mut();
    write_row(gmrfb.format, colours, &mut page[start..start + count]);
}
