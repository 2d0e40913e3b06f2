//! The pages of a region that a command touches: the first of them that isn't lent, and what is noted of
//! them.
ghost use Rattle.std.specs.FinSet.{FinSet};
ghost use Rattle.std.specs.Prelude.{◌≡◌, length, None};
ghost use Rattle.svga_cmd.specs.Pages.{key_cmp};
ghost use Rattle.svga_driver.specs.LendingSet.{AreLent, all_touched, places_for};
ghost use Rattle.svga_model.specs.Clients.{first_out as first_page_out};
ghost use Rattle.svga_region.specs.RegionSet.{places_in};
ghost use Rattle.svga_shape.specs.Admission.{region_of};

use crate::lending::Lendings;
use svga_cmd::PageKey;
use svga_region::Regions;
use svga_shape::Touch;

// How many places a region has, none where it isn't defined.
fn place_count(regions: &Regions, id: u32) -> u32
    ensures { result ≡ length (places_in regions.now id) }
{
    regions.length(id).unwrap_or(0)
}

/// The page of the first place of a region whose page isn't lent.
pub(crate) fn first_out(lendings: &Lendings, regions: &Regions, id: u32) -> Option<PageKey>
    ensures { (lent : FinSet key_cmp) → AreLent lent lendings.now
        → result ≡ first_page_out lent (places_in regions.now id) }
{
    for k in 0..place_count(regions, id) {
        if let Some(key) = regions.place(id, k) {
            if lendings.at(key).is_none() {
                return Some(key);
            }
        }
    }
    None
}

// A command touches all pages of a region, which are lent. With the first fence behind it there are so many.
fn touch_all(lendings: &mut Lendings, regions: &Regions, id: u32, command: u64, fences: u64)
    requires { (lent : FinSet key_cmp) × AreLent lent lendings.old
        × (first_page_out lent (places_in regions.now id) ≡ None) }
    ensures { lendings.new ≡ all_touched (places_in regions.now id) command fences lendings.old }
{
    for k in 0..place_count(regions, id) {
        match regions.place(id, k) {
            Some(key) => lendings.touch(key, command, fences),
            None => {}
        }
    }
}

/// A command touches these pages, which are lent. With the first fence behind it there are so many.
pub(crate) fn note_touch(
    lendings: &mut Lendings,
    regions: &Regions,
    touch: Touch,
    command: u64,
    fences: u64,
)
    requires { (lent : FinSet key_cmp) × AreLent lent lendings.old
        × (first_page_out lent (places_for regions.now (region_of touch)) ≡ None) }
    ensures { lendings.new
        ≡ all_touched (places_for regions.now (region_of touch)) command fences lendings.old }
{
    match touch {
        Touch::Nothing => {}
        Touch::Region(id) => touch_all(lendings, regions, id, command, fences),
    }
}
