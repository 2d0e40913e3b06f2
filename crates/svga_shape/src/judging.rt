//! The rules on commands that no part of a shape judges by itself.
ghost use Rattle.std.specs.Prelude.{◌≡◌, ◌≤◌, ◌++◌, ◌==◌, ◌&&◌, ◌*◌, nat_le, nat_lt, not, is_none, pos, IfOk, IsSome, Some, [], option_map, if◌then◌else◌};
ghost use Rattle.std.specs.FinMap as map;
ghost use Rattle.std.specs.Result.{result_err};
ghost use Rattle.svga_cmd.specs.Limits.{frame_page_count};
ghost use Rattle.svga_cmd.specs.declared.fault.Fault.TheVariants as fault;
ghost use Rattle.svga_cmd.specs.Lent.{entries_of};
ghost use Rattle.svga_cmd.specs.WellFormed.{HasEntries};
ghost use Rattle.svga_model.specs.BlitFaults.{blit_tests, is_negative as has_negative_side};
ghost use Rattle.svga_model.specs.Faults.{gmrfb_tests, pointed_tests};
ghost use Rattle.svga_model.specs.PointedNumbers.{pointed, pointed_by, pointer_tests};
ghost use Rattle.svga_model.specs.Regions.{named_pages, remap_tests};
ghost use Rattle.svga_model.specs.Standing.{first_standing, least_standing};
ghost use Rattle.svga_model.specs.States.{Shape};
ghost use Rattle.svga_shape.specs.Admission.{region_of};
ghost use Rattle.svga_region.specs.RegionSet.{list_of, places_in};
ghost use Rattle.svga_shape.specs.Spans.{breaks, some_in_span};

use crate::blits::blit_breaks;
use crate::lesser::lesser;
use crate::span::{ByteRule, span_breaks};
use crate::touch::Touch;
use svga_cmd::constants::{
    MAX_REGION_ID, MAX_REMAP_PAGES, MAX_SCREEN_ID, SVGA_GMR_FRAMEBUFFER, SVGA_ID_INVALID,
};
use svga_cmd::{Blit, EntriesRef, Fault, Gmrfb, GuestPtr, Rect};
use svga_region::Regions;
use svga_screen::Definitions;

/// Whether a GMRFB may lie in this region. It need not be defined.
pub(crate) fn may_name(region: u32) -> Result<(), Fault>
    ensures { result_err result ≡ first_standing (gmrfb_tests region) }
{
    if region > MAX_REGION_ID && region < SVGA_GMR_FRAMEBUFFER {
        return Err(Fault::RegionId);
    }
    Ok(())
}

/// What a blit is refused with.
pub(crate) fn may_blit(
    regions: &Regions,
    screens: &Definitions,
    gmrfb: Option<Gmrfb>,
    blit: &Blit,
) -> Result<(), Fault>
    ensures { (s : Shape) → s.regions ≡ regions.now.regions → frame_page_count s.limits ≡ regions.now.frame
        → s.gmrfb ≡ gmrfb → s.definitions ≡ map.get screens.now.screens → result_err result
        ≡ first_standing (blit_tests s blit.now) }
{
    let Some(gmrfb) = gmrfb else {
        return Err(Fault::NoGmrfb);
    };
    if regions.length(gmrfb.region).is_none() {
        return Err(Fault::NoRegion);
    }
    if lacks_screen(screens, blit.screen) {
        return Err(Fault::NoScreen);
    }
    if is_no_screen_id(blit.screen) {
        return Err(Fault::ScreenId);
    }
    if is_negative(blit.rect) {
        return Err(Fault::NegativeSide);
    }
    if blit_breaks(regions, screens, &gmrfb, blit, ByteRule::Unmapped) {
        return Err(Fault::Unmapped);
    }
    if blit_breaks(regions, screens, &gmrfb, blit, ByteRule::Beyond) {
        return Err(Fault::BeyondRegion);
    }
    Ok(())
}

/// Whether the id is a screen's and no such screen is defined.
fn lacks_screen(screens: &Definitions, id: u32) -> bool
    ensures { result ≡ (nat_le id MAX_SCREEN_ID && is_none (map.get screens.now.screens id)) }
{
    id <= MAX_SCREEN_ID && screens.def(id).is_none()
}

/// Whether the id is no screen's, and doesn't stand for all of them.
fn is_no_screen_id(id: u32) -> bool
    ensures { result ≡ (nat_lt MAX_SCREEN_ID id && not (id == SVGA_ID_INVALID)) }
{
    id > MAX_SCREEN_ID && id != SVGA_ID_INVALID
}

/// Whether a side of the rectangle is negative.
fn is_negative(rect: Rect) -> bool
    ensures { result ≡ has_negative_side rect }
{
    rect.right < rect.left || rect.bottom < rect.top
}

/// What a remap is refused with, but for the page numbers that stand in a region, and else what it may touch.
pub(crate) fn may_remap(
    regions: &Regions,
    region: u32,
    offset: u32,
    pages: u32,
    entries: EntriesRef<'_>,
) -> Result<Touch, Fault>
    requires few { pages ≤ MAX_REMAP_PAGES }
    requires fits { HasEntries (entries_of entries) pages }
    ensures fault { result_err result ≡ least_standing
        (remap_tests regions.now.guest regions.now.regions region offset pages
        (named_pages (entries_of entries.entry) pages)
        ++ pointed_tests regions.now.frame regions.now.regions (pointed (entries_of entries.entry)) pages) }
    ensures touch { IfOk result (λ touch. region_of touch
        ≡ option_map (λ at. at.region) (pointed (entries_of entries.entry))) }
{
    match entries {
        EntriesRef::ViaGmr32(pointer) => may_remap_via(regions, region, offset, pages, pointer, 1),
        EntriesRef::ViaGmr64(pointer) => may_remap_via(regions, region, offset, pages, pointer, 2),
        named => {
            regions.may_remap(region, offset, pages, named)?;
            Ok(Touch::Nothing)
        }
    }
}

/// What a remap is refused with whose numbers have so many words and stand from the pointer on, but for
/// these numbers.
fn may_remap_via(
    regions: &Regions,
    region: u32,
    offset: u32,
    pages: u32,
    pointer: GuestPtr,
    words: u32,
) -> Result<Touch, Fault>
    requires few { pages ≤ MAX_REMAP_PAGES }
    requires words { words ≤ 2 }
    ensures fault { result_err result ≡ least_standing
        (remap_tests regions.now.guest regions.now.regions region offset pages []
        ++ pointer_tests regions.now.frame regions.now.regions (pointed_by words pointer) pages) }
    ensures touch { IfOk result (λ touch. region_of touch ≡ Some pointer.region) }
{
    let range = regions.may_remap_range(region, offset, pages);
    lesser(range, may_read(regions, pointer, words, pages))?;
    Ok(Touch::Region(pointer.region))
}

/// What reading so many numbers from the pointer on is refused with.
fn may_read(regions: &Regions, pointer: GuestPtr, words: u32, pages: u32) -> Result<(), Fault>
    requires few { pages ≤ MAX_REMAP_PAGES }
    requires words { words ≤ 2 }
    ensures { result_err result ≡ first_standing (pointer_tests regions.now.frame regions.now.regions
        (pointed_by words pointer) pages) }
{
    if regions.length(pointer.region).is_none() {
        return no_region(pointer.region);
    }
    if numbers_break(regions, pointer, words, pages, ByteRule::Unmapped) {
        return Err(Fault::Unmapped);
    }
    if numbers_break(regions, pointer, words, pages, ByteRule::Beyond) {
        return Err(Fault::BeyondRegion);
    }
    Ok(())
}

/// Whether a byte of so many numbers from the pointer on breaks the rule.
fn numbers_break(
    regions: &Regions,
    pointer: GuestPtr,
    words: u32,
    pages: u32,
    rule: ByteRule,
) -> bool
    requires few { pages ≤ MAX_REMAP_PAGES }
    requires words { words ≤ 2 }
    requires defined { IsSome (list_of regions.now pointer.region) }
    ensures { result ≡ some_in_span (breaks rule (places_in regions.now pointer.region)) (pos pointer.offset)
        (4 * words * pages) }
{
    let from = i128::from(pointer.offset);
    let bytes = u64::from(4 * words * pages);
    span_breaks(regions, pointer.region, rule, from, bytes)
}

/// Why there is no region with this id.
fn no_region(id: u32) -> Result<(), Fault>
    ensures { result_err result ≡ Some (if nat_lt MAX_REGION_ID id then fault.RegionId else fault.NoRegion) }
{
    if id > MAX_REGION_ID {
        Err(Fault::RegionId)
    } else {
        Err(Fault::NoRegion)
    }
}
