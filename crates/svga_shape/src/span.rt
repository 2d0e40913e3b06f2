//! Spans of a region's bytes, and the rules that they may break.
ghost use Rattle.std.specs.Prelude.{◌≡◌, ℕ, ◌-◌, ◌*◌, ◌<◌, ◌≤◌, ◌^◌, pos, ◌+ℤ◌, int_le, nat_le, unsigned_abs, IsSome, length, slice_index_or, is_none, None};
ghost use Rattle.std.specs.List.{list_any, range_with_len};
ghost use Rattle.svga_model.specs.BlitFaults.{is_on_unmapped, is_outside};
ghost use Rattle.svga_model.specs.RegionBytes.{page_of_byte};
ghost use Rattle.svga_model.specs.Regions.{Places};
ghost use Rattle.svga_region.specs.RegionSet.{list_of, places_in};
ghost use Rattle.svga_shape.specs.Spans.{breaks, some_in_span};

use svga_cmd::constants::PAGE_SIZE;
use svga_region::Regions;

/// A rule on the bytes of a region.
#[derive(Clone, Copy, Debug, PartialEq, Eq)]
pub(crate) enum ByteRule {
    /// A byte on an unmapped place breaks it.
    Unmapped,
    /// A byte below 0, or at or past the region's end, breaks it.
    Beyond,
}

/// Whether one of `count` bytes from byte `from` on breaks the rule. It looks at each place of the span once.
pub(crate) fn span_breaks(
    regions: &Regions,
    id: u32,
    rule: ByteRule,
    from: i128,
    count: u64,
) -> bool
    requires defined { IsSome (list_of regions.now id) }
    requires near { unsigned_abs from ≤ 2 ^ 80 }
    ensures { result ≡ some_in_span (breaks rule (places_in regions.now id)) from count }
{
    let Some(places) = regions.length(id) else {
        return false;
    };
    match rule {
        ByteRule::Unmapped => lies_on_unmapped(regions, id, places, from, count),
        ByteRule::Beyond => lies_outside(places, from, count),
    }
}

/// Whether one of the bytes lies outside a region of so many places.
fn lies_outside(places: u32, from: i128, count: u64) -> bool
    requires near { unsigned_abs from ≤ 2 ^ 80 }
    ensures { (list : Places) → length list ≡ places → result ≡ some_in_span (is_outside list) from count }
{
    if count == 0 {
        false
    } else if from < 0 {
        true
    } else {
        end_of(from, count) > PAGE_SIZE as i128 * i128::from(places)
    }
}

/// The number behind the last of the bytes.
fn end_of(from: i128, count: u64) -> i128
    requires { unsigned_abs from ≤ 2 ^ 80 }
    ensures value { result ≡ from +ℤ pos count }
    ensures near { unsigned_abs result ≤ 2 ^ 81 }
{
    from + i128::from(count)
}

/// Whether one of the bytes lies on an unmapped place of the region.
fn lies_on_unmapped(regions: &Regions, id: u32, places: u32, from: i128, count: u64) -> bool
    requires defined { IsSome (list_of regions.now id) }
    requires places { places ≡ length (places_in regions.now id) }
    requires near { unsigned_abs from ≤ 2 ^ 80 }
    ensures { result ≡ some_in_span (is_on_unmapped (places_in regions.now id)) from count }
{
    let first = nearest(from, places);
    let end = nearest(end_of(from, count), places);
    touches_unmapped(regions, id, places, first, end)
}

/// The number from 0 to the count of a region's bytes that is nearest to this one.
fn nearest(byte: i128, places: u32) -> u64
    ensures within { result ≤ PAGE_SIZE * places }
    ensures same { (i : ℕ) → i < PAGE_SIZE * places → int_le byte (pos i) ≡ nat_le result i }
{
    let bytes = PAGE_SIZE as u64 * u64::from(places);
    if byte <= 0 {
        0
    } else {
        byte.unsigned_abs().min(u128::from(bytes)) as u64
    }
}

/// Whether one of the bytes from `first` to below `end` lies on an unmapped place.
fn touches_unmapped(regions: &Regions, id: u32, places: u32, first: u64, end: u64) -> bool
    requires defined { IsSome (list_of regions.now id) }
    requires places { places ≡ length (places_in regions.now id) }
    requires within { end ≤ PAGE_SIZE * places }
    ensures { result ≡ list_any (λ i. is_none (page_of_byte (places_in regions.now id) i))
        (range_with_len first (end - first)) }
{
    if first >= end {
        return false;
    }
    let from = (first / PAGE_SIZE as u64) as u32;
    let to = ((end - 1) / PAGE_SIZE as u64) as u32 + 1;
    has_unmapped(regions, id, from, to)
}

/// Whether one of the places from `from` to below `to` is unmapped.
fn has_unmapped(regions: &Regions, id: u32, from: u32, to: u32) -> bool
    requires defined { IsSome (list_of regions.now id) }
    requires within { to ≤ length (places_in regions.now id) }
    ensures { result ≡ list_any (λ k. is_none (slice_index_or (places_in regions.now id) k None))
        (range_with_len from (to - from)) }
{
    (from..to).any(|k| regions.place(id, k).is_none())
}
