//! Bytes of a region, page by page.
ghost use Rattle.std.specs.Prelude.{◌≡◌, ◌+◌, ◌-◌, ◌%◌, ◌<◌, ◌≤◌, ◌^◌, ◌++◌, IfSome, IsSome, IsTrue, Some, drop, length, map as map_list, min, take};
ghost use Rattle.std.specs.List.{range_with_len};
ghost use Rattle.svga_model.specs.Memories.{writes_from, written};
ghost use Rattle.svga_model.specs.RegionBytes.{page_of_byte};
ghost use Rattle.svga_region.specs.RegionSet.{places_in};
ghost use Rattle.svga_transfer.specs.Reach.{HasBytes, byte_in};

use svga_cmd::constants::PAGE_SIZE;
use svga_cmd::{PageKey, PageStore};
use svga_region::Regions;

/// The page that a mapped byte lies on, and the byte's number there.
pub(crate) fn locate(regions: &Regions, region: u32, at: u64) -> (PageKey, usize)
    requires mapped { IsSome (page_of_byte (places_in regions.now region) at) }
    ensures page { page_of_byte (places_in regions.now region) at ≡ Some result.0 }
    ensures start { result.1 ≡ at % PAGE_SIZE }
{
    match regions.locate(region, at) {
        Ok((key, start)) => (key, start as usize),
        Err(_) => unreachable!(),
    }
}

/// Reads bytes of a region from byte `at` on, as far as the page goes that it lies on. Answers how many
/// were read.
fn read_piece<P: PageStore>(
    regions: &Regions,
    store: &P,
    region: u32,
    at: u64,
    bytes: &mut [u8],
) -> usize
    requires some { 0 < length bytes.old }
    requires there { HasBytes (P.pages store.now) (places_in regions.now region) at (length bytes.old) }
    ensures count { result ≡ min (length bytes.old) (PAGE_SIZE - at % PAGE_SIZE) }
    ensures read { bytes.new ≡ map_list (byte_in (P.pages store.now) regions.now region)
        (range_with_len at result) ++ drop result bytes.old }
{
    let (key, start) = locate(regions, region, at);
    let page = store.page(key).bytes();
    let count = bytes.len().min(page.len() - start);
    bytes[..count].copy_from_slice(&page[start..start + count]);
    count
}

/// Reads the bytes of a region from byte `from` on.
pub fn read_bytes<P: PageStore>(
    regions: &Regions,
    store: &P,
    region: u32,
    from: u64,
    bytes: &mut [u8],
)
    requires there { HasBytes (P.pages store.now) (places_in regions.now region) from (length bytes.old) }
    ensures { bytes.new ≡ map_list (byte_in (P.pages store.now) regions.now region)
        (range_with_len from (length bytes.old)) }
{
    // Asked once, so that the proof knows that no number of a byte is too large.
    let _places = regions.length(region);
    let mut done = 0;
    while done < bytes.len() {
        let at = from + done as u64;
        done += read_piece(regions, store, region, at, &mut bytes[done..]);
    }
}

/// Whether there are so many bytes, and they lie on one page from byte `from` of a region on.
pub(crate) fn is_on_one_page(from: u64, count: usize) -> bool
    ensures { IsTrue result → (0 < count) × (from % PAGE_SIZE + count ≤ PAGE_SIZE) }
{
    0 < count && count <= PAGE_SIZE && from % PAGE_SIZE as u64 <= (PAGE_SIZE - count) as u64
}

/// `count` bytes of a region from byte `from` on, where they lie on one page.
fn on_one_page<'a, P: PageStore>(
    regions: &Regions,
    store: &'a P,
    region: u32,
    from: u64,
    count: usize,
) -> Option<&'a [u8]>
    requires there { HasBytes (P.pages store.now) (places_in regions.now region) from count }
    ensures { IfSome result (λ bytes. bytes.now
        ≡ map_list (byte_in (P.pages store.now) regions.now region) (range_with_len from count)) }
{
    if !is_on_one_page(from, count) {
        return None;
    }
    let (key, start) = locate(regions, region, from);
    let page = store.page(key).bytes();
    Some(&page[start..start + count])
}

/// `count` bytes of a region from byte `from` on: where they lie, or else, if they lie on several pages,
/// together in the room.
pub(crate) fn bytes_together<'a, P: PageStore>(
    regions: &Regions,
    store: &'a P,
    region: u32,
    from: u64,
    count: usize,
    room: &'a mut [u8],
) -> &'a [u8]
    requires room { count ≤ length room.old }
    requires there { HasBytes (P.pages store.now) (places_in regions.now region) from count }
    ensures { result.now
        ≡ map_list (byte_in (P.pages store.now) regions.now region) (range_with_len from count) }
{
    match on_one_page(regions, store, region, from, count) {
        Some(bytes) => bytes,
        None => {
            let bytes = &mut room[..count];
            read_bytes(regions, store, region, from, bytes);
            bytes
        }
    }
}

/// Writes bytes to a region from byte `at` on, as far as the page goes that it lies on. Answers how many
/// were written.
fn write_piece<P: PageStore>(
    regions: &Regions,
    store: &mut P,
    region: u32,
    at: u64,
    bytes: &[u8],
) -> usize
    requires some { 0 < length bytes.now }
    requires there { HasBytes (P.pages store.old) (places_in regions.now region) at (length bytes.now) }
    ensures count { result ≡ min (length bytes.now) (PAGE_SIZE - at % PAGE_SIZE) }
    ensures written { P.pages store.new ≡ written (places_in regions.now region) (P.pages store.old)
        (writes_from at (take result bytes.now)) }
    ensures rest { P.rest store.new ≡ P.rest store.old }
{
    let (key, start) = locate(regions, region, at);
    let page = store.page_mut(key).bytes_mut();
    let count = bytes.len().min(page.len() - start);
    page[start..start + count].copy_from_slice(&bytes[..count]);
    count
}

/// Writes bytes to a region from byte `from` on, one after another: where two places are mapped to one
/// page, what is written last stands.
pub fn write_bytes<P: PageStore>(
    regions: &Regions,
    store: &mut P,
    region: u32,
    from: u64,
    bytes: &[u8],
)
    requires there { HasBytes (P.pages store.old) (places_in regions.now region) from (length bytes.now) }
    ensures written { P.pages store.new ≡ written (places_in regions.now region) (P.pages store.old)
        (writes_from from bytes.now) }
    ensures rest { P.rest store.new ≡ P.rest store.old }
{
    // Asked once, so that the proof knows that no number of a byte is too large.
    let _places = regions.length(region);
    let mut done = 0;
    while done < bytes.len() {
        let at = from + done as u64;
        done += write_piece(regions, store, region, at, &bytes[done..]);
    }
}
