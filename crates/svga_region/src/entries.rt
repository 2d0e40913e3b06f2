//! The page numbers that a remap names.
ghost use Rattle.std.specs.Prelude.{◌≡◌, ◌+◌, ◌*◌, ◌≤◌, ◌<◌, ◌^◌, ℕ, false, nat_le, length, slice_index};
ghost use Rattle.std.specs.List.{list_any, range_with_len};
ghost use Rattle.svga_cmd.specs.Lent.{entries_of};
ghost use Rattle.svga_cmd.specs.WellFormed.{HasEntries};
ghost use Rattle.svga_model.specs.Regions.{joined_words, named_pages, range_pages};

use svga_cmd::EntriesRef;
use svga_cmd::constants::MAX_GUEST_PAGES;

/// Whether a number of 64 bits is no guest page's.
fn is_bad_page(guest: u32, low: u32, high: u32) -> bool
    ensures { result ≡ nat_le guest (joined_words low high) }
{
    high != 0 || low >= guest
}

fn some_bad_pair(guest: u32, words: &[u32], pages: u32) -> bool
    requires { length words.now ≡ 2 * pages }
    ensures { result ≡ list_any (λ k. nat_le guest
        (joined_words (slice_index words.now (2 * k)) (slice_index words.now (2 * k + 1))))
        (range_with_len 0 pages) }
{
    (0..pages as usize).any(|k| is_bad_page(guest, words[2 * k], words[2 * k + 1]))
}

/// Whether some entry names no guest page. A single entry is judged also where it goes to no place.
pub fn name_bad_page(guest: u32, entries: EntriesRef<'_>, pages: u32) -> bool
    requires { HasEntries (entries_of entries) pages }
    ensures { result ≡ list_any (λ n. nat_le guest n) (named_pages (entries_of entries.entry) pages) }
{
    match entries {
        EntriesRef::Ppn32(list) => list.iter().any(|page| *page >= guest),
        EntriesRef::Ppn64(list) => some_bad_pair(guest, list, pages),
        EntriesRef::SinglePpn32(page) => page >= guest,
        EntriesRef::SinglePpn64 { low, high } => is_bad_page(guest, low, high),
        EntriesRef::ViaGmr32(_) => false,
        EntriesRef::ViaGmr64(_) => false,
    }
}

/// The page number for a place of the range. A good number has no high word.
pub fn entry_page(guest: u32, entries: EntriesRef<'_>, pages: u32, k: u32) -> u32
    requires fits { HasEntries (entries_of entries) pages }
    requires good { list_any (λ n. nat_le guest n) (named_pages (entries_of entries) pages) ≡ false }
    requires small { guest ≤ MAX_GUEST_PAGES }
    requires within { k < pages }
    ensures { result ≡ slice_index (range_pages (entries_of entries.entry) pages) k }
{
    match entries {
        EntriesRef::Ppn32(list) => list[k as usize],
        EntriesRef::Ppn64(list) => list[2 * k as usize],
        EntriesRef::SinglePpn32(page) => page,
        EntriesRef::SinglePpn64 { low, .. } => low,
        EntriesRef::ViaGmr32(_) => 0,
        EntriesRef::ViaGmr64(_) => 0,
    }
}
