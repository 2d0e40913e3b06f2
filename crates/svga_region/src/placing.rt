//! Putting guest pages into the list of a region.
ghost use Rattle.std.specs.Prelude.{◌≡◌, ◌+◌, ◌*◌, ◌≤◌, ◌<◌, ◌^◌, false, nat_le, length, slice_set, All, slice_range, sum_by};
ghost use Rattle.std.specs.List.{list_any, range_with_len};
ghost use Rattle.svga_cmd.specs.Lent.{entries_of};
ghost use Rattle.svga_cmd.specs.WellFormed.{HasEntries};
ghost use Rattle.svga_model.specs.Regions.{guest_places, named_pages, range_pages, remapped};
ghost use Rattle.svga_region.specs.Conditions.{AreNamed};
ghost use Rattle.svga_region.specs.Kept.{IsShortRun, kept_pages};
ghost use Rattle.svga_rows.specs.Rows.{list_at};

use crate::descriptor::Descriptor;
use crate::entries::entry_page;
use svga_cmd::constants::{MAX_DESCRIPTORS, MAX_GUEST_PAGES};
use svga_cmd::{EntriesRef, PageKey};
use svga_rows::Rows;

/// Puts the pages that a remap names into the range from `offset` on.
pub fn put_entries(
    lists: &mut Rows<Option<PageKey>>,
    slot: usize,
    offset: u32,
    guest: u32,
    entries: EntriesRef<'_>,
    pages: u32,
)
    requires within { slot < length lists.old.lists }
    requires range { offset + pages ≤ length (list_at lists.old slot) }
    requires named { AreNamed (entries_of entries) }
    requires fits { HasEntries (entries_of entries) pages }
    requires good { list_any (λ n. nat_le guest n) (named_pages (entries_of entries) pages) ≡ false }
    requires small { guest ≤ MAX_GUEST_PAGES }
    ensures lists { lists.new.lists ≡ slice_set lists.old.lists slot
        (remapped (list_at lists.old slot) offset (guest_places
        (range_pages (entries_of entries.entry) pages))) }
    ensures room { lists.new.room ≡ lists.old.room }
{
    for k in 0..pages {
        let page = entry_page(guest, entries, pages, k);
        lists.set(
            slot,
            offset as usize + k as usize,
            Some(PageKey::Guest(page)),
        );
    }
}

/// Puts the pages of a run from `at` on.
fn put_run(lists: &mut Rows<Option<PageKey>>, slot: usize, at: usize, run: Descriptor)
    requires within { slot < length lists.old.lists }
    requires range { at + run.count ≤ length (list_at lists.old slot) }
    requires near { at < 2 ^ 32 }
    requires short { IsShortRun run }
    ensures lists { lists.new.lists ≡ slice_set lists.old.lists slot
        (remapped (list_at lists.old slot) at (guest_places (range_with_len run.page run.count))) }
    ensures room { lists.new.room ≡ lists.old.room }
{
    for k in 0..run.count {
        lists.set(slot, at + k as usize, Some(PageKey::Guest(run.page + k)));
    }
}

/// Puts the pages of all runs, one run behind another.
pub fn put_runs(lists: &mut Rows<Option<PageKey>>, slot: usize, runs: &[Descriptor])
    requires within { slot < length lists.old.lists }
    requires few { length runs.now ≤ MAX_DESCRIPTORS }
    requires range { length (kept_pages runs.now) ≤ length (list_at lists.old slot) }
    requires short { All IsShortRun runs.now }
    ensures lists { lists.new.lists ≡ slice_set lists.old.lists slot
        (remapped (list_at lists.old slot) 0 (guest_places (kept_pages runs.now))) }
    ensures room { lists.new.room ≡ lists.old.room }
{
    let mut at = 0;
    for run in runs {
        put_run(lists, slot, at, *run);
        at += run.count as usize;
    }
}

/// How many pages the runs list.
pub fn listed_count(runs: &[Descriptor]) -> usize
    requires few { length runs.now ≤ MAX_DESCRIPTORS }
    requires short { All IsShortRun runs.now }
    ensures count { result ≡ length (kept_pages runs.now) }
    ensures small { result ≤ MAX_GUEST_PAGES * MAX_DESCRIPTORS }
{
    let mut count = 0;
    for run in runs {
        count += run.count as usize;
    }
    count
}
