//! The state with which a capture opens.
ghost use Rattle.std.specs.FinMap as map;
ghost use Rattle.std.specs.Prelude.{◌≡◌, ◌+◌, ◌*◌, ◌<◌, ◌≤◌, IfOk, None, length, slice_range};
ghost use Rattle.svga_cmd.specs.Pages.{HasPage, IsZeroMemoryOf};
ghost use Rattle.svga_machine.specs.Displays.{IsWholeState};
ghost use Rattle.svga_machine.specs.MachineSet.{state_with};
ghost use Rattle.svga_model.specs.Accepted.{AreWords};
ghost use Rattle.svga_model.specs.CaptureFields.{key_of_word, limits_in, record_at};
ghost use Rattle.svga_model.specs.Captures.{listed_memory, listed_places, listed_regions, opening_in, waiting_words};
ghost use Rattle.svga_model.specs.Memories.{with_page};
ghost use Rattle.svga_model.specs.Regions.{region_length};
ghost use Rattle.svga_model.specs.Walks.{little_word};
ghost use Rattle.svga_capture.specs.Fields.{AreFields};
ghost use Rattle.svga_capture.specs.Openings.{IsNextRecord, IsPlaceWord, with_place};

use crate::field::word;
use crate::fields::Fields;
use crate::pages::page_record;
use crate::regions::RegionRecord;
use std::alloc::{AllocError, Global};
use svga_cmd::capture_layout::{PAGE_OFFSET, PLACES_OFFSET, WORD_SIZE};
use svga_cmd::constants::{
    FRAME_KEY, MAX_INPUT_BYTES, MAX_REGION_ID, PAGE_RECORD_SIZE, UNMAPPED_WORD,
};
use svga_cmd::{MemPages, PageKey, PageStore};
use svga_machine::Machine;
use svga_region::Regions;

/// A machine and pages in the opening state of a capture with these bytes, whose fields say this.
pub(crate) fn opening_of(
    alloc: Global,
    bytes: &[u8],
    fields: &Fields,
) -> Result<(Machine, MemPages), AllocError>
    requires { AreFields bytes.now fields.now }
    ensures opened { IfOk result (λ opened. state_with opened.0 opened.1 ≡ opening_in bytes.now) }
    ensures whole { IfOk result (λ opened.
        IsWholeState (limits_in bytes.now) (state_with opened.0 opened.1)) }
    ensures numbers { IfOk result (λ _. AreWords (waiting_words bytes.now)) }
    ensures chain { IfOk result (λ opened. opened.0.chain ≡ None) }
{
    let limits = fields.limits;
    let mut regions = Regions::new(alloc, limits.pages, limits.frame_pages())?;
    open_regions(&mut regions, bytes, fields);
    let machine = Machine::opened(alloc, limits, regions, fields.fence)?;
    let mut pages = MemPages::new(alloc, limits)?;
    open_pages(&mut pages, bytes, fields);
    Ok((machine, pages))
}

/// Opens all regions where there are none.
fn open_regions(regions: &mut Regions, bytes: &[u8], fields: &Fields)
    requires fields { AreFields bytes.now fields.now }
    requires guest { regions.old.guest ≡ (limits_in bytes.now).pages }
    requires none { regions.old.regions ≡ map.empty }
    ensures { regions.new ≡ record regions.old { regions = listed_regions bytes.now } }
{
    let mut at = fields.regions.at;
    for _ in 0..fields.regions.count {
        at = open_region(regions, bytes, at);
    }
}

/// Opens the region whose record begins at byte `at`, and tells the byte behind the record.
fn open_region(regions: &mut Regions, bytes: &[u8], at: u32) -> u32
    requires few { length bytes.now ≤ MAX_INPUT_BYTES }
    requires next { IsNextRecord bytes.now at regions.old.guest regions.old.regions }
    ensures opened { regions.new ≡ record regions.old {
      regions = map.insert regions.old.regions
          (record_at bytes.now at).id (listed_places bytes.now (record_at bytes.now at));
    } }
    ensures end { result ≡ at + PLACES_OFFSET + WORD_SIZE * (record_at bytes.now at).count }
{
    let record = RegionRecord::read(bytes, at);
    regions.define_allowed(record.id, record.count);
    for k in 0..record.count {
        open_place(regions, record.id, k, word(bytes, record.place_at(k)));
    }
    record.end()
}

/// Maps an unmapped place of a region to what a word says of it.
fn open_place(regions: &mut Regions, id: u32, k: u32, number: u32)
    requires small { id ≤ MAX_REGION_ID }
    requires there { k < region_length regions.old.regions id }
    requires allowed { IsPlaceWord regions.old.guest number }
    ensures { regions.new ≡ record regions.old { regions = with_place regions.old.regions id k number } }
{
    if number != UNMAPPED_WORD {
        regions.map_place(id, k, number);
    }
}

/// Fills the pages that have records.
fn open_pages(pages: &mut MemPages, bytes: &[u8], fields: &Fields)
    requires fields { AreFields bytes.now fields.now }
    requires zero { IsZeroMemoryOf (limits_in bytes.now) pages.old }
    ensures { pages.new ≡ listed_memory bytes.now }
{
    for j in 0..fields.pages.count {
        open_page(pages, bytes, page_record(&fields.pages, j));
    }
}

/// Fills the page whose record begins at byte `at`.
fn open_page(pages: &mut MemPages, bytes: &[u8], at: u32)
    requires few { length bytes.now ≤ MAX_INPUT_BYTES }
    requires there { at + PAGE_RECORD_SIZE ≤ length bytes.now }
    requires page { HasPage pages.old (key_of_word (little_word bytes.now at)) }
    ensures { pages.new ≡ with_page pages.old (key_of_word (little_word bytes.now at))
        (slice_range bytes.now (at + PAGE_OFFSET) (at + PAGE_RECORD_SIZE)) }
{
    let key = key_of(word(bytes, at));
    let from = (at + PAGE_OFFSET) as usize;
    let end = (at + PAGE_RECORD_SIZE) as usize;
    let page = pages.page_mut(key).bytes_mut();
    page.copy_from_slice(&bytes[from..end]);
}

/// The page that a word names.
fn key_of(word: u32) -> PageKey
    ensures { result ≡ key_of_word word }
{
    if word < FRAME_KEY {
        PageKey::Guest(word)
    } else {
        PageKey::Frame(word - FRAME_KEY)
    }
}
