//! The regions' records.
ghost use Rattle.std.specs.Prelude.{◌≡◌, ◌+◌, ◌*◌, ◌≤◌, ◌<◌, ◌==◌, ◌&&◌, ◌||◌, IfOk, None, length, map as map_list, nat_le, nat_lt};
ghost use Rattle.std.specs.List.{range_with_len};
ghost use Rattle.std.specs.Result.{result_err};
ghost use Rattle.svga_model.specs.CaptureFields.{place_field, record_fields};
ghost use Rattle.svga_model.specs.CaptureFields.{first_flaw, flaw_of, limits_in, ordered_field, pages_at, record_at, region_count, region_fields, region_records, ring_end, word_field};
ghost use Rattle.svga_model.specs.Walks.{little_word};

use crate::fault::Wrong;
use crate::field::{comes_after, holds, number, word};
use crate::fields::Records;
use svga_cmd::CaptureCause;
use svga_cmd::capture_layout::{COUNT_OFFSET, FIFO_AT, PLACES_OFFSET, WORD_SIZE};
use svga_cmd::constants::{MAX_INPUT_BYTES, MAX_PLACES, MAX_REGION_ID, UNMAPPED_WORD};

/// A region's record: the byte at which it begins, the id, and how many places follow.
#[derive(Clone, Copy)]
pub(crate) struct RegionRecord {
    pub(crate) at: u32,
    pub(crate) id: u32,
    pub(crate) count: u32,
}

impl RegionRecord {
    /// The record at byte `at`, of which the id and the count are there.
    pub(crate) fn read(bytes: &[u8], at: u32) -> RegionRecord
        requires few { length bytes.now ≤ MAX_INPUT_BYTES }
        requires there { at + PLACES_OFFSET ≤ length bytes.now }
        ensures { result ≡ record {
          at = at;
          id = little_word bytes.now at;
          count = little_word bytes.now (at + COUNT_OFFSET);
        } }
    {
        RegionRecord {
            at,
            id: word(bytes, at),
            count: word(bytes, at + COUNT_OFFSET),
        }
    }

    /// The byte at which the word of place `k` stands; that of place `count` is the byte behind the record.
    pub(crate) fn place_at(&self, k: u32) -> u32
        requires { self.now.at + PLACES_OFFSET + WORD_SIZE * k ≤ MAX_INPUT_BYTES }
        ensures { result ≡ self.now.at + PLACES_OFFSET + WORD_SIZE * k }
    {
        self.at + PLACES_OFFSET + WORD_SIZE * k
    }

    /// The byte behind the record, at which the next begins.
    pub(crate) fn end(&self) -> u32
        requires { self.now.at + PLACES_OFFSET + WORD_SIZE * self.now.count ≤ MAX_INPUT_BYTES }
        ensures { result ≡ self.now.at + PLACES_OFFSET + WORD_SIZE * self.now.count }
    {
        self.place_at(self.count)
    }
}

/// What is wrong with these records, or the byte behind them.
pub(crate) fn judge_regions(bytes: &[u8], regions: &Records, guest: u32) -> Result<u32, Wrong>
    requires few { length bytes.now ≤ MAX_INPUT_BYTES }
    requires begin { regions.now.at ≡ FIFO_AT + ring_end bytes.now }
    requires within { regions.now.at ≤ length bytes.now }
    requires count { regions.now.count ≡ region_count bytes.now }
    requires guest { guest ≡ (limits_in bytes.now).pages }
    ensures wrong { result_err result ≡ first_flaw bytes.now
        (region_fields bytes.now 0 None (region_records bytes.now)) }
    ensures end { IfOk result (λ at. at ≡ pages_at bytes.now) }
    ensures within { IfOk result (λ at. at ≤ length bytes.now) }
{
    let mut at = regions.at;
    let mut last = None;
    let mut total = 0;
    for _ in 0..regions.count {
        let record = judge_record(bytes, at, last, total, guest)?;
        last = Some(record.id);
        total += record.count;
        at = record.end();
    }
    Ok(at)
}

/// The record at byte `at`, or what is wrong with it. The regions before it have `total` places.
fn judge_record(
    bytes: &[u8],
    at: u32,
    last: Option<u32>,
    total: u32,
    guest: u32,
) -> Result<RegionRecord, Wrong>
    requires few { length bytes.now ≤ MAX_INPUT_BYTES }
    requires begin { at ≤ length bytes.now }
    requires before { total ≤ MAX_PLACES }
    requires guest { guest ≡ (limits_in bytes.now).pages }
    ensures wrong { result_err result ≡ first_flaw bytes.now
        (record_fields bytes.now total last (record_at bytes.now at)) }
    ensures said { IfOk result (λ r. r ≡ record {
      at = at;
      id = little_word bytes.now at;
      count = little_word bytes.now (at + COUNT_OFFSET);
    }) }
    ensures room { IfOk result (λ r. total + r.count ≤ MAX_PLACES) }
    ensures within { IfOk result (λ r. at + PLACES_OFFSET + WORD_SIZE * r.count ≤ length bytes.now) }
{
    let record = RegionRecord {
        at,
        id: read_id(bytes, at, last)?,
        count: read_count(bytes, at + COUNT_OFFSET, total)?,
    };
    judge_places(bytes, &record, guest)?;
    Ok(record)
}

/// An id, where the record before has the id `last`.
fn read_id(bytes: &[u8], at: u32, last: Option<u32>) -> Result<u32, Wrong>
    requires { length bytes.now ≤ MAX_INPUT_BYTES }
    ensures wrong { result_err result ≡ flaw_of bytes.now
        (ordered_field bytes.now at last (λ n. nat_le n MAX_REGION_ID)) }
    ensures id { IfOk result (λ id. id ≡ little_word bytes.now at) }
    ensures within { IfOk result (λ _. at + WORD_SIZE ≤ length bytes.now) }
{
    let id = number(bytes, at)?;
    holds(id <= MAX_REGION_ID, at, CaptureCause::Number)?;
    holds(comes_after(last, id), at, CaptureCause::Order)?;
    Ok(id)
}

/// A count of places, where the records before have `total`.
fn read_count(bytes: &[u8], at: u32, total: u32) -> Result<u32, Wrong>
    requires few { length bytes.now ≤ MAX_INPUT_BYTES }
    requires before { total ≤ MAX_PLACES }
    ensures wrong { result_err result ≡ flaw_of bytes.now
        (word_field bytes.now at (λ n. nat_le 1 n && nat_le (total + n) MAX_PLACES)) }
    ensures count { IfOk result (λ count. count ≡ little_word bytes.now at) }
    ensures room { IfOk result (λ count. total + count ≤ MAX_PLACES) }
    ensures within { IfOk result (λ _. at + WORD_SIZE ≤ length bytes.now) }
{
    let count = number(bytes, at)?;
    holds(
        1 <= count && count <= MAX_PLACES - total,
        at,
        CaptureCause::Number,
    )?;
    Ok(count)
}

/// What is wrong with the places of a record.
fn judge_places(bytes: &[u8], region: &RegionRecord, guest: u32) -> Result<(), Wrong>
    requires few { length bytes.now ≤ MAX_INPUT_BYTES }
    requires begin { region.now.at + PLACES_OFFSET ≤ length bytes.now }
    requires room { region.now.count ≤ MAX_PLACES }
    requires guest { guest ≡ (limits_in bytes.now).pages }
    ensures wrong { result_err result ≡ first_flaw bytes.now
        (map_list (place_field bytes.now (region.now.at + PLACES_OFFSET))
        (range_with_len 0 region.now.count)) }
    ensures within { IfOk result (λ _.
        region.now.at + PLACES_OFFSET + WORD_SIZE * region.now.count ≤ length bytes.now) }
{
    for k in 0..region.count {
        judge_place(bytes, region.place_at(k), guest)?;
    }
    Ok(())
}

/// What is wrong with the word of a place.
fn judge_place(bytes: &[u8], at: u32, guest: u32) -> Result<(), Wrong>
    requires { length bytes.now ≤ MAX_INPUT_BYTES }
    ensures wrong { result_err result ≡ flaw_of bytes.now
        (word_field bytes.now at (λ n. nat_lt n guest || n == UNMAPPED_WORD)) }
    ensures within { IfOk result (λ _. at + WORD_SIZE ≤ length bytes.now) }
{
    let page = number(bytes, at)?;
    holds(
        page < guest || page == UNMAPPED_WORD,
        at,
        CaptureCause::Number,
    )
}
