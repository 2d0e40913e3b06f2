//! The pages' records.
ghost use Rattle.std.specs.Prelude.{◌≡◌, ◌+◌, ◌*◌, ◌≤◌, ◌∷◌, IfOk, None, [], length};
ghost use Rattle.std.specs.Result.{result_err};
ghost use Rattle.svga_cmd.specs.Limits.{AreLimits};
ghost use Rattle.svga_cmd.specs.Pages.{is_key};
ghost use Rattle.svga_model.specs.CaptureFields.{capture_end, first_flaw, key_of_word, limits_in, ordered_field, page_count, page_fields, pages_at};
ghost use Rattle.svga_model.specs.Walks.{little_word};

use crate::fault::Wrong;
use crate::field::{comes_after, holds, number, there};
use crate::fields::Records;
use svga_cmd::capture_layout::PAGE_OFFSET;
use svga_cmd::constants::{FRAME_KEY, MAX_INPUT_BYTES, PAGE_RECORD_SIZE, PAGE_SIZE};
use svga_cmd::{CaptureCause, Limits};

/// The byte at which record `j` of these begins; that of record `count` is the byte behind them.
pub(crate) fn page_record(pages: &Records, j: u32) -> u32
    requires { pages.now.at + PAGE_RECORD_SIZE * j ≤ MAX_INPUT_BYTES }
    ensures { result ≡ pages.now.at + PAGE_RECORD_SIZE * j }
{
    pages.at + PAGE_RECORD_SIZE * j
}

/// What is wrong with these records, or the byte behind them.
pub(crate) fn judge_pages(bytes: &[u8], pages: &Records, limits: &Limits) -> Result<u32, Wrong>
    requires few { length bytes.now ≤ MAX_INPUT_BYTES }
    requires begin { pages.now.at ≡ pages_at bytes.now }
    requires within { pages.now.at ≤ length bytes.now }
    requires count { pages.now.count ≡ page_count bytes.now }
    requires allowed { AreLimits limits.now }
    requires limits { limits.now ≡ limits_in bytes.now }
    ensures wrong { result_err result ≡ first_flaw bytes.now (page_fields bytes.now) }
    ensures end { IfOk result (λ end. end ≡ capture_end bytes.now) }
    ensures after { IfOk result (λ end. end ≤ length bytes.now) }
{
    let mut last = None;
    for j in 0..pages.count {
        last = Some(judge_record(bytes, limits, page_record(pages, j), last)?);
    }
    Ok(page_record(pages, pages.count))
}

/// The key's word of the record at byte `at`, or what is wrong with the record. It follows one with the
/// key's word `last`, if it follows any.
fn judge_record(bytes: &[u8], limits: &Limits, at: u32, last: Option<u32>) -> Result<u32, Wrong>
    requires few { length bytes.now ≤ MAX_INPUT_BYTES }
    requires allowed { AreLimits limits.now }
    requires within { at ≤ length bytes.now }
    ensures wrong { result_err result ≡ first_flaw bytes.now (
        ordered_field bytes.now at last (λ w. is_key limits.now (key_of_word w))
        ∷ record { at = at + PAGE_OFFSET; size = PAGE_SIZE; breaks = None } ∷ []) }
    ensures key { IfOk result (λ key. key ≡ little_word bytes.now at) }
    ensures after { IfOk result (λ key. at + PAGE_RECORD_SIZE ≤ length bytes.now) }
{
    let key = number(bytes, at)?;
    holds(is_key_word(limits, key), at, CaptureCause::Number)?;
    holds(comes_after(last, key), at, CaptureCause::Order)?;
    there(bytes, at + PAGE_OFFSET, PAGE_SIZE as u32)?;
    Ok(key)
}

/// Whether a word names a page of such a device.
fn is_key_word(limits: &Limits, word: u32) -> bool
    requires { AreLimits limits.now }
    ensures { result ≡ is_key limits.now (key_of_word word) }
{
    match word.checked_sub(FRAME_KEY) {
        None => word < limits.pages,
        Some(frame) => frame < limits.frame_pages(),
    }
}
