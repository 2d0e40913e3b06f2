//! The header: what a capture is of.
ghost use Rattle.std.specs.Prelude.{◌≡◌, ◌+◌, ◌≤◌, ◌==◌, ◌&&◌, ◌∷◌, [], IfOk, length, nat_le, true};
ghost use Rattle.std.specs.Result.{result_err};
ghost use Rattle.svga_capture.specs.Fields.{header_in};
ghost use Rattle.svga_cmd.specs.Limits.{AreLimits, frame_page_count};
ghost use Rattle.svga_model.specs.CaptureFields.{first_flaw, flaw_of, flaw_unless, header_fields, is_between, is_whole, limits_in, page_count, ring_end, word_field};
ghost use Rattle.svga_cmd.specs.declared.capture_cause.CaptureCause.TheVariants.{Magic, Version};
ghost use Rattle.svga_model.specs.Walks.{little_word};

use crate::fault::Wrong;
use crate::field::{holds, number, number_between};
use svga_cmd::capture_layout::{
    BUDGET_AT, FRAME_HEIGHT_AT, FRAME_WIDTH_AT, GUEST_PAGES_AT, LETTERS_AT, MAX_AT, PAGE_COUNT_AT,
    REGION_COUNT_AT, VERSION_AT, WORD_SIZE,
};
use svga_cmd::constants::{
    CAPTURE_LETTERS, MAX_CAPTURE_END, MAX_FRAME_HEIGHT, MAX_FRAME_WIDTH, MAX_GUEST_PAGES,
    MAX_INPUT_BYTES, MAX_PIXEL_BUDGET, MIN_CAPTURE_END, REGION_IDS,
};
use svga_cmd::{CaptureCause, Limits};

/// What a header says: where the ring ends, the limits, and how many regions and pages have records.
#[derive(Clone, Copy)]
pub(crate) struct Header {
    pub(crate) max: u32,
    pub(crate) limits: Limits,
    pub(crate) regions: u32,
    pub(crate) pages: u32,
}

/// What the header says, or what is wrong with its fields.
pub(crate) fn read_header(bytes: &[u8]) -> Result<Header, Wrong>
    requires { length bytes.now ≤ MAX_INPUT_BYTES }
    ensures wrong { result_err result ≡ first_flaw bytes.now (header_fields bytes.now) }
    ensures header { IfOk result (λ header. header ≡ header_in bytes.now) }
    ensures limits { IfOk result (λ header. AreLimits header.limits) }
    ensures ring { IfOk result (λ header.
        (is_whole header.max && is_between MIN_CAPTURE_END MAX_CAPTURE_END header.max) ≡ true) }
{
    judge_letters(bytes)?;
    judge_version(bytes)?;
    let max = read_ring_end(bytes)?;
    let limits = read_limits(bytes)?;
    let regions = number_between(bytes, REGION_COUNT_AT, 0, REGION_IDS as u32)?;
    let pages = read_page_count(bytes, &limits)?;
    Ok(Header {
        max,
        limits,
        regions,
        pages,
    })
}

/// What is wrong with the letters SVGF.
fn judge_letters(bytes: &[u8]) -> Result<(), Wrong>
    requires { length bytes.now ≤ MAX_INPUT_BYTES }
    ensures { result_err result ≡ flaw_of bytes.now (record {
      at = LETTERS_AT;
      size = WORD_SIZE;
      breaks = flaw_unless (little_word bytes.now LETTERS_AT == CAPTURE_LETTERS) Magic;
    }) }
{
    let letters = number(bytes, LETTERS_AT)?;
    holds(letters == CAPTURE_LETTERS, LETTERS_AT, CaptureCause::Magic)
}

/// What is wrong with the version.
fn judge_version(bytes: &[u8]) -> Result<(), Wrong>
    requires { length bytes.now ≤ MAX_INPUT_BYTES }
    ensures { result_err result ≡ flaw_of bytes.now (record {
      at = VERSION_AT;
      size = WORD_SIZE;
      breaks = flaw_unless (little_word bytes.now VERSION_AT == 1) Version;
    }) }
{
    let version = number(bytes, VERSION_AT)?;
    holds(version == 1, VERSION_AT, CaptureCause::Version)
}

/// MAX, where the ring ends.
fn read_ring_end(bytes: &[u8]) -> Result<u32, Wrong>
    requires { length bytes.now ≤ MAX_INPUT_BYTES }
    ensures wrong { result_err result ≡ flaw_of bytes.now (word_field bytes.now MAX_AT
        (λ n. is_whole n && is_between MIN_CAPTURE_END MAX_CAPTURE_END n)) }
    ensures end { IfOk result (λ end. end ≡ ring_end bytes.now) }
    ensures rule { IfOk result (λ end.
        (is_whole end && is_between MIN_CAPTURE_END MAX_CAPTURE_END end) ≡ true) }
{
    let end = number(bytes, MAX_AT)?;
    holds(
        end % 4 == 0 && MIN_CAPTURE_END <= end && end <= MAX_CAPTURE_END,
        MAX_AT,
        CaptureCause::Number,
    )?;
    Ok(end)
}

/// The limits.
fn read_limits(bytes: &[u8]) -> Result<Limits, Wrong>
    requires { length bytes.now ≤ MAX_INPUT_BYTES }
    ensures wrong { result_err result ≡ first_flaw bytes.now (
        word_field bytes.now GUEST_PAGES_AT (is_between 1 MAX_GUEST_PAGES)
        ∷ word_field bytes.now FRAME_WIDTH_AT (is_between 1 MAX_FRAME_WIDTH)
        ∷ word_field bytes.now FRAME_HEIGHT_AT (is_between 1 MAX_FRAME_HEIGHT)
        ∷ word_field bytes.now BUDGET_AT (is_between 1 MAX_PIXEL_BUDGET) ∷ []) }
    ensures limits { IfOk result (λ limits. limits ≡ limits_in bytes.now) }
    ensures allowed { IfOk result AreLimits }
{
    let pages = number_between(bytes, GUEST_PAGES_AT, 1, MAX_GUEST_PAGES)?;
    let gfb_width = number_between(bytes, FRAME_WIDTH_AT, 1, MAX_FRAME_WIDTH)?;
    let gfb_height = number_between(bytes, FRAME_HEIGHT_AT, 1, MAX_FRAME_HEIGHT)?;
    let budget = number_between(bytes, BUDGET_AT, 1, MAX_PIXEL_BUDGET)?;
    Ok(Limits {
        pages,
        gfb_width,
        gfb_height,
        budget,
    })
}

/// How many pages have records: no more than a device with these limits has.
fn read_page_count(bytes: &[u8], limits: &Limits) -> Result<u32, Wrong>
    requires few { length bytes.now ≤ MAX_INPUT_BYTES }
    requires allowed { AreLimits limits.now }
    requires limits { limits.now ≡ limits_in bytes.now }
    ensures wrong { result_err result ≡ flaw_of bytes.now (word_field bytes.now PAGE_COUNT_AT
        (λ n. nat_le n ((limits_in bytes.now).pages + frame_page_count (limits_in bytes.now)))) }
    ensures count { IfOk result (λ count. count ≡ page_count bytes.now) }
{
    let count = number(bytes, PAGE_COUNT_AT)?;
    holds(
        count <= limits.pages + limits.frame_pages(),
        PAGE_COUNT_AT,
        CaptureCause::Number,
    )?;
    Ok(count)
}
