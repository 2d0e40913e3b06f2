//! What the next word of a line says, by what it has to be.
ghost use Rattle.std.specs.Prelude.{◌≡◌, ◌≤◌, ◌+◌, ◌%◌, ◌&&◌, IfOk, codes, is_some, length, slice_index_or, true, unwrap_or};
ghost use Rattle.svga_cmd.specs.declared.format.Format.TheVariants.{Bgrx32};
ghost use Rattle.svga_cmd.specs.declared.script_cause.ScriptCause.TheVariants.{Number, Word as OtherWord};
ghost use Rattle.svga_cmd.specs.declared.session.Way.TheVariants.{Reserve};
ghost use Rattle.svga_model.specs.CaptureFields.{is_between as between, is_whole};
ghost use Rattle.svga_model.specs.ScriptLines.{key as key_rule, keys as keys_rule, number as number_rule, number_up_to, region as region_rule, run_behind, screen as screen_rule, signed as signed_rule, spelled};
ghost use Rattle.svga_model.specs.ScriptWords.{are_pairs as pairs, format_of as format_in, hex_in, is_hex, is_hex_byte, key_in, number_in, number_or as named_number, signed_in, way_of as way_in};
ghost use Rattle.svga_script.specs.Acts.{keys_read, run_read};
ghost use Rattle.svga_script.specs.Left.{words_left};
ghost use Rattle.svga_script.specs.Taken.{AreTaken, IsTaken};

use crate::fault::LineFault;
use crate::hexadecimal::{are_pairs, hex_byte};
use crate::key::{Keys, ends_within, key, keys_end_within, keys_of, run_of};
use crate::list::Run;
use crate::name::{format_of, way_of};
use crate::number::{number, number_or, signed};
use crate::words::take_word;
use svga_cmd::constants::{
    MAX_INPUT_BYTES, MAX_MAP_PAGES, MAX_RING_END, MIN_RING_END, PAGE_SIZE, SVGA_GMR_FRAMEBUFFER,
    SVGA_ID_INVALID,
};
use svga_cmd::{Format, PageKey, ScriptCause, Way};

/// A number.
pub(crate) fn take_number(line: &[u8], at: &mut usize) -> Result<u32, LineFault>
    requires { length line.now ≤ MAX_INPUT_BYTES }
    ensures { IsTaken number_rule number_in (length line.now + 1) (words_left line.now at.old)
        result (words_left line.now at.new) }
{
    let word = take_word(line, at)?;
    number(word.letters).ok_or(word.wrong(ScriptCause::Number))
}

/// A number from `low` to `high`, both allowed.
pub(crate) fn take_between(
    line: &[u8],
    at: &mut usize,
    low: u32,
    high: u32,
) -> Result<u32, LineFault>
    requires { length line.now ≤ MAX_INPUT_BYTES }
    ensures range { IfOk result (λ n. (low ≤ n) × (n ≤ high)) }
    ensures taken { IsTaken (number_up_to (between low high)) number_in (length line.now + 1)
        (words_left line.now at.old) result (words_left line.now at.new) }
{
    let word = take_word(line, at)?;
    let value = number(word.letters).ok_or(word.wrong(ScriptCause::Number))?;
    if low <= value && value <= high {
        Ok(value)
    } else {
        Err(word.wrong(ScriptCause::Limit))
    }
}

/// The byte at which a session's ring ends.
pub(crate) fn take_ring(line: &[u8], at: &mut usize) -> Result<u32, LineFault>
    requires { length line.now ≤ MAX_INPUT_BYTES }
    ensures range { IfOk result (λ n. (MIN_RING_END ≤ n) × (n ≤ MAX_RING_END) × (n % 4 ≡ 0)) }
    ensures taken { IsTaken (number_up_to (λ n. between MIN_RING_END MAX_RING_END n && is_whole n)) number_in
        (length line.now + 1) (words_left line.now at.old) result (words_left line.now at.new) }
{
    let word = take_word(line, at)?;
    let ring = number(word.letters).ok_or(word.wrong(ScriptCause::Number))?;
    if MIN_RING_END <= ring && ring <= MAX_RING_END && ring % 4 == 0 {
        Ok(ring)
    } else {
        Err(word.wrong(ScriptCause::Limit))
    }
}

/// A signed number.
pub(crate) fn take_signed(line: &[u8], at: &mut usize) -> Result<i32, LineFault>
    requires { length line.now ≤ MAX_INPUT_BYTES }
    ensures { IsTaken signed_rule signed_in (length line.now + 1) (words_left line.now at.old)
        result (words_left line.now at.new) }
{
    let word = take_word(line, at)?;
    signed(word.letters).ok_or(word.wrong(ScriptCause::Number))
}

/// A region, by its number or as `frame`.
pub(crate) fn take_region(line: &[u8], at: &mut usize) -> Result<u32, LineFault>
    requires { length line.now ≤ MAX_INPUT_BYTES }
    ensures { IsTaken region_rule (named_number (codes "frame") SVGA_GMR_FRAMEBUFFER) (length line.now + 1)
        (words_left line.now at.old) result (words_left line.now at.new) }
{
    let word = take_word(line, at)?;
    number_or("frame", SVGA_GMR_FRAMEBUFFER, word.letters).ok_or(word.wrong(ScriptCause::Number))
}

/// A screen, by its number or as `all`.
pub(crate) fn take_screen(line: &[u8], at: &mut usize) -> Result<u32, LineFault>
    requires { length line.now ≤ MAX_INPUT_BYTES }
    ensures { IsTaken screen_rule (named_number (codes "all") SVGA_ID_INVALID) (length line.now + 1)
        (words_left line.now at.old) result (words_left line.now at.new) }
{
    let word = take_word(line, at)?;
    number_or("all", SVGA_ID_INVALID, word.letters).ok_or(word.wrong(ScriptCause::Number))
}

/// A format, by its bits.
pub(crate) fn take_format(line: &[u8], at: &mut usize) -> Result<Format, LineFault>
    requires { length line.now ≤ MAX_INPUT_BYTES }
    ensures { IsTaken (spelled (λ letters. is_some (format_in letters)) OtherWord)
        (λ letters. unwrap_or (format_in letters) Bgrx32) (length line.now + 1) (words_left line.now at.old)
        result (words_left line.now at.new) }
{
    let word = take_word(line, at)?;
    format_of(word.letters).ok_or(word.wrong(ScriptCause::Word))
}

/// How a driver is to write its commands.
pub(crate) fn take_way(line: &[u8], at: &mut usize) -> Result<Way, LineFault>
    requires { length line.now ≤ MAX_INPUT_BYTES }
    ensures { IsTaken (spelled (λ letters. is_some (way_in letters)) OtherWord)
        (λ letters. unwrap_or (way_in letters) Reserve) (length line.now + 1) (words_left line.now at.old)
        result (words_left line.now at.new) }
{
    let word = take_word(line, at)?;
    way_of(word.letters).ok_or(word.wrong(ScriptCause::Word))
}

/// A key.
pub(crate) fn take_key(line: &[u8], at: &mut usize) -> Result<PageKey, LineFault>
    requires { length line.now ≤ MAX_INPUT_BYTES }
    ensures { IsTaken key_rule key_in (length line.now + 1) (words_left line.now at.old)
        result (words_left line.now at.new) }
{
    let word = take_word(line, at)?;
    key(word.letters).ok_or(word.wrong(ScriptCause::Word))
}

/// Several keys, ascending.
pub(crate) fn take_keys(line: &[u8], at: &mut usize) -> Result<Keys, LineFault>
    requires { length line.now ≤ MAX_INPUT_BYTES }
    ensures { IsTaken keys_rule keys_read (length line.now + 1) (words_left line.now at.old)
        result (words_left line.now at.new) }
{
    let word = take_word(line, at)?;
    let keys = keys_of(word.letters).ok_or(word.wrong(ScriptCause::Word))?;
    if keys_end_within(keys) {
        Ok(keys)
    } else {
        Err(word.wrong(ScriptCause::Limit))
    }
}

/// A run of a line whose runs before it have so many pages.
pub(crate) fn take_run(line: &[u8], at: &mut usize, pages: u32) -> Result<Run, LineFault>
    requires few { length line.now ≤ MAX_INPUT_BYTES }
    requires before { pages ≤ MAX_MAP_PAGES }
    ensures range { IfOk result (λ run. pages + run.count ≤ MAX_MAP_PAGES) }
    ensures taken { IsTaken (run_behind pages) run_read (length line.now + 1) (words_left line.now at.old)
        result (words_left line.now at.new) }
{
    let word = take_word(line, at)?;
    let run = run_of(word.letters).ok_or(word.wrong(ScriptCause::Word))?;
    if ends_within(run.first, run.count) && run.count <= MAX_MAP_PAGES - pages {
        Ok(run)
    } else {
        Err(word.wrong(ScriptCause::Limit))
    }
}

/// The digits of 1 to 4,096 bytes.
pub(crate) fn take_hex<'a>(line: &'a [u8], at: &mut usize) -> Result<&'a [u8], LineFault>
    requires { length line.now ≤ MAX_INPUT_BYTES }
    ensures pairs { IfOk result (λ digits. pairs digits.now ≡ true) }
    ensures taken { AreTaken (spelled is_hex Number) (length line.now + 1) (words_left line.now at.old)
        result (words_left line.now at.new) }
{
    let word = take_word(line, at)?;
    let digits = word.letters;
    if are_pairs(digits) && 2 <= digits.len() && digits.len() <= 2 * PAGE_SIZE {
        Ok(digits)
    } else {
        Err(word.wrong(ScriptCause::Number))
    }
}

/// A byte, by its two digits.
pub(crate) fn take_hex_byte(line: &[u8], at: &mut usize) -> Result<u8, LineFault>
    requires { length line.now ≤ MAX_INPUT_BYTES }
    ensures { IsTaken (spelled is_hex_byte Number) (λ letters. slice_index_or (hex_in letters) 0 0)
        (length line.now + 1) (words_left line.now at.old) result (words_left line.now at.new) }
{
    let word = take_word(line, at)?;
    hex_byte(word.letters).ok_or(word.wrong(ScriptCause::Number))
}
