//! One field.
ghost use Rattle.std.specs.Prelude.{◌≡◌, ◌+◌, ◌≤◌, IfOk, None, Some, if◌then◌else◌, length, nat_lt};
ghost use Rattle.std.specs.Result.{result_err};
ghost use Rattle.svga_cmd.specs.declared.capture_cause.CaptureCause.TheVariants as cause_named;
ghost use Rattle.svga_model.specs.CaptureFields.{flaw_of, is_above, is_between, word_field};
ghost use Rattle.svga_model.specs.Walks.{little_word};

use crate::fault::Wrong;
use byteorder::{ByteOrder, LittleEndian};
use svga_cmd::CaptureCause;
use svga_cmd::capture_layout::WORD_SIZE;
use svga_cmd::constants::MAX_INPUT_BYTES;

/// That a field of so many bytes from byte `at` on is there.
pub(crate) fn there(bytes: &[u8], at: u32, size: u32) -> Result<(), Wrong>
    requires { length bytes.now ≤ MAX_INPUT_BYTES }
    ensures wrong { result_err result ≡ (if nat_lt (length bytes.now) (at + size)
        then Some (length bytes.now, cause_named.Short) else None) }
    ensures within { IfOk result (λ _. at + size ≤ length bytes.now) }
{
    if (bytes.len() as u64) < u64::from(at) + u64::from(size) {
        Err((bytes.len() as u32, CaptureCause::Short))
    } else {
        Ok(())
    }
}

/// The word of the field at byte `at`, which is there.
pub(crate) fn word(bytes: &[u8], at: u32) -> u32
    requires { at + WORD_SIZE ≤ length bytes.now }
    ensures { result ≡ little_word bytes.now at }
{
    let at = at as usize;
    LittleEndian::read_u32(&bytes[at..at + WORD_SIZE as usize])
}

/// That a rule holds of the field at byte `at`.
pub(crate) fn holds(rule: bool, at: u32, cause: CaptureCause) -> Result<(), Wrong>
    ensures { result_err result ≡ (if rule then None else Some (at, cause)) }
{
    if rule { Ok(()) } else { Err((at, cause)) }
}

/// The word of the field at byte `at`, if all of it is there.
pub(crate) fn number(bytes: &[u8], at: u32) -> Result<u32, Wrong>
    requires { length bytes.now ≤ MAX_INPUT_BYTES }
    ensures wrong { result_err result
        ≡ flaw_of bytes.now (record { at = at; size = WORD_SIZE; breaks = None }) }
    ensures number { IfOk result (λ n. n ≡ little_word bytes.now at) }
    ensures within { IfOk result (λ _. at + WORD_SIZE ≤ length bytes.now) }
{
    there(bytes, at, WORD_SIZE)?;
    Ok(word(bytes, at))
}

/// The number from `low` to `high` of the field at byte `at`.
pub(crate) fn number_between(bytes: &[u8], at: u32, low: u32, high: u32) -> Result<u32, Wrong>
    requires { length bytes.now ≤ MAX_INPUT_BYTES }
    ensures wrong { result_err result ≡ flaw_of bytes.now (word_field bytes.now at (is_between low high)) }
    ensures number { IfOk result (λ n. n ≡ little_word bytes.now at) }
    ensures least { IfOk result (λ n. low ≤ n) }
    ensures most { IfOk result (λ n. n ≤ high) }
{
    let number = number(bytes, at)?;
    holds(low <= number && number <= high, at, CaptureCause::Number)?;
    Ok(number)
}

/// Whether an id or a key's word is above the one before, if there is one.
pub(crate) fn comes_after(last: Option<u32>, number: u32) -> bool
    ensures { result ≡ is_above last number }
{
    match last {
        None => true,
        Some(last) => last < number,
    }
}
