//! Keys, and several numbers or keys by the first and a count.
ghost use Rattle.std.specs.Prelude.{◌≡◌, ◌≢◌, ◌<◌, ◌≤◌, ℕ, if◌then◌else◌, Some, None, length, slice_index};
ghost use Rattle.svga_cmd.specs.Pages.{number_in_kind as kind_number};
ghost use Rattle.std.specs.Option.{option_copied};
ghost use Rattle.svga_model.specs.ScriptLines.{ends_within as ends_in};
ghost use Rattle.svga_model.specs.ScriptWords.{are_keys, before_plus, behind_plus, given_count, is_count, is_key_word, is_run_word, key_in};
ghost use Rattle.svga_script.specs.Acts.{keys_read, run_read};

use crate::list::Run;
use crate::number::number;
use svga_cmd::PageKey;

/// The key that the letters spell, if they spell one.
pub(crate) fn key(letters: &[u8]) -> Option<PageKey>
    ensures { result ≡ (if is_key_word letters.now then Some (key_in letters.now) else None) }
{
    match letters {
        [b'p', digits @ ..] => Some(PageKey::Guest(number(digits)?)),
        [b'f', digits @ ..] => Some(PageKey::Frame(number(digits)?)),
        _ => None,
    }
}

/// What stands before the first `+`, and what stands behind it.
#[derive(Clone, Copy)]
pub(crate) struct Parts<'a> {
    pub(crate) first: &'a [u8],
    pub(crate) count: Option<&'a [u8]>,
}

/// The letters in these two parts.
pub(crate) fn parted(letters: &[u8]) -> Parts<'_>
    ensures first { result.first.now ≡ before_plus letters.now }
    ensures count { option_copied result.count ≡ behind_plus letters.now }
{
    let end = plus_at(letters);
    let count = if end < letters.len() {
        Some(&letters[end + 1..])
    } else {
        None
    };
    Parts {
        first: &letters[..end],
        count,
    }
}

/// Where the first `+` stands, or the letters end.
fn plus_at(letters: &[u8]) -> usize
    ensures high { result ≤ length letters.now }
    ensures letters { (k : ℕ) → k < result → slice_index letters.now k ≢ 43 }
    ensures plus { result < length letters.now → slice_index letters.now result ≡ 43 }
{
    for i in 0..letters.len() {
        if letters[i] == b'+' {
            return i;
        }
    }
    letters.len()
}

/// A count, of at least 1; 1 where none is given.
pub(crate) fn count(given: Option<&[u8]>) -> Option<u32>
    ensures { result ≡ (if is_count (option_copied given.entry)
        then Some (given_count (option_copied given.entry)) else None) }
{
    match given {
        None => Some(1),
        Some(letters) => match number(letters)? {
            0 => None,
            count => Some(count),
        },
    }
}

/// So many keys from one on.
#[derive(Clone, Copy)]
pub(crate) struct Keys {
    pub(crate) first: PageKey,
    pub(crate) count: u32,
}

/// The keys that the letters spell, if they spell some.
pub(crate) fn keys_of(letters: &[u8]) -> Option<Keys>
    ensures { result ≡ (if are_keys letters.now then Some (keys_read letters.now) else None) }
{
    let parts = parted(letters);
    let first = key(parts.first)?;
    let count = count(parts.count)?;
    Some(Keys { first, count })
}

/// The run of pages that the letters spell, if they spell one.
pub(crate) fn run_of(letters: &[u8]) -> Option<Run>
    ensures { result ≡ (if is_run_word letters.now then Some (run_read letters.now) else None) }
{
    let parts = parted(letters);
    let first = number(parts.first)?;
    let count = count(parts.count)?;
    Some(Run { first, count })
}

/// Whether the last of the keys has a number of 32 bits.
pub(crate) fn keys_end_within(keys: Keys) -> bool
    ensures { result ≡ ends_in (kind_number keys.first) keys.count }
{
    match keys.first {
        PageKey::Guest(number) => ends_within(number, keys.count),
        PageKey::Frame(number) => ends_within(number, keys.count),
    }
}

/// Whether the last of so many numbers from one on has 32 bits.
pub(crate) fn ends_within(first: u32, count: u32) -> bool
    ensures { result ≡ ends_in first count }
{
    u64::from(first) + u64::from(count) <= 1 << 32
}
