//! Bytes in hexadecimal digits.
ghost use Rattle.std.specs.Prelude.{◌≡◌, ◌<◌, ◌+◌, ◌*◌, if◌then◌else◌, IfOk, IsTrue, None, Some, slice_index_or};
ghost use Rattle.svga_model.specs.ScriptWords.{are_pairs as pairs, hex_in, hex_value, is_hex_byte, is_hex_digit as is_digit};

use std::alloc::{AllocError, Global};

/// Whether the letters are pairs of digits.
pub(crate) fn are_pairs(letters: &[u8]) -> bool
    ensures { result ≡ pairs letters.now }
{
    for letter in letters {
        if !is_hex_digit(*letter) {
            return false;
        }
    }
    letters.len() % 2 == 0
}

/// Whether a letter is one of 0 to 9 and a to f.
fn is_hex_digit(letter: u8) -> bool
    ensures { result ≡ is_digit letter }
{
    letter.is_ascii_digit() || (b'a' <= letter && letter <= b'f')
}

/// The number of a digit.
fn value(digit: u8) -> u8
    requires { IsTrue (is_digit digit) }
    ensures number { result ≡ hex_value digit }
    ensures small { result < 16 }
{
    if digit < b'a' {
        digit - b'0'
    } else {
        digit - 87
    }
}

/// The byte of a pair of digits.
fn byte(high: u8, low: u8) -> u8
    requires high { IsTrue (is_digit high) }
    requires low { IsTrue (is_digit low) }
    ensures { result ≡ 16 * hex_value high + hex_value low }
{
    16 * value(high) + value(low)
}

/// The byte that two digits spell, if the letters are two digits.
pub(crate) fn hex_byte(letters: &[u8]) -> Option<u8>
    ensures { result ≡ (if is_hex_byte letters.now then Some (slice_index_or (hex_in letters.now) 0 0)
        else None) }
{
    match letters {
        [high, low] => {
            if is_hex_digit(*high) && is_hex_digit(*low) {
                Some(byte(*high, *low))
            } else {
                None
            }
        }
        _ => None,
    }
}

/// The bytes of pairs of digits.
pub(crate) fn bytes(alloc: Global, letters: &[u8]) -> Result<Vec<u8>, AllocError>
    requires { IsTrue (pairs letters.now) }
    ensures { IfOk result (λ bytes. bytes.items ≡ hex_in letters.now) }
{
    let mut bytes = Vec::new(alloc);
    for i in 0..letters.len() / 2 {
        bytes.push(byte(letters[2 * i], letters[2 * i + 1]))?;
    }
    Ok(bytes)
}
