//! Numbers in decimal digits.
ghost use Rattle.std.specs.Prelude.{◌≡◌, ◌-◌, negsuc, if◌then◌else◌, Some, None, nat_le, ◌&&◌};
ghost use Rattle.std.specs.List.{list_all};
ghost use Rattle.svga_model.specs.ScriptWords.{begins_well, is_digit, is_number, is_number_or, is_signed, number_in, number_or as named_number, signed_in};

use crate::name::is_word;

/// The number that the letters spell, if they spell one.
pub(crate) fn number(letters: &[u8]) -> Option<u32>
    ensures { result ≡ (if is_number letters.now then Some (number_in letters.now) else None) }
{
    if begins_as_number(letters) {
        digits(letters)
    } else {
        None
    }
}

/// Whether there are letters, and the first is no zero unless it is the only one.
fn begins_as_number(letters: &[u8]) -> bool
    ensures { result ≡ begins_well letters.now }
{
    match letters {
        [] => false,
        [_] => true,
        [first, ..] => *first != b'0',
    }
}

/// The number of these digits, if all are digits and it has 32 bits.
fn digits(letters: &[u8]) -> Option<u32>
    ensures { result ≡ (if list_all is_digit letters.now && nat_le (number_in letters.now) 4294967295
        then Some (number_in letters.now) else None) }
{
    let mut value: u64 = 0;
    for letter in letters {
        if !letter.is_ascii_digit() {
            return None;
        }
        value = 10 * value + u64::from(*letter - b'0');
        if value > 4_294_967_295 {
            return None;
        }
    }
    Some(value as u32)
}

/// A number, or a name that stands for this one.
pub(crate) fn number_or(name: &str, named: u32, letters: &[u8]) -> Option<u32>
    ensures { result ≡ (if is_number_or name.now letters.now
        then Some (named_number name.now named letters.now) else None) }
{
    if is_word(letters, name) {
        Some(named)
    } else {
        number(letters)
    }
}

/// The signed number that the letters spell, if they spell one.
pub(crate) fn signed(letters: &[u8]) -> Option<i32>
    ensures { result ≡ (if is_signed letters.now then Some (signed_in letters.now) else None) }
{
    match letters {
        [b'-', digits @ ..] => negative(number(digits)?),
        _ => i32::try_from(number(letters)?).ok(),
    }
}

/// The number below 0 with this amount, if it has 32 bits.
fn negative(amount: u32) -> Option<i32>
    ensures { result ≡ (if nat_le 1 amount && nat_le amount 2147483648 then Some (negsuc (amount - 1))
        else None) }
{
    if 1 <= amount && amount <= 2_147_483_648 {
        Some(-1 - (amount - 1) as i32)
    } else {
        None
    }
}
