//! Words that stand for something other than a number.
ghost use Rattle.std.specs.Prelude.{◌≡◌};
ghost use Rattle.svga_model.specs.ScriptWords.{format_of as format_in, is_word as spells, way_of as way_in};

use svga_cmd::{Format, Way};

/// Whether the letters are this word.
pub(crate) fn is_word(letters: &[u8], name: &str) -> bool
    ensures { result ≡ spells name.now letters.now }
{
    letters == name.as_bytes()
}

/// The format of so many bits.
pub(crate) fn format_of(letters: &[u8]) -> Option<Format>
    ensures { result ≡ format_in letters.now }
{
    if is_word(letters, "32") {
        Some(Format::Bgrx32)
    } else if is_word(letters, "24") {
        Some(Format::Bgr24)
    } else if is_word(letters, "16") {
        Some(Format::Rgb565)
    } else if is_word(letters, "15") {
        Some(Format::Rgb555)
    } else {
        None
    }
}

/// How a driver is to write its commands.
pub(crate) fn way_of(letters: &[u8]) -> Option<Way>
    ensures { result ≡ way_in letters.now }
{
    if is_word(letters, "reserve") {
        Some(Way::Reserve)
    } else if is_word(letters, "dword") {
        Some(Way::Dword)
    } else {
        None
    }
}
