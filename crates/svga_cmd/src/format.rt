//! The pixel formats of a GMRFB, and the word that names each.
ghost use Rattle.std.specs.Prelude.{◌≡◌};
ghost use Rattle.svga_cmd.specs.Words.{format_word};

use crate::constants::{BGR24_WORD, BGRX32_WORD, RGB555_WORD, RGB565_WORD};

/// A pixel format, named by its channels from the lowest byte or the highest bit on, and its bits per pixel.
#[derive(Clone, Copy, Debug, PartialEq, Eq)]
pub enum Format {
    /// 32 bits per pixel, 24 of them colour.
    Bgrx32,
    /// 24 bits per pixel.
    Bgr24,
    /// 16 bits per pixel, 6 of them green.
    Rgb565,
    /// 16 bits per pixel, the highest of them unused.
    Rgb555,
}

impl Format {
    /// The format's word: bits per pixel in its lowest byte, colour depth in the next.
    pub fn word(self) -> u32
        ensures { result ≡ format_word self }
    {
        match self {
            Format::Bgrx32 => BGRX32_WORD,
            Format::Bgr24 => BGR24_WORD,
            Format::Rgb565 => RGB565_WORD,
            Format::Rgb555 => RGB555_WORD,
        }
    }
}
