//! Rows that are read eight pixels at a time.
ghost use Rattle.std.specs.Prelude.{◌≡◌, ◌+◌, ◌*◌, ◌<◌, ◌≤◌, All, length};
ghost use Rattle.svga_model.specs.Colours.{pixel_length, row_colours};

use crate::layout::Layout;
use crate::row::read;
use svga_cmd::constants::COLOURS;

/// A layout of which eight pixels are read at once.
pub trait Wide: Layout {
    /// Reads the first eight pixels. It may look at four bytes more.
    fn read_eight(bytes: &[u8], colours: &mut [u32])
        requires bytes { 8 * pixel_length Self.format + 4 ≤ length bytes.now }
        requires eight { length colours.old ≡ 8 }
        ensures colours { colours.new ≡ row_colours Self.format 8 bytes.now }
        ensures in_range { All (λ c. c < COLOURS) colours.new };
}

/// Reads a row, at its end pixel by pixel.
pub fn read_wide<L: Wide>(bytes: &[u8], colours: &mut [u32])
    requires { length bytes.now ≡ length colours.old * pixel_length L.format }
    ensures colours { colours.new ≡ row_colours L.format (length colours.old) bytes.now }
    ensures in_range { All (λ c. c < COLOURS) colours.new }
{
    let length = L::length();
    let mut k = 0;
    while k + 10 <= colours.len() {
        L::read_eight(&bytes[k * length..], &mut colours[k..k + 8]);
        k += 8;
    }
    read::<L>(&bytes[k * length..], &mut colours[k..]);
}
