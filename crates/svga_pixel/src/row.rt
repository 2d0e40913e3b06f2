//! Rows of pixels.
ghost use Rattle.std.specs.Prelude.{◌≡◌, ◌*◌, ◌<◌, All, length};
ghost use Rattle.svga_model.specs.Colours.{pixel_length, row_bytes, row_colours};

use crate::bgr::{Bgr24, Bgrx32};
use crate::layout::Layout;
use crate::sixteen::{Rgb555, Rgb565};
use crate::wide::read_wide;
use svga_cmd::Format;
use svga_cmd::constants::COLOURS;

/// Reads a row: each colour becomes that of its pixel's bytes.
pub fn read_row(format: Format, bytes: &[u8], colours: &mut [u32])
    requires { length bytes.now ≡ length colours.old * pixel_length format }
    ensures colours { colours.new ≡ row_colours format (length colours.old) bytes.now }
    ensures in_range { All (λ c. c < COLOURS) colours.new }
{
    // The format is looked at once a row, so that each loop is tight.
    match format {
        Format::Bgrx32 => read::<Bgrx32>(bytes, colours),
        Format::Bgr24 => read_wide::<Bgr24>(bytes, colours),
        Format::Rgb565 => read_wide::<Rgb565>(bytes, colours),
        Format::Rgb555 => read_wide::<Rgb555>(bytes, colours),
    }
}

/// Writes a row: each pixel's bytes become those of its colour.
pub fn write_row(format: Format, colours: &[u32], bytes: &mut [u8])
    requires in_range { All (λ c. c < COLOURS) colours.now }
    requires whole { length bytes.old ≡ length colours.now * pixel_length format }
    ensures { bytes.new ≡ row_bytes format colours.now }
{
    match format {
        Format::Bgrx32 => write::<Bgrx32>(colours, bytes),
        Format::Bgr24 => write::<Bgr24>(colours, bytes),
        Format::Rgb565 => write::<Rgb565>(colours, bytes),
        Format::Rgb555 => write::<Rgb555>(colours, bytes),
    }
}

/// What holds of each row of bytes, for whoever names its colours before they are read. It does nothing.
pub fn row_facts(format: Format, bytes: &[u8], count: usize)
    requires { length bytes.now ≡ count * pixel_length format }
    ensures in_range { All (λ c. c < COLOURS) (row_colours format count bytes.now) }
{
    let _length = bytes.len();
    let _format = format;
}

/// Reads a row pixel by pixel.
pub(crate) fn read<L: Layout>(bytes: &[u8], colours: &mut [u32])
    requires { length bytes.now ≡ length colours.old * pixel_length L.format }
    ensures colours { colours.new ≡ row_colours L.format (length colours.old) bytes.now }
    ensures in_range { All (λ c. c < COLOURS) colours.new }
{
    let length = L::length();
    for k in 0..colours.len() {
        let at = k * length;
        colours[k] = L::widen(&bytes[at..at + length]);
    }
}

/// Writes a row pixel by pixel.
pub(crate) fn write<L: Layout>(colours: &[u32], bytes: &mut [u8])
    requires in_range { All (λ c. c < COLOURS) colours.now }
    requires whole { length bytes.old ≡ length colours.now * pixel_length L.format }
    ensures { bytes.new ≡ row_bytes L.format colours.now }
{
    let length = L::length();
    for (k, colour) in colours.iter().enumerate() {
        let at = k * length;
        L::narrow(*colour, &mut bytes[at..at + length]);
    }
}
