//! Eight pixels in lanes.
ghost use Rattle.std.specs.List.{range_with_len};
ghost use Rattle.std.specs.Prelude.{◌≡◌, ◌≤◌, ◌<◌, All, length, map};
ghost use Rattle.svga_cmd.specs.declared.format.Format.TheVariants as format;
ghost use Rattle.svga_model.specs.Colours.{colour_in_555, colour_in_565, pixel_at, row_colours, word_from};

use crate::bgr::Bgr24;
use crate::sixteen::{Rgb555, Rgb565};
use crate::wide::Wide;
use std::simd::prelude::*;

impl Wide for Bgr24 {
    #[inline(always)]
    fn read_eight(bytes: &[u8], colours: &mut [u32]) {
        four(bytes).copy_to_slice(&mut colours[..4]);
        four(&bytes[12..]).copy_to_slice(&mut colours[4..]);
    }
}

impl Wide for Rgb565 {
    #[inline(always)]
    fn read_eight(bytes: &[u8], colours: &mut [u32]) {
        colours_of_565(words(bytes)).copy_to_slice(colours);
    }
}

impl Wide for Rgb555 {
    #[inline(always)]
    fn read_eight(bytes: &[u8], colours: &mut [u32]) {
        colours_of_555(words(bytes)).copy_to_slice(colours);
    }
}

/// The colours of the first four pixels, which have three bytes each.
#[inline(always)]
fn four(bytes: &[u8]) -> u32x4
    requires { 16 ≤ length bytes.now }
    ensures { result ≡ row_colours format.Bgr24 4 bytes.now }
{
    // Each pixel's bytes, and a zero behind them.
    let parts: u8x16 = u8x16::from_slice(bytes).shuffle(
        u8x16::splat(0),
        [0, 1, 2, 16, 3, 4, 5, 16, 6, 7, 8, 16, 9, 10, 11, 16],
    );
    u32x4::from_le_bytes(parts)
}

/// The first eight words.
#[inline(always)]
fn words(bytes: &[u8]) -> u16x8
    requires { 16 ≤ length bytes.now }
    ensures { result ≡ map (λ k. word_from (pixel_at format.Rgb565 bytes.now k)) (range_with_len 0 8) }
{
    u16x8::from_le_bytes(u8x16::from_slice(bytes))
}

/// The colours of eight words: red and blue are widened by `five * 1057 / 128`, which is
/// `five * 8 + five / 4`, and green is so too, but stays in the upper byte.
#[inline(always)]
fn colours_of_565(words: u16x8) -> u32x8
    ensures { result ≡ map colour_in_565 words }
{
    let red = ((words >> u16x8::splat(11)) * u16x8::splat(1057)) >> u16x8::splat(7);
    let green = (((words >> u16x8::splat(5)) & u16x8::splat(63)) * u16x8::splat(1040))
        & u16x8::splat(0xFF00);
    let blue = ((words & u16x8::splat(31)) * u16x8::splat(1057)) >> u16x8::splat(7);
    let low: u32x8 = (green + blue).cast();
    let high: u32x8 = red.cast();
    low + (high << u32x8::splat(16))
}

#[inline(always)]
fn colours_of_555(words: u16x8) -> u32x8
    ensures { result ≡ map colour_in_555 words }
{
    let red = (((words >> u16x8::splat(10)) & u16x8::splat(31)) * u16x8::splat(1057))
        >> u16x8::splat(7);
    let green = (((words >> u16x8::splat(5)) & u16x8::splat(31)) * u16x8::splat(2114))
        & u16x8::splat(0xFF00);
    let blue = ((words & u16x8::splat(31)) * u16x8::splat(1057)) >> u16x8::splat(7);
    let low: u32x8 = (green + blue).cast();
    let high: u32x8 = red.cast();
    low + (high << u32x8::splat(16))
}
