//! The formats with a byte for each part of the colour: blue, green and red.
ghost use Rattle.svga_cmd.specs.declared.format.Format.TheVariants as format;

use crate::colour::{blue, green, mix, red};
use crate::layout::Layout;
use byteorder::{ByteOrder, LittleEndian};
use svga_cmd::constants::COLOURS;

/// Four bytes a pixel, the last of them unused.
pub struct Bgrx32;

impl Layout for Bgrx32 {
    ghost format = { format.Bgrx32 };

    fn length() -> usize {
        4
    }

    fn widen(bytes: &[u8]) -> u32 {
        LittleEndian::read_u32(bytes) % COLOURS
    }

    fn narrow(colour: u32, out: &mut [u8]) {
        LittleEndian::write_u32(out, colour);
    }
}

/// Three bytes a pixel.
pub struct Bgr24;

impl Layout for Bgr24 {
    ghost format = { format.Bgr24 };

    fn length() -> usize {
        3
    }

    fn widen(bytes: &[u8]) -> u32 {
        mix(bytes[2], bytes[1], bytes[0])
    }

    fn narrow(colour: u32, out: &mut [u8]) {
        out[0] = blue(colour);
        out[1] = green(colour);
        out[2] = red(colour);
    }
}
