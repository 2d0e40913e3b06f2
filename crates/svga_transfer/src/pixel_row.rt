//! Rows of pixels that are painted from the bytes that they have.
ghost use Rattle.std.specs.Prelude.{◌≡◌, ◌*◌, length};
ghost use Rattle.svga_model.specs.Colours.{pixel_length, row_colours};

use svga_cmd::Format;
use svga_pixel::read_row;
use svga_rows::Fill;

/// The bytes of so many pixels.
#[derive(Drop)]
pub(crate) struct PixelRow<'a> {
    pub(crate) format: Format,
    pub(crate) count: usize,
    pub(crate) bytes: &'a [u8],
    ghost whole: { length bytes.now ≡ count * pixel_length format },
}

impl<'a> Fill<u32> for PixelRow<'a> {
    ghost values = { λ row. row_colours row.format row.count row.bytes.now };

    fn fill(&self, part: &mut [u32]) {
        read_row(self.format, self.bytes, part);
    }
}
