//! The words of a line.

use svga_cmd::PageKey;

/// A word of a line: a number, a name, a byte or the name of a page.
#[derive(Clone, Copy)]
pub enum Field {
    Unsigned(u32),
    Signed(i32),
    Name(&'static str),
    Byte(u8),
    Key(PageKey),
}
