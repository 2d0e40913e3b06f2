//! Numbers in hexadecimal digits.
ghost use Rattle.std.specs.Prelude.{◌≡◌, ◌<◌};
ghost use Rattle.svga_text.specs.Hexadecimal.{hex_byte, hex_colour, hex_digit};

use svga_cmd::constants::COLOURS;

/// The digit of a number below 16.
fn digit_of(n: u8) -> u8
    requires { n < 16 }
    ensures { result ≡ hex_digit n }
{
    b"0123456789abcdef"[n as usize]
}

/// The two digits of a byte.
pub fn digits_of_byte(byte: u8) -> [u8; 2]
    ensures { result ≡ hex_byte byte }
{
    [digit_of(byte / 16), digit_of(byte % 16)]
}

/// The six digits of a colour.
pub fn digits_of_colour(colour: u32) -> [u8; 6]
    requires { colour < COLOURS }
    ensures { result ≡ hex_colour colour }
{
    let [r1, r0] = digits_of_byte((colour / 65536) as u8);
    let [g1, g0] = digits_of_byte((colour / 256 % 256) as u8);
    let [b1, b0] = digits_of_byte((colour % 256) as u8);
    [r1, r0, g1, g0, b1, b0]
}
