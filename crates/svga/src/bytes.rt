//! Bytes as words, and how bytes behind the last word change an ending.
ghost use Rattle.std.specs.Prelude.{◌≡◌, ◌≤◌, length, IfOk};
ghost use Rattle.svga.specs.Bytes.{torn_by, words_in};

use byteorder::{ByteOrder, LittleEndian};
use std::alloc::{AllocError, Global};
use svga_cmd::constants::MAX_INPUT_BYTES;
use svga_decode::Ending;

/// The words in these bytes, the lowest byte of each first. Bytes that are no whole word are left out.
pub fn words_of(alloc: Global, bytes: &[u8]) -> Result<Vec<u32>, AllocError>
    ensures { IfOk result (λ words. words.items ≡ words_in bytes.now) }
{
    let count = bytes.len() / 4;
    let mut words = vec![in alloc; 0u32; count]?;
    LittleEndian::read_u32_into(&bytes[..4 * count], &mut words);
    Ok(words)
}

/// How the bytes end whose words end so.
pub fn ending_of(bytes: &[u8], ending: Ending) -> Ending
    requires { length bytes.now ≤ MAX_INPUT_BYTES }
    ensures { result ≡ torn_by bytes.now ending }
{
    match ending {
        Ending::Whole if bytes.len() % 4 != 0 => Ending::Torn {
            word: (bytes.len() / 4) as u32,
        },
        ending => ending,
    }
}
