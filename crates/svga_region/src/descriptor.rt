//! Descriptors of a chain, as a table page holds them.
ghost use Rattle.std.specs.Prelude.{◌≡◌, ◌<◌, length};
ghost use Rattle.svga_model.specs.Walks.{descriptor_in, is_good_run as good_run};
ghost use Rattle.svga_region.specs.Kept.{as_descriptor};

use byteorder::{ByteOrder, LittleEndian};
use svga_cmd::constants::{PAGE_SIZE, TABLE_PAIRS};

/// A page and a count: a run of pages, a link to a table page where the count is 0, or the end where both
/// are.
#[derive(Clone, Copy, Debug)]
pub struct Descriptor {
    pub page: u32,
    pub count: u32,
}

/// The descriptor with this number on a table page.
pub fn read_descriptor(bytes: &[u8], pair: usize) -> Descriptor
    requires length { length bytes.now ≡ PAGE_SIZE }
    requires within { pair < TABLE_PAIRS }
    ensures { as_descriptor result ≡ descriptor_in bytes.now pair }
{
    let at = 8 * pair;
    Descriptor {
        page: LittleEndian::read_u32(&bytes[at..]),
        count: LittleEndian::read_u32(&bytes[at + 4..]),
    }
}

/// Whether it is a run of guest pages.
pub fn is_good_run(descriptor: Descriptor, guest: u32) -> bool
    ensures { result ≡ good_run guest (as_descriptor descriptor) }
{
    descriptor.count > 0 && descriptor.page as u64 + descriptor.count as u64 <= guest as u64
}
