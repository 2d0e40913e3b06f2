//! Words of a region.
ghost use Rattle.std.specs.Prelude.{◌≡◌, ◌+◌, ◌*◌, ◌≤◌, length, map as map_list};
ghost use Rattle.std.specs.List.{range_with_len};
ghost use Rattle.svga_model.specs.Walks.{word_at};
ghost use Rattle.svga_region.specs.RegionSet.{places_in};
ghost use Rattle.svga_transfer.specs.Reach.{HasBytes, byte_in};

use crate::bytes::read_bytes;
use byteorder::{ByteOrder, LittleEndian};
use svga_cmd::PageStore;
use svga_cmd::constants::MAX_ENTRY_WORDS;
use svga_region::Regions;

/// Reads words of 32 bits, the low byte first, that stand one behind another in a region from byte `from`
/// on: at most 131,072 of them, as many as a remap has.
pub fn read_words<P: PageStore>(
    regions: &Regions,
    store: &P,
    region: u32,
    from: u32,
    words: &mut [u32],
)
    requires few { length words.old ≤ MAX_ENTRY_WORDS }
    requires there { HasBytes (P.pages store.now) (places_in regions.now region) from (4 * length words.old) }
    ensures { words.new ≡ map_list (λ k. word_at (byte_in (P.pages store.now) regions.now region)
        (from + 4 * k)) (range_with_len 0 (length words.old)) }
{
    for k in 0..words.len() {
        let mut bytes = [0; 4];
        read_bytes(
            regions,
            store,
            region,
            u64::from(from) + 4 * k as u64,
            &mut bytes,
        );
        words[k] = LittleEndian::read_u32(&bytes);
    }
}
