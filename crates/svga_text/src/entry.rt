//! The entries of a remap as numbers.
ghost use Rattle.std.specs.Prelude.{◌≡◌, ◌<◌, length, slice_index};
ghost use Rattle.svga_cmd.specs.Lent.{entries_of};
ghost use Rattle.svga_cmd.specs.WellFormed.{HasEntries};
ghost use Rattle.svga_text.specs.CommandLines.{entry_numbers, wide, wide_numbers};

use svga_cmd::EntriesRef;

/// How many numbers the entries of a remap of so many pages are written as.
pub fn entry_count(entries: &EntriesRef<'_>, pages: u32) -> u32
    requires { HasEntries (entries_of entries.now) pages }
    ensures { result ≡ length (entry_numbers (entries_of entries.now)) }
{
    match entries {
        EntriesRef::Ppn32(_) => pages,
        EntriesRef::Ppn64(_) => pages,
        EntriesRef::SinglePpn32(_) => 1,
        EntriesRef::SinglePpn64 { low: _, high: _ } => 1,
        EntriesRef::ViaGmr32(_) => 2,
        EntriesRef::ViaGmr64(_) => 2,
    }
}

/// The number at place `i` of the entries.
pub fn entry_at(entries: &EntriesRef<'_>, i: usize) -> u64
    requires { i < length (entry_numbers (entries_of entries.now)) }
    ensures { result ≡ slice_index (entry_numbers (entries_of entries.now)) i }
{
    match entries {
        EntriesRef::Ppn32(words) => narrow_at(words, i),
        EntriesRef::Ppn64(words) => wide_at(words, i),
        EntriesRef::SinglePpn32(page) => u64::from(*page),
        EntriesRef::SinglePpn64 { low, high } => wide_number(*low, *high),
        EntriesRef::ViaGmr32(pointer) => u64::from([pointer.region, pointer.offset][i]),
        EntriesRef::ViaGmr64(pointer) => u64::from([pointer.region, pointer.offset][i]),
    }
}

fn narrow_at(words: &[u32], i: usize) -> u64
    requires { i < length words.now }
    ensures { result ≡ slice_index words.now i }
{
    u64::from(words[i])
}

fn wide_at(words: &[u32], i: usize) -> u64
    requires { i < length (wide_numbers words.now) }
    ensures { result ≡ slice_index (wide_numbers words.now) i }
{
    wide_number(words[2 * i], words[2 * i + 1])
}

fn wide_number(low: u32, high: u32) -> u64
    ensures { result ≡ wide low high }
{
    u64::from(low) + (u64::from(high) << 32)
}
