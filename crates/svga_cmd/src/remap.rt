//! The entries of a remap: page numbers listed, given once, or to be read from a region.
ghost use Rattle.std.specs.Prelude.{◌≡◌};
ghost use Rattle.svga_cmd.specs.Words.{flags_of};

use crate::gmrfb::GuestPtr;
use crate::page_list::PageList;
use crate::remap_flags::RemapFlags;
use bitflags::Flags;

/// The entries of a remap.
#[derive(Debug, Drop)]
pub enum RemapData {
    /// A page number for each place.
    Ppn32(PageList),
    /// A page number of 64 bits for each place, its low word first.
    Ppn64(PageList),
    /// One page number for all places.
    SinglePpn32(u32),
    /// One page number of 64 bits for all places.
    SinglePpn64 { low: u32, high: u32 },
    /// Page numbers that stand in a region, from this byte on.
    ViaGmr32(GuestPtr),
    /// Page numbers of 64 bits that stand in a region, from this byte on.
    ViaGmr64(GuestPtr),
}

/// The entries of a remap, lent by whoever read them.
#[derive(Clone, Copy, Debug)]
pub enum EntriesRef<'a> {
    Ppn32(&'a [u32]),
    Ppn64(&'a [u32]),
    SinglePpn32(u32),
    SinglePpn64 { low: u32, high: u32 },
    ViaGmr32(GuestPtr),
    ViaGmr64(GuestPtr),
}

impl RemapData {
    /// How these entries are given.
    pub(crate) fn flags(&self) -> RemapFlags
        ensures { result.0 ≡ flags_of self.now }
    {
        match self {
            RemapData::Ppn32(_) => RemapFlags::empty(),
            RemapData::Ppn64(_) => RemapFlags::PPN64,
            RemapData::SinglePpn32(_) => RemapFlags::SINGLE_PPN,
            RemapData::SinglePpn64 { .. } => RemapFlags::SINGLE_PPN.union(RemapFlags::PPN64),
            RemapData::ViaGmr32(_) => RemapFlags::VIA_GMR,
            RemapData::ViaGmr64(_) => RemapFlags::VIA_GMR.union(RemapFlags::PPN64),
        }
    }
}
