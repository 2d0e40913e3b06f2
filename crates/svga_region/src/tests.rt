//! Regions and chains by worked values, and that memory is found where there is some.
ghost use Rattle.std.specs.Prelude.{◌≡◌, ◌+◌, ◌*◌, ◌≤◌, ◌<◌, ℕ, IfOk, length};

use crate::Regions;
use crate::reading::read_chain;
use byteorder::{ByteOrder, LittleEndian};
use std::alloc::{AllocError, Global};
use std::test::Fail;
use svga_cmd::{EntriesRef, Fault, Page, PageKey};

/// Writes words into a table page from a descriptor on.
fn put_words(page: &mut Page, pair: usize, words: &[u32])
    requires { 8 * pair + 4 * length words.now ≤ 4096 }
{
    let bytes = page.bytes_mut();
    for (i, word) in words.iter().enumerate() {
        LittleEndian::write_u32(&mut bytes[8 * pair + 4 * i..], *word);
    }
}

/// A guest of 32 pages: at page 5 a chain of two table pages, at 6 one that goes round, at 8 one that runs
/// off its page, at 9 and 10 a run and a link past the last page.
fn guest(alloc: Global) -> Result<Vec<Page>, AllocError>
    ensures { IfOk result (λ pages. length pages.items ≡ 32) }
{
    let mut pages = Vec::new(alloc);
    for k in 0..32u32 {
        let mut page = Page::new(alloc)?;
        match k {
            5 => put_words(&mut page, 0, &[10, 2, 7, 0]),
            6 => put_words(&mut page, 0, &[6, 0]),
            7 => put_words(&mut page, 0, &[20, 1, 0, 0]),
            8 => {
                for pair in 0..512 {
                    put_words(&mut page, pair, &[3, 1]);
                }
            }
            9 => put_words(&mut page, 0, &[30, 3]),
            10 => put_words(&mut page, 0, &[32, 0]),
            _ => {}
        }
        pages.push(page)?;
    }
    Ok(pages)
}

/// Whether the region has exactly these guest pages.
fn has_pages(regions: &Regions, id: u32, numbers: &[u32]) -> bool {
    let Some(count) = regions.length(id) else {
        return false;
    };
    if numbers.len() != count as usize {
        return false;
    }
    for k in 0..count {
        if regions.place(id, k) != Some(PageKey::Guest(numbers[k as usize])) {
            return false;
        }
    }
    true
}

#[test]
fn chains_by_their_descriptors(rt: HostRuntime) -> Result<(), Fail> {
    let alloc = rt.alloc();
    let mut regions = Regions::new(alloc, 32, 1)?;
    let pages = guest(alloc)?;
    assert_eq!(rt; read_chain(&mut regions, 1, 5, &pages), Ok(()));
    assert!(rt; has_pages(&regions, 1, &[10, 11, 20]));
    let faults = [
        (6, Fault::ChainLimit),
        (8, Fault::ChainEnd),
        (9, Fault::BadPage),
        (10, Fault::BadPage),
        (32, Fault::BadPage),
    ];
    for (first, fault) in faults {
        let mut regions = Regions::new(alloc, 32, 1)?;
        assert_eq!(rt;
            read_chain(&mut regions, 1, first, &pages),
            Err(fault),
            "at {first}"
        );
        assert_eq!(rt; regions.length(1), None);
    }
    Ok(())
}

#[test]
fn empty_chains(rt: HostRuntime) -> Result<(), Fail> {
    let alloc = rt.alloc();
    let mut regions = Regions::new(alloc, 32, 1)?;
    let pages = guest(alloc)?;
    assert_eq!(rt; read_chain(&mut regions, 2, 31, &pages), Ok(()));
    assert_eq!(rt; regions.length(2), Some(0));
    let mut regions = Regions::new(alloc, 32, 1)?;
    assert_eq!(rt; regions.define(2, 1), Ok(()));
    assert_eq!(rt; read_chain(&mut regions, 2, 0, &pages), Ok(()));
    assert_eq!(rt; regions.length(2), None);
    Ok(())
}

#[test]
fn neighbours_stay(rt: HostRuntime) -> Result<(), Fail> {
    let mut regions = Regions::new(rt.alloc(), 64, 1)?;
    for (id, numbers) in [(1, [10, 11]), (2, [20, 21]), (3, [30, 31])] {
        assert_eq!(rt; regions.define(id, 2), Ok(()));
        assert_eq!(rt;
            regions.remap(id, 0, 2, EntriesRef::Ppn32(&numbers)),
            Ok(())
        );
    }
    for pages in [0, 3, 1] {
        assert_eq!(rt; regions.define(2, pages), Ok(()));
        assert!(rt; has_pages(&regions, 1, &[10, 11]), "at {pages}");
        assert!(rt; has_pages(&regions, 3, &[30, 31]), "at {pages}");
    }
    assert_eq!(rt; regions.locate(2, 0), Err(Fault::Unmapped));
    Ok(())
}

#[test]
fn places_have_a_limit(rt: HostRuntime) -> Result<(), Fail> {
    let mut regions = Regions::new(rt.alloc(), 1, 8192)?;
    let answers = [
        (4095, 65537, Err(Fault::PlaceLimit)),
        (4095, 65536, Ok(())),
        (0, 1, Err(Fault::PlaceLimit)),
        (4095, 65536, Ok(())),
        (4096, 1, Err(Fault::RegionId)),
        (0xFFFF_FFFE, 0, Err(Fault::RegionId)),
        (4095, 0, Ok(())),
        (0, 1, Ok(())),
    ];
    for (id, pages, answer) in answers {
        assert_eq!(rt; regions.define(id, pages), answer, "at {id} {pages}");
    }
    assert_eq!(rt; regions.length(0xFFFF_FFFE), Some(8192));
    Ok(())
}

#[test]
fn remaps_by_their_entries(rt: HostRuntime) -> Result<(), Fail> {
    let mut regions = Regions::new(rt.alloc(), 32, 2)?;
    let bad = Err(Fault::BadPage);
    assert_eq!(rt; regions.define(1, 4), Ok(()));
    assert_eq!(rt; regions.remap(1, 0, 4, EntriesRef::SinglePpn32(7)), Ok(()));
    assert!(rt; has_pages(&regions, 1, &[7, 7, 7, 7]));
    assert_eq!(rt;
        regions.remap(1, 1, 2, EntriesRef::Ppn64(&[31, 0, 4, 0])),
        Ok(())
    );
    assert_eq!(rt;
        regions.remap(1, 3, 1, EntriesRef::SinglePpn64 { low: 9, high: 0 }),
        Ok(())
    );
    assert_eq!(rt; regions.remap(1, 4, 0, EntriesRef::SinglePpn32(32)), bad);
    assert_eq!(rt;
        regions.remap(1, 0, 2, EntriesRef::Ppn64(&[3, 0, 3, 1])),
        bad
    );
    assert_eq!(rt;
        regions.remap(1, 4, 1, EntriesRef::Ppn32(&[32])),
        Err(Fault::RangeBeyond)
    );
    assert_eq!(rt;
        regions.remap(2, 0, 0, EntriesRef::Ppn32(&[])),
        Err(Fault::NoRegion)
    );
    assert!(rt; has_pages(&regions, 1, &[7, 31, 4, 9]));
    Ok(())
}

#[test]
fn lengths_are_judged_alone(rt: HostRuntime) -> Result<(), Fail> {
    let mut regions = Regions::new(rt.alloc(), 32, 1)?;
    assert_eq!(rt; regions.define(1, 4), Ok(()));
    let answers = [
        (1, 65536, Ok(())),
        (1, 65537, Err(Fault::PlaceLimit)),
        (2, 65532, Ok(())),
        (2, 65533, Err(Fault::PlaceLimit)),
        (4096, 0, Err(Fault::RegionId)),
    ];
    for (id, pages, answer) in answers {
        assert_eq!(rt; regions.may_define(id, pages), answer, "at {id} {pages}");
    }
    assert_eq!(rt; regions.length(1), Some(4));
    assert_eq!(rt; regions.length(2), None);
    Ok(())
}

#[test]
fn ranges_are_judged_alone(rt: HostRuntime) -> Result<(), Fail> {
    let mut regions = Regions::new(rt.alloc(), 32, 1)?;
    assert_eq!(rt; regions.define(1, 4), Ok(()));
    let answers = [
        (1, 0, 4, Ok(())),
        (1, 4, 0, Ok(())),
        (1, 1, 4, Err(Fault::RangeBeyond)),
        (1, 0xFFFF_FFFF, 1, Err(Fault::RangeBeyond)),
        (2, 0, 0, Err(Fault::NoRegion)),
        (4096, 0, 0, Err(Fault::RegionId)),
    ];
    for (id, offset, pages, answer) in answers {
        assert_eq!(rt;
            regions.may_remap_range(id, offset, pages),
            answer,
            "at {id} {offset} {pages}"
        );
    }
    Ok(())
}

#[test]
fn remaps_are_judged_alone(rt: HostRuntime) -> Result<(), Fail> {
    let mut regions = Regions::new(rt.alloc(), 32, 1)?;
    let bad = EntriesRef::SinglePpn32(32);
    assert_eq!(rt; regions.define(1, 4), Ok(()));
    assert_eq!(rt;
        regions.may_remap(1, 2, 2, EntriesRef::Ppn32(&[31, 0])),
        Ok(())
    );
    assert_eq!(rt;
        regions.may_remap(1, 2, 2, EntriesRef::Ppn32(&[31, 32])),
        Err(Fault::BadPage)
    );
    let answers = [
        (1, 4, 0, Err(Fault::BadPage)),
        (1, 4, 1, Err(Fault::RangeBeyond)),
        (2, 0, 1, Err(Fault::NoRegion)),
        (4096, 0, 1, Err(Fault::RegionId)),
    ];
    for (id, offset, pages, answer) in answers {
        assert_eq!(rt;
            regions.may_remap(id, offset, pages, bad),
            answer,
            "at {id} {offset} {pages}"
        );
    }
    assert_eq!(rt; regions.place(1, 2), None);
    Ok(())
}

#[test]
fn bytes_by_their_places(rt: HostRuntime) -> Result<(), Fail> {
    let mut regions = Regions::new(rt.alloc(), 32, 2)?;
    assert_eq!(rt; regions.define(1, 2), Ok(()));
    assert_eq!(rt; regions.remap(1, 0, 2, EntriesRef::Ppn32(&[7, 31])), Ok(()));
    let places = [
        (1, 4095, Ok((PageKey::Guest(7), 4095))),
        (1, 4096, Ok((PageKey::Guest(31), 0))),
        (1, 8192, Err(Fault::BeyondRegion)),
        (0xFFFF_FFFE, 4097, Ok((PageKey::Frame(1), 1))),
        (0xFFFF_FFFE, 8192, Err(Fault::BeyondRegion)),
        (2, 0, Err(Fault::NoRegion)),
        (4096, 0, Err(Fault::RegionId)),
    ];
    for (id, byte, answer) in places {
        assert_eq!(rt; regions.locate(id, byte), answer, "at {id} {byte}");
    }
    Ok(())
}
