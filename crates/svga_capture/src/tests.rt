//! Captures by worked cases.
use crate::{Capture, CaptureCause, CaptureFault, Cause, ReplayEnd, read_capture, replay};
use std::alloc::{AllocError, Global};
use std::test::Fail;
use svga_cmd::{Fault, PageKey, PageStore};

/// One guest page, a framebuffer and a budget of one pixel, no regions and no pages, and an empty ring of
/// one word.
const SMALL: [u32; 14] = [0x46475653, 1, 20, 1, 1, 1, 1, 0, 0, 16, 20, 16, 16, 0];

/// The number of the word that says how many regions, and how many pages, have records.
const REGIONS: usize = 7;

const PAGES: usize = 8;

/// Appends the words, the low byte of each first.
fn push_words(bytes: &mut Vec<u8>, words: &[u32]) -> Result<(), AllocError> {
    for word in words {
        for byte in word.to_le_bytes() {
            bytes.push(byte)?;
        }
    }
    Ok(())
}

fn bytes_from(alloc: Global, words: &[u32]) -> Result<Vec<u8>, AllocError> {
    let mut bytes = Vec::new(alloc);
    push_words(&mut bytes, words)?;
    Ok(bytes)
}

/// The small capture with another word.
fn small_with(alloc: Global, k: usize, word: u32) -> Result<Vec<u8>, AllocError> {
    let mut words = SMALL;
    if k < words.len() {
        words[k] = word;
    }
    bytes_from(alloc, &words)
}

/// The small capture with this many regions or pages, and what follows.
fn small_and(alloc: Global, k: usize, count: u32, more: &[u32]) -> Result<Vec<u8>, AllocError> {
    let mut bytes = small_with(alloc, k, count)?;
    push_words(&mut bytes, more)?;
    Ok(bytes)
}

/// The small capture with pages' records of these keys.
fn small_pages(alloc: Global, keys: &[u32]) -> Result<Vec<u8>, AllocError> {
    let mut bytes = small_with(alloc, PAGES, u32::try_from(keys.len()).unwrap_or(0))?;
    for key in keys {
        push_words(&mut bytes, &[*key])?;
        for _ in 0..4096 {
            bytes.push(0xEE)?;
        }
    }
    Ok(bytes)
}

fn read(bytes: &[u8]) -> Result<Capture<'_>, CaptureFault> {
    if bytes.len() > 134217728 {
        return Err(CaptureFault::Memory);
    }
    read_capture(bytes)
}

fn told(bytes: &[u8]) -> Result<(), CaptureFault> {
    match read(bytes) {
        Ok(_) => Ok(()),
        Err(fault) => Err(fault),
    }
}

fn wrong(place: u32, cause: CaptureCause) -> Result<(), CaptureFault> {
    Err(CaptureFault::Byte { place, cause })
}

#[test]
fn words_of_header_and_fifo(rt: HostRuntime) -> Result<(), Fail> {
    let alloc = rt.alloc();
    assert_eq!(rt; told(&bytes_from(alloc, &SMALL)?), Ok(()));
    for (k, word, cause) in [
        (0u8, 0x00475653, CaptureCause::Magic),
        (1, 2, CaptureCause::Version),
        (2, 16, CaptureCause::Number),
        (2, 18, CaptureCause::Number),
        (2, 67108868, CaptureCause::Number),
        (3, 0, CaptureCause::Number),
        (3, 16385, CaptureCause::Number),
        (4, 0, CaptureCause::Number),
        (4, 4097, CaptureCause::Number),
        (5, 0, CaptureCause::Number),
        (5, 2049, CaptureCause::Number),
        (6, 0, CaptureCause::Number),
        (6, 33554433, CaptureCause::Number),
        (7, 4097, CaptureCause::Number),
        (8, 3, CaptureCause::Number),
        (9, 12, CaptureCause::Number),
        (9, 18, CaptureCause::Number),
        (9, 20, CaptureCause::Number),
        (10, 24, CaptureCause::Number),
        (11, 12, CaptureCause::Number),
        (11, 20, CaptureCause::Number),
        (12, 17, CaptureCause::Number),
        (12, 20, CaptureCause::Number),
    ] {
        let bytes = small_with(alloc, usize::from(k), word)?;
        let place = 4 * u32::from(k);
        assert_eq!(rt; told(&bytes), wrong(place, cause), "word {k} is {word}");
    }
    Ok(())
}

#[test]
fn bytes_that_end_early_or_late(rt: HostRuntime) -> Result<(), Fail> {
    let alloc = rt.alloc();
    let whole = small_and(alloc, REGIONS, 1, &[5, 2, 0, 0xFFFFFFFF])?;
    for length in 0..72usize {
        let cut = &whole[..length.min(whole.len())];
        assert_eq!(rt;
            told(cut),
            wrong(length as u32, CaptureCause::Short),
            "{length}"
        );
    }
    assert_eq!(rt; told(&whole), Ok(()));
    let longer = small_and(alloc, REGIONS, 1, &[5, 2, 0, 0xFFFFFFFF, 0])?;
    assert_eq!(rt; told(&longer), wrong(72, CaptureCause::Long));
    let mut page = small_pages(alloc, &[0])?;
    assert_eq!(rt; told(&page), Ok(()));
    page.push(0)?;
    assert_eq!(rt; told(&page), wrong(4156, CaptureCause::Long));
    page.truncate(4155);
    assert_eq!(rt; told(&page), wrong(4155, CaptureCause::Short));
    Ok(())
}

#[test]
fn records_of_regions(rt: HostRuntime) -> Result<(), Fail> {
    let alloc = rt.alloc();
    for (count, words, answer) in [
        (1, &[5u32, 0][..], wrong(60, CaptureCause::Number)),
        (1, &[4096, 1, 0][..], wrong(56, CaptureCause::Number)),
        (1, &[4095, 1, 0][..], Ok(())),
        (1, &[5, 65537][..], wrong(60, CaptureCause::Number)),
        (1, &[5, 1, 1][..], wrong(64, CaptureCause::Number)),
        (
            1,
            &[5, 2, 0, 0xFFFFFFFE][..],
            wrong(68, CaptureCause::Number),
        ),
        (2, &[5, 1, 0, 5, 1, 0][..], wrong(68, CaptureCause::Order)),
        (2, &[5, 1, 0, 4, 1, 0][..], wrong(68, CaptureCause::Order)),
        (2, &[5, 1, 0, 6, 1, 0][..], Ok(())),
        (2, &[5, 1, 0, 6, 65536][..], wrong(72, CaptureCause::Number)),
        (
            3,
            &[5, 1, 0, 6, 1, 0, 7, 65535][..],
            wrong(84, CaptureCause::Number),
        ),
    ] {
        let bytes = small_and(alloc, REGIONS, count, words)?;
        assert_eq!(rt; told(&bytes), answer, "{words:?}");
    }
    Ok(())
}

#[test]
fn records_of_pages(rt: HostRuntime) -> Result<(), Fail> {
    let alloc = rt.alloc();
    for (keys, answer) in [
        (&[0u32][..], Ok(())),
        (&[0x80000000][..], Ok(())),
        (&[1][..], wrong(56, CaptureCause::Number)),
        (&[0x80000001][..], wrong(56, CaptureCause::Number)),
        (&[0, 0x80000000][..], Ok(())),
        (&[0, 0][..], wrong(4156, CaptureCause::Order)),
        (&[0x80000000, 0][..], wrong(4156, CaptureCause::Order)),
        (&[0x80000000, 1][..], wrong(4156, CaptureCause::Number)),
    ] {
        let bytes = small_pages(alloc, keys)?;
        assert_eq!(rt; told(&bytes), answer, "{keys:?}");
    }
    Ok(())
}

/// Two guest pages and a framebuffer of one: a key of its second page, which there isn't. And a MIN that is
/// wrong is told though the bytes end behind it.
#[test]
fn keys_and_cut_rings(rt: HostRuntime) -> Result<(), Fail> {
    let alloc = rt.alloc();
    let mut words = SMALL;
    words[3] = 2;
    words[PAGES] = 1;
    let mut bytes = bytes_from(alloc, &words)?;
    push_words(&mut bytes, &[0x80000001])?;
    assert_eq!(rt; told(&bytes), wrong(56, CaptureCause::Number));
    let mut cut = bytes_from(alloc, &SMALL[..9])?;
    push_words(&mut cut, &[12])?;
    assert_eq!(rt; told(&cut), wrong(36, CaptureCause::Number));
    Ok(())
}

/// Where byte 0 of the first place, and of the second, lies in the region of a capture that opens.
#[test]
fn regions_that_open(rt: HostRuntime) -> Result<(), Fail> {
    let alloc = rt.alloc();
    let bytes = small_and(alloc, REGIONS, 1, &[5, 2, 0xFFFFFFFF, 0])?;
    let Ok(capture) = read(&bytes) else {
        return Err(AllocError.into());
    };
    let (machine, _pages) = capture.opening(alloc)?;
    let regions = machine.shape().regions();
    assert_eq!(rt; regions.length(5), Some(2));
    assert_eq!(rt; regions.length(4), None);
    assert_eq!(rt; regions.locate(5, 0), Err(Fault::Unmapped));
    assert_eq!(rt; regions.locate(5, 4097), Ok((PageKey::Guest(0), 1)));
    Ok(())
}

/// The words that wait, at most two of them, and how many they are.
fn waiting(capture: &Capture<'_>) -> (u32, Option<u32>, Option<u32>) {
    let count = capture.word_count();
    let first = if 0 < count {
        Some(capture.word(0))
    } else {
        None
    };
    let second = if 1 < count {
        Some(capture.word(1))
    } else {
        None
    };
    (count, first, second)
}

/// The small capture with this ring, up to byte `max`.
fn small_ring(alloc: Global, max: u32, ring: &[u32]) -> Result<Vec<u8>, AllocError> {
    let mut words = SMALL;
    words[2] = max;
    let mut bytes = bytes_from(alloc, &words[..9])?;
    push_words(&mut bytes, ring)?;
    Ok(bytes)
}

/// What a capture holds with this ring, up to byte `max`, and no records: its words, its fence and its
/// budget.
fn held(
    alloc: Global,
    max: u32,
    ring: &[u32],
) -> Result<Option<(u32, Option<u32>, Option<u32>, u32, u32)>, AllocError> {
    match read(&small_ring(alloc, max, ring)?) {
        Ok(capture) => {
            let (count, first, second) = waiting(&capture);
            Ok(Some((count, first, second, capture.fence(), capture.budget())))
        }
        Err(_) => Ok(None),
    }
}

#[test]
fn words_and_fences(rt: HostRuntime) -> Result<(), Fail> {
    for (max, ring, answer) in [
        (20, &[16u32, 20, 16, 16, 0][..], (0, None, None, 0, 1)),
        (
            28,
            &[16, 28, 24, 16, 7, 8, 9][..],
            (2, Some(7), Some(8), 0, 1),
        ),
        (
            28,
            &[16, 28, 20, 24, 7, 8, 9][..],
            (2, Some(9), Some(7), 0, 1),
        ),
        (32, &[24, 32, 24, 24, 0, 0, 5, 6][..], (0, None, None, 0, 1)),
        (32, &[28, 32, 28, 28, 0, 0, 5, 6][..], (0, None, None, 5, 1)),
    ] {
        assert_eq!(rt; held(rt.alloc(), max, ring)?, Some(answer), "{ring:?}");
    }
    Ok(())
}

/// How the replay of these bytes ends: its commands, its fence and its end.
fn replayed(alloc: Global, bytes: &[u8]) -> Result<Option<(u32, u32, ReplayEnd)>, AllocError> {
    let Ok(capture) = read(bytes) else {
        return Ok(None);
    };
    let replayed = replay(alloc, &capture)?;
    Ok(Some((replayed.commands, replayed.fence, replayed.ending)))
}

#[test]
fn replays_of_small_rings(rt: HostRuntime) -> Result<(), Fail> {
    let alloc = rt.alloc();
    for (max, ring, answer) in [
        (20, &[16u32, 20, 16, 16, 0][..], (0, 0, ReplayEnd::Whole)),
        (
            28,
            &[16, 28, 24, 16, 35, 3, 0][..],
            (
                0,
                0,
                ReplayEnd::Fault {
                    command: 0,
                    fault: Fault::NoScreen,
                },
            ),
        ),
        (
            24,
            &[16, 24, 20, 16, 30, 0][..],
            (0, 0, ReplayEnd::Torn { word: 1 }),
        ),
        (
            32,
            &[16, 32, 28, 16, 30, 7, 1040, 0][..],
            (
                1,
                7,
                ReplayEnd::Refused {
                    word: 2,
                    cause: Cause::ThreeD,
                },
            ),
        ),
    ] {
        let bytes = small_ring(alloc, max, ring)?;
        assert_eq!(rt; replayed(alloc, &bytes)?, Some(answer), "{ring:?}");
    }
    Ok(())
}

/// Two fences round the end of a ring, behind a MIN of 1,164, and a record of guest page 3.
fn fences_round_the_end(alloc: Global) -> Result<Vec<u8>, AllocError> {
    let mut words = SMALL;
    words[2] = 11404;
    words[3] = 4;
    words[PAGES] = 1;
    let mut bytes = bytes_from(alloc, &words[..9])?;
    push_words(&mut bytes, &[1164, 11404, 1172, 11396])?;
    push_copies(&mut bytes, 1148, 0)?;
    push_words(&mut bytes, &[30, 7])?;
    push_copies(&mut bytes, 10224, 0)?;
    push_words(&mut bytes, &[30, 5, 3])?;
    push_copies(&mut bytes, 4096, 0xEE)?;
    Ok(bytes)
}

/// Appends so many copies of a byte.
fn push_copies(bytes: &mut Vec<u8>, count: u32, byte: u8) -> Result<(), AllocError> {
    for _ in 0..count {
        bytes.push(byte)?;
    }
    Ok(())
}

/// Whether a guest page holds nothing but this byte after a replay, if the device has the page.
fn page_holds(
    alloc: Global,
    capture: &Capture<'_>,
    number: u32,
    byte: u8,
) -> Result<bool, AllocError> {
    let replayed = replay(alloc, capture)?;
    if number < replayed.machine.limits().pages {
        let page = replayed.pages.page(PageKey::Guest(number));
        Ok(page.bytes().iter().all(|b| *b == byte))
    } else {
        Ok(false)
    }
}

#[test]
fn replay_round_the_end(rt: HostRuntime) -> Result<(), Fail> {
    let alloc = rt.alloc();
    let bytes = fences_round_the_end(alloc)?;
    let answer = Some((2, 7, ReplayEnd::Whole));
    assert_eq!(rt; replayed(alloc, &bytes)?, answer);
    let Ok(capture) = read(&bytes) else {
        return Err(AllocError.into());
    };
    assert!(rt; page_holds(alloc, &capture, 3, 0xEE)?);
    Ok(())
}
