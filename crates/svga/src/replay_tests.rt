// Whole runs of `svga replay`: captures, what is written, and with which status.
use crate::tests::ends;
use std::alloc::{AllocError, Global};
use std::process::Abort;
use std::sync::Wait;
use std::test::Fail;
use std::thread::Threads;
use svga_io::{CleanSource, MemSink};

/// The word that stands for an unmapped place.
const UNMAPPED: u32 = 0xFFFF_FFFF;

/// The key word of page 0 of the framebuffer.
const FRAME_0: u32 = 0x8000_0000;

/// What a capture holds beside its device of 4 guest pages, a framebuffer of one page and 64 pixels.
#[derive(Drop)]
struct Held<'a> {
    /// The records of regions: an id, a count, and so many places.
    regions: &'a [u32],
    /// How many they are.
    count: u32,
    /// The pages that have records, with their first bytes; all others of theirs are `fill`.
    pages: &'a [(u32, &'a [u8])],
    fill: u8,
    words: &'a [u32],
}

fn push(bytes: &mut Vec<u8>, words: &[u32]) -> Result<(), AllocError> {
    for word in words {
        bytes.extend_from_slice(&word.to_le_bytes())?;
    }
    Ok(())
}

fn push_page(bytes: &mut Vec<u8>, first: &[u8], fill: u8) -> Result<(), AllocError> {
    bytes.extend_from_slice(first)?;
    for _ in first.len()..4096 {
        bytes.push(fill)?;
    }
    Ok(())
}

/// A capture with MIN 16, in whose ring of 128 words these wait from its start on.
fn capture(alloc: Global, held: &Held<'_>) -> Result<Vec<u8>, AllocError> {
    let mut bytes = Vec::new(alloc);
    let waiting = u32::try_from(held.words.len()).unwrap_or(0);
    let records = u32::try_from(held.pages.len()).unwrap_or(0);
    push(&mut bytes, &[0x4647_5653, 1, 528, 4, 2, 1, 64])?;
    push(&mut bytes, &[held.count, records])?;
    let next = waiting.wrapping_mul(4).wrapping_add(16);
    push(&mut bytes, &[16, 528, next, 16])?;
    push(&mut bytes, held.words)?;
    for _ in held.words.len()..128 {
        push(&mut bytes, &[0])?;
    }
    push(&mut bytes, held.regions)?;
    for (key, first) in held.pages {
        push(&mut bytes, &[*key])?;
        push_page(&mut bytes, *first, held.fill)?;
    }
    Ok(bytes)
}

/// Replays these bytes, and compares the text and the status.
fn replays(
    rt: &(impl Abort + AllocGlobal + Threads + Wait + Copy + Send + 'static),
    bytes: Vec<u8>,
    text: &str,
    status: u8,
) -> Result<(), Fail> {
    let alloc = rt.alloc();
    let mut source = CleanSource::new(bytes, 4096);
    let mut sink = MemSink::new(alloc, 4096, Vec::new(alloc))?;
    ends(rt, &["replay"], &mut source, &mut sink, text, status)
}

/// Words, their text and the status, where there is no region and no page has bytes.
type Row = (&'static [u32], &'static str, u8);

const ENDS: [Row; 7] = [
    (&[], "commands 0\nfence 0\nend\n", 0),
    (&[30, 7], "commands 1\nfence 7\nend\n", 0),
    (
        &[35, 3],
        "commands 0\nfence 0\nfault at command 0 8 NoScreen\n",
        1,
    ),
    (
        &[30, 5, 35, 3, 30, 6],
        "commands 1\nfence 5\nfault at command 1 8 NoScreen\n",
        1,
    ),
    (&[30, 9, 30], "commands 1\nfence 9\ntorn at word 3\n", 3),
    (
        &[
            34,
            28,
            2,
            1,
            1,
            1,
            0xFFFF_FFFF,
            2,
            34,
            28,
            0,
            1,
            2,
            2,
            0,
            0,
            1040,
        ],
        "commands 2\nfence 0\nscreen 0 2 2 0 0\nrows 0 2 2*000000\nscreen 2 1 1 -1 2\n\
         rows 0 1 1*000000\nrefused at word 16 ThreeD\n",
        3,
    ),
    (&[1, 0, 0, 2, 1], "commands 1\nfence 0\nend\n", 0),
];

#[test]
fn ends_of_replays(rt: HostRuntime) -> Result<(), Fail> {
    for (words, text, status) in ENDS {
        let held = Held {
            regions: &[],
            count: 0,
            pages: &[],
            fill: 0,
            words,
        };
        replays(&rt, capture(rt.alloc(), &held)?, text, status)?;
    }
    Ok(())
}

/// Screen 0 of 2 by 1 pixels, the GMRFB of a format at the start of region 1, and a blit of both
/// pixels.
fn drawing(format: u32) -> [u32; 21] {
    [
        34, 28, 0, 1, 2, 1, 0, 0, 36, 1, 0, 8, format, 37, 0, 0, 0, 0, 2, 1, 0,
    ]
}

/// A format, the first bytes of page 0, which is that of region 1, and the rows and pages of the text.
type Drawn = (u32, &'static [u8], &'static str);

const DRAWN: [Drawn; 4] = [
    (
        0x1820,
        &[0x30, 0x20, 0x10, 0, 0xFF],
        "commands 3\nfence 0\nscreen 0 2 1 0 0\nrows 0 1 1*102030 1*0000ff\n\
         page p0\n0 1 30\n1 1 20\n2 1 10\n3 1 00\n4 1 ff\n5 4091 00\nend\n",
    ),
    (
        0x1818,
        &[0x30, 0x20, 0x10, 0xFF],
        "commands 3\nfence 0\nscreen 0 2 1 0 0\nrows 0 1 1*102030 1*0000ff\n\
         page p0\n0 1 30\n1 1 20\n2 1 10\n3 1 ff\n4 4092 00\nend\n",
    ),
    (
        0x1010,
        &[0x41, 0x08, 0, 0xF8],
        "commands 3\nfence 0\nscreen 0 2 1 0 0\nrows 0 1 1*080808 1*ff0000\n\
         page p0\n0 1 41\n1 1 08\n2 1 00\n3 1 f8\n4 4092 00\nend\n",
    ),
    (
        0x0F10,
        &[0, 0xFC],
        "commands 3\nfence 0\nscreen 0 2 1 0 0\nrows 0 1 1*ff0000 1*000000\n\
         page p0\n0 1 00\n1 1 fc\n2 4094 00\nend\n",
    ),
];

#[test]
fn screens_from_a_region(rt: HostRuntime) -> Result<(), Fail> {
    for (format, first, text) in DRAWN {
        let held = Held {
            regions: &[1, 1, 0],
            count: 1,
            pages: &[(0, first)],
            fill: 0,
            words: &drawing(format),
        };
        replays(&rt, capture(rt.alloc(), &held)?, text, 0)?;
    }
    Ok(())
}

/// A black screen is read back over bytes of ff: of a pixel the unused byte becomes 0 too.
#[test]
fn a_blit_back(rt: HostRuntime) -> Result<(), Fail> {
    let held = Held {
        regions: &[1, 2, UNMAPPED, 2],
        count: 1,
        pages: &[(2, &[])],
        fill: 0xFF,
        words: &[
            34, 28, 0, 1, 2, 1, 0, 0, 36, 1, 4096, 8, 0x1820, 38, 0, 0, 0, 0, 2, 1, 0,
        ],
    };
    let text = "commands 3\nfence 0\nscreen 0 2 1 0 0\nrows 0 1 2*000000\n\
                page p2\n0 8 00\n8 4088 ff\nend\n";
    replays(&rt, capture(rt.alloc(), &held)?, text, 0)
}

/// Pages come by number, whichever region they stand in, those of the framebuffer last; one that no
/// region has and one of zeros are left out.
#[test]
fn pages_of_regions(rt: HostRuntime) -> Result<(), Fail> {
    let held = Held {
        regions: &[7, 2, 3, 1, 9, 2, 0, 3],
        count: 2,
        pages: &[(0, &[1]), (2, &[2]), (3, &[3]), (FRAME_0, &[4, 4])],
        fill: 0,
        words: &[30, 1],
    };
    let text = "commands 1\nfence 1\npage p0\n0 1 01\n1 4095 00\npage p3\n0 1 03\n1 4095 00\n\
                page f0\n0 2 04\n2 4094 00\nend\n";
    replays(&rt, capture(rt.alloc(), &held)?, text, 0)
}

/// A page that was mapped and isn't at the end is left out.
#[test]
fn a_region_that_goes(rt: HostRuntime) -> Result<(), Fail> {
    let held = Held {
        regions: &[5, 1, 0],
        count: 1,
        pages: &[(0, &[1])],
        fill: 0,
        words: &[41, 5, 0],
    };
    replays(
        &rt,
        capture(rt.alloc(), &held)?,
        "commands 1\nfence 0\nend\n",
        0,
    )
}

/// A capture of 56 bytes: one guest page, a framebuffer and a budget of one pixel, an empty ring of one
/// word.
const SMALL: [u32; 14] = [0x4647_5653, 1, 20, 1, 1, 1, 1, 0, 0, 16, 20, 16, 16, 0];

/// Which word of the small capture is another one, how many of its bytes there are, and the text.
type Changed = (usize, u32, usize, &'static str, u8);

const CHANGED: [Changed; 7] = [
    (13, 0, 56, "commands 0\nfence 0\nend\n", 0),
    (13, 0, 0, "capture byte 0 Short\n", 3),
    (13, 0, 3, "capture byte 3 Short\n", 3),
    (0, 0x0047_5653, 56, "capture byte 0 Magic\n", 3),
    (1, 2, 56, "capture byte 4 Version\n", 3),
    (2, 18, 56, "capture byte 8 Number\n", 3),
    (11, 20, 56, "capture byte 44 Number\n", 3),
];

#[test]
fn bytes_that_are_no_capture(rt: HostRuntime) -> Result<(), Fail> {
    let alloc = rt.alloc();
    for (k, word, length, text, status) in CHANGED {
        let mut words = SMALL;
        if k < words.len() {
            words[k] = word;
        }
        let mut bytes = Vec::new(alloc);
        push(&mut bytes, &words)?;
        bytes.truncate(length);
        replays(&rt, bytes, text, status)?;
    }
    Ok(())
}

#[test]
fn a_byte_too_many(rt: HostRuntime) -> Result<(), Fail> {
    let mut bytes = Vec::new(rt.alloc());
    push(&mut bytes, &SMALL)?;
    bytes.push(0)?;
    replays(&rt, bytes, "capture byte 56 Long\n", 3)
}

/// Words that wait round the ring's end, and a page that no region has, whatever it holds.
#[test]
fn round_the_end_of_the_ring(rt: HostRuntime) -> Result<(), Fail> {
    let mut bytes = Vec::new(rt.alloc());
    push(&mut bytes, &[0x4647_5653, 1, 11404, 4, 1, 1, 1, 0, 1])?;
    push(&mut bytes, &[1164, 11404, 1172, 11396])?;
    for _ in 4..291 {
        push(&mut bytes, &[0])?;
    }
    push(&mut bytes, &[30, 7])?;
    for _ in 293..2849 {
        push(&mut bytes, &[9])?;
    }
    push(&mut bytes, &[30, 5, 3])?;
    push_page(&mut bytes, &[1, 2, 3], 0xEE)?;
    replays(&rt, bytes, "commands 2\nfence 7\nend\n", 0)
}
