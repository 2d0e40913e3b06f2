// Whole runs of the top call: what is written, and with which status.
use crate::ended::EndedOf;
use crate::top::top;
use std::alloc::{AllocError, Global};
use std::process::Abort;
use std::sync::Wait;
use std::test::Fail;
use std::thread::Threads;
use svga_head::{HeadsOf, Mirror};
use svga_io::{CleanSource, MemSink, MemSource, Sink, Source};

fn bytes_of(alloc: Global, words: &[u32]) -> Result<Vec<u8>, AllocError> {
    let mut bytes = Vec::new(alloc);
    for word in words {
        bytes.extend_from_slice(&word.to_le_bytes())?;
    }
    Ok(bytes)
}

fn run<R: Threads + Wait + Copy + Send + 'static, S: Source, K: Sink>(
    rt: &R,
    alloc: Global,
    words: &[&str],
    source: &mut S,
    sink: &mut K,
) -> Result<EndedOf<Mirror>, AllocError> {
    let mut owned = Vec::new(alloc);
    for word in words {
        owned.push(String::from_str(alloc, *word)?)?;
    }
    Ok(top(
        rt,
        alloc,
        &owned,
        source,
        sink,
        HeadsOf::new(Vec::new(alloc)),
    ))
}

/// Runs the words on this source and this sink, and compares what was written and the status.
pub fn ends<R: Abort + AllocGlobal + Threads + Wait + Copy + Send + 'static, S: Source>(
    rt: &R,
    words: &[&str],
    source: &mut S,
    sink: &mut MemSink,
    text: &str,
    status: u8,
) -> Result<(), Fail> {
    let ended = run(rt, rt.alloc(), words, source, sink)?;
    assert_eq!(rt; sink.bytes(), text.as_bytes(), "{text}");
    assert_eq!(rt; ended.status, status, "{text}");
    Ok(())
}

fn lists(
    rt: &(impl Abort + AllocGlobal + Threads + Wait + Copy + Send + 'static),
    words: &[u32],
    text: &str,
    status: u8,
) -> Result<(), Fail> {
    let alloc = rt.alloc();
    let mut source = CleanSource::new(bytes_of(alloc, words)?, 4096);
    let mut sink = MemSink::new(alloc, 4096, Vec::new(alloc))?;
    ends(rt, &["words"], &mut source, &mut sink, text, status)
}

const MINUS_ONE: u32 = 0xFFFF_FFFF;

/// Words, their text and the status.
type Row = (&'static [u32], &'static str, u8);

const ENDS: [Row; 12] = [
    (&[], "fence 0\n", 0),
    (&[30, 7], "at 0 FENCE 7\nfence 7\n", 0),
    (
        &[30, 7, 30, 4294967295],
        "at 0 FENCE 7\nat 2 FENCE 4294967295\nfence 4294967295\n",
        0,
    ),
    (&[30], "fence 0\ntorn at word 1\n", 3),
    (
        &[30, 7, 1040],
        "at 0 FENCE 7\nfence 7\nrefused at word 2 ThreeD\n",
        3,
    ),
    (
        &[30, 7, 33, 30, 8],
        "at 0 FENCE 7\nfence 7\nrefused at word 2 Escape\n",
        3,
    ),
    (&[34, 32], "fence 0\nrefused at word 1 BadSize\n", 3),
    (&[3], "fence 0\nrefused at word 0 Unsupported\n", 3),
    (&[0], "fence 0\nrefused at word 0 Unknown\n", 3),
    (&[42, 1, 5], "fence 0\nrefused at word 2 BadFlags\n", 3),
    (
        &[36, 1, 0, 64, 8],
        "fence 0\nrefused at word 4 BadFormat\n",
        3,
    ),
    (
        &[42, 1, 0, 0, 65537],
        "fence 0\nrefused at word 4 TooManyPages\n",
        3,
    ),
];

const COMMANDS: [Row; 7] = [
    (
        &[1, 0, 1, 2, 4294967295],
        "at 0 UPDATE 0 1 2 4294967295\nfence 0\n",
        0,
    ),
    (
        &[34, 28, 3, 5, 640, 480, MINUS_ONE, 7],
        "at 0 DEFINE_SCREEN 28 3 5 640 480 -1 7\nfence 0\n",
        0,
    ),
    (
        &[34, 44, 3, 5, 640, 480, 0x8000_0000, 7, 11, 12, 13, 14],
        "at 0 DEFINE_SCREEN 44 3 5 640 480 -2147483648 7 11 12 13 14\nfence 0\n",
        0,
    ),
    (&[35, 15], "at 0 DESTROY_SCREEN 15\nfence 0\n", 0),
    (
        &[37, MINUS_ONE, 0, 1, 2, 3, 4, MINUS_ONE],
        "at 0 BLIT_GMRFB_TO_SCREEN -1 0 1 2 3 4 4294967295\nfence 0\n",
        0,
    ),
    (
        &[38, 0, 0x7FFF_FFFF, 1, 2, 3, 4, 0],
        "at 0 BLIT_SCREEN_TO_GMRFB 0 2147483647 1 2 3 4 0\nfence 0\n",
        0,
    ),
    (&[41, 9, 300], "at 0 DEFINE_GMR2 9 300\nfence 0\n", 0),
];

const FORMATS: [Row; 4] = [
    (
        &[36, 1, 4095, 2560, 0x1820],
        "at 0 DEFINE_GMRFB 1 4095 2560 32/24\nfence 0\n",
        0,
    ),
    (
        &[36, 1, 4095, 2560, 0x1818],
        "at 0 DEFINE_GMRFB 1 4095 2560 24/24\nfence 0\n",
        0,
    ),
    (
        &[36, 1, 4095, 2560, 0x1010],
        "at 0 DEFINE_GMRFB 1 4095 2560 16/16\nfence 0\n",
        0,
    ),
    (
        &[36, 1, 4095, 2560, 0x0F10],
        "at 0 DEFINE_GMRFB 1 4095 2560 16/15\nfence 0\n",
        0,
    ),
];

const REMAPS: [Row; 7] = [
    (
        &[42, 1, 0, 8, 0],
        "at 0 REMAP_GMR2 1 8 0 ppn32\nfence 0\n",
        0,
    ),
    (
        &[42, 1, 0, 8, 2, 10, 11],
        "at 0 REMAP_GMR2 1 8 2 ppn32 10 11\nfence 0\n",
        0,
    ),
    (
        &[42, 1, 2, 8, 2, 10, 0, 11, 1, 30, 7],
        "at 0 REMAP_GMR2 1 8 2 ppn64 10 4294967307\nat 9 FENCE 7\nfence 7\n",
        0,
    ),
    (
        &[42, 1, 4, 8, 0, 6],
        "at 0 REMAP_GMR2 1 8 0 single32 6\nfence 0\n",
        0,
    ),
    (
        &[42, 1, 6, 8, 3, 6, 1],
        "at 0 REMAP_GMR2 1 8 3 single64 4294967302\nfence 0\n",
        0,
    ),
    (
        &[42, 1, 1, 8, 3, 2, 64],
        "at 0 REMAP_GMR2 1 8 3 via32 2 64\nfence 0\n",
        0,
    ),
    (
        &[42, 1, 3, 8, 3, 2, 64],
        "at 0 REMAP_GMR2 1 8 3 via64 2 64\nfence 0\n",
        0,
    ),
];

/// Whether each row's words are listed as the row says.
fn list_each(
    rt: &(impl Abort + AllocGlobal + Threads + Wait + Copy + Send + 'static),
    rows: &[Row],
) -> Result<(), Fail> {
    for (words, text, status) in rows {
        lists(rt, *words, *text, *status)?;
    }
    Ok(())
}

#[test]
fn ends_of_words(rt: HostRuntime) -> Result<(), Fail> {
    list_each(&rt, &ENDS)
}

#[test]
fn lines_of_commands(rt: HostRuntime) -> Result<(), Fail> {
    list_each(&rt, &COMMANDS)
}

#[test]
fn lines_of_formats(rt: HostRuntime) -> Result<(), Fail> {
    list_each(&rt, &FORMATS)
}

#[test]
fn lines_of_remaps(rt: HostRuntime) -> Result<(), Fail> {
    list_each(&rt, &REMAPS)
}

#[test]
fn bytes_that_are_no_word(rt: HostRuntime) -> Result<(), Fail> {
    let alloc = rt.alloc();
    for (first, text) in [
        (30, "fence 0\ntorn at word 1\n"),
        (33, "fence 0\nrefused at word 0 Escape\n"),
    ] {
        let mut bytes = bytes_of(alloc, &[first])?;
        bytes.push(7)?;
        let mut source = CleanSource::new(bytes, 1);
        let mut sink = MemSink::new(alloc, 64, Vec::new(alloc))?;
        ends(&rt, &["words"], &mut source, &mut sink, text, 3)?;
    }
    Ok(())
}

#[test]
fn a_source_of_single_bytes(rt: HostRuntime) -> Result<(), Fail> {
    let alloc = rt.alloc();
    let mut source = CleanSource::new(bytes_of(alloc, &[30, 7])?, 1);
    let mut sink = MemSink::new(alloc, 64, Vec::new(alloc))?;
    ends(
        &rt,
        &["words"],
        &mut source,
        &mut sink,
        "at 0 FENCE 7\nfence 7\n",
        0,
    )
}

#[test]
fn words_of_no_form(rt: HostRuntime) -> Result<(), Fail> {
    let alloc = rt.alloc();
    let usage = "usage: svga words | replay | race | gen N\n";
    let forms: [&[&str]; 4] = [&[], &["words", "words"], &["--help"], &["gen", "1"]];
    for words in forms {
        let mut source = CleanSource::new(Vec::new(alloc), 1);
        let mut sink = MemSink::new(alloc, 64, Vec::new(alloc))?;
        ends(&rt, words, &mut source, &mut sink, usage, 2)?;
    }
    Ok(())
}

#[test]
fn a_fault_of_the_source(rt: HostRuntime) -> Result<(), Fail> {
    let alloc = rt.alloc();
    let first = [0u64].to_vec(alloc)?;
    let mut source = MemSource::new(bytes_of(alloc, &[30, 7])?, 3, first);
    let mut sink = MemSink::new(alloc, 64, Vec::new(alloc))?;
    ends(&rt, &["words"], &mut source, &mut sink, "read fault\n", 4)
}

#[test]
fn a_fault_of_the_sink(rt: HostRuntime) -> Result<(), Fail> {
    let alloc = rt.alloc();
    let first = [0u64].to_vec(alloc)?;
    let mut source = CleanSource::new(bytes_of(alloc, &[30, 7])?, 3);
    let mut sink = MemSink::new(alloc, 64, first)?;
    ends(&rt, &["words"], &mut source, &mut sink, "", 5)
}

#[test]
fn a_sink_without_room(rt: HostRuntime) -> Result<(), Fail> {
    let alloc = rt.alloc();
    let mut source = CleanSource::new(bytes_of(alloc, &[30, 7])?, 3);
    let mut sink = MemSink::new(alloc, 16, Vec::new(alloc))?;
    ends(
        &rt,
        &["words"],
        &mut source,
        &mut sink,
        "at 0 FENCE 7\nfen",
        5,
    )
}

// Apart from the test, so that no proof unfolds so long a list.
fn zeros(alloc: Global, length: usize) -> Result<Vec<u8>, AllocError> {
    vec![in alloc; 0; length]
}

#[test]
fn an_input_that_is_too_long(rt: HostRuntime) -> Result<(), Fail> {
    let alloc = rt.alloc();
    let mut source = CleanSource::new(zeros(alloc, 134217729)?, 1 << 20);
    let mut sink = MemSink::new(alloc, 64, Vec::new(alloc))?;
    ends(&rt, &["words"], &mut source, &mut sink, "too long\n", 7)
}
