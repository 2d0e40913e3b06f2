//! Scripts by worked cases.
use crate::{Script, ScriptCause, ScriptFault, read_script};
use std::alloc::Global;
use std::process::Abort;
use std::test::Fail;

fn read(alloc: Global, text: &[u8]) -> Result<Script, ScriptFault> {
    if text.len() > 134217728 {
        return Err(ScriptFault::Memory);
    }
    read_script(alloc, text)
}

fn told(alloc: Global, text: &[u8]) -> Result<(), ScriptFault> {
    match read(alloc, text) {
        Ok(_) => Ok(()),
        Err(fault) => Err(fault),
    }
}

fn wrong(number: u32, column: u32, cause: ScriptCause) -> Result<(), ScriptFault> {
    Err(ScriptFault::Line {
        number,
        column,
        cause,
    })
}

/// A script with each kind of line, a comment, an empty line and a last line without a line feed.
const EVERY_LINE: &str = "# all lines\t
session 65536 64 32 16 4096 7 dword

screen 0 256 128 -2147483648 2147483647
drop 15
region 1 64
map 1 2 3+4 9
same 2 0 65536 63
gmrfb frame 4 1024 15
blit -1 2 -3 4 5 6 all
back 1 -2 3 -4 -5 -6 3
update 1 2 3 4
fence
write f3 4094 00ff
fill p63 a5
lend p0+64
take f1
show p4294967295
describe 4095 0";

/// The lines of its acts, and the acts as `Debug` writes them.
const EVERY_ACT: [(u32, &str); 16] = [
    (
        4,
        "Screen { id: 0, width: 256, height: 128, x: -2147483648, y: 2147483647 }",
    ),
    (5, "Destroy { id: 15 }"),
    (6, "Region { id: 1, pages: 64 }"),
    (
        7,
        "Map { id: 1, offset: 2, \
        runs: RunList { items: [Run { first: 3, count: 4 }, Run { first: 9, count: 1 }] } }",
    ),
    (8, "Same { id: 2, offset: 0, count: 65536, page: 63 }"),
    (
        9,
        "Gmrfb(Gmrfb { region: 4294967294, offset: 4, pitch: 1024, format: Rgb555 })",
    ),
    (
        10,
        "Blit(Blit { point: Point { x: -1, y: 2 }, \
        rect: Rect { left: -3, top: 4, right: 5, bottom: 6 }, screen: 4294967295 })",
    ),
    (
        11,
        "Back(Blit { point: Point { x: 1, y: -2 }, \
        rect: Rect { left: 3, top: -4, right: -5, bottom: -6 }, screen: 3 })",
    ),
    (12, "Update { x: 1, y: 2, width: 3, height: 4 }"),
    (13, "Fence"),
    (
        14,
        "Write { key: Frame(3), offset: 4094, bytes: ByteList { items: [0, 255] } }",
    ),
    (15, "Fill { key: Guest(63), byte: 165 }"),
    (16, "Lend { first: Guest(0), count: 64 }"),
    (17, "Take { first: Frame(1), count: 1 }"),
    (18, "Show { key: Guest(4294967295) }"),
    (19, "Describe { id: 4095, page: 0 }"),
];

/// A blit from a region of which one page is with the client.
const BLIT: &str = "session 65536 2 64 64 65536 1 reserve
screen 0 4 1 0 0
region 1 2
map 1 0 0+2
gmrfb 1 0 16 32
lend p0
blit 0 0 0 0 4 1 0
";

const BLIT_ACTS: [(u32, &str); 6] = [
    (2, "Screen { id: 0, width: 4, height: 1, x: 0, y: 0 }"),
    (3, "Region { id: 1, pages: 2 }"),
    (
        4,
        "Map { id: 1, offset: 0, runs: RunList { items: [Run { first: 0, count: 2 }] } }",
    ),
    (
        5,
        "Gmrfb(Gmrfb { region: 1, offset: 0, pitch: 16, format: Bgrx32 })",
    ),
    (6, "Lend { first: Guest(0), count: 1 }"),
    (
        7,
        "Blit(Blit { point: Point { x: 0, y: 0 }, \
        rect: Rect { left: 0, top: 0, right: 4, bottom: 1 }, screen: 0 })",
    ),
];

/// The guest framebuffer is written and shown.
const FRAMEBUFFER: &str = "session 65536 1 2 2 4 1 reserve
screen 0 2 2 0 0
write f0 4 0000ff00
lend f0
update 1 0 9 9
";

const FRAMEBUFFER_ACTS: [(u32, &str); 4] = [
    (2, "Screen { id: 0, width: 2, height: 2, x: 0, y: 0 }"),
    (
        3,
        "Write { key: Frame(0), offset: 4, bytes: ByteList { items: [0, 0, 255, 0] } }",
    ),
    (4, "Lend { first: Frame(0), count: 1 }"),
    (5, "Update { x: 1, y: 0, width: 9, height: 9 }"),
];

/// Fences behind the greatest.
const FENCES: &str = "session 65536 1 1 1 1 4294967295 reserve
fence
fence
";

const FENCE_ACTS: [(u32, &str); 2] = [(2, "Fence"), (3, "Fence")];

/// A chain of descriptors over two pages, and one whose page is with the client.
const DESCRIBE: &str = "session 65536 32 64 64 65536 1 dword
write p5 0 0a000000020000000700000000000000
write p7 0 14000000010000000000000000000000
lend p5
lend p7
describe 1 5
describe 2 6
";

const DESCRIBE_ACTS: [(u32, &str); 6] = [
    (
        2,
        "Write { key: Guest(5), offset: 0, \
        bytes: ByteList { items: [10, 0, 0, 0, 2, 0, 0, 0, 7, 0, 0, 0, 0, 0, 0, 0] } }",
    ),
    (
        3,
        "Write { key: Guest(7), offset: 0, \
        bytes: ByteList { items: [20, 0, 0, 0, 1, 0, 0, 0, 0, 0, 0, 0, 0, 0, 0, 0] } }",
    ),
    (4, "Lend { first: Guest(5), count: 1 }"),
    (5, "Lend { first: Guest(7), count: 1 }"),
    (6, "Describe { id: 1, page: 5 }"),
    (7, "Describe { id: 2, page: 6 }"),
];

/// That a text is a script of this session and these acts, by their lines and as `Debug` writes them.
fn reads(
    rt: &impl Abort,
    alloc: Global,
    text: &str,
    session: &str,
    acts: &[(u32, &str)],
) -> Result<(), Fail> {
    let script = read(alloc, text.as_bytes()).expect(rt, "a script");
    assert_eq!(rt;
        format!(in alloc; "{:?}", script.session())?.as_str(),
        session
    );
    assert_eq!(rt; script.len() as usize, acts.len());
    let mut i = 0;
    for (line, act) in acts {
        assert!(rt; i < script.len());
        assert_eq!(rt; script.line(i), *line);
        assert_eq!(rt; format!(in alloc; "{:?}", script.act(i))?.as_str(), *act);
        i += 1;
    }
    Ok(())
}

#[test]
fn right_scripts(rt: HostRuntime) -> Result<(), Fail> {
    let alloc = rt.alloc();
    reads(
        &rt,
        alloc,
        EVERY_LINE,
        "Session { ring: 65536, limits: Limits { pages: 64, gfb_width: 32, gfb_height: 16, \
        budget: 4096 }, first: 7, way: Dword }",
        &EVERY_ACT,
    )?;
    reads(
        &rt,
        alloc,
        BLIT,
        "Session { ring: 65536, limits: Limits { pages: 2, gfb_width: 64, gfb_height: 64, \
        budget: 65536 }, first: 1, way: Reserve }",
        &BLIT_ACTS,
    )?;
    reads(
        &rt,
        alloc,
        FRAMEBUFFER,
        "Session { ring: 65536, limits: Limits { pages: 1, gfb_width: 2, gfb_height: 2, \
        budget: 4 }, first: 1, way: Reserve }",
        &FRAMEBUFFER_ACTS,
    )?;
    reads(
        &rt,
        alloc,
        FENCES,
        "Session { ring: 65536, limits: Limits { pages: 1, gfb_width: 1, gfb_height: 1, \
        budget: 1 }, first: 4294967295, way: Reserve }",
        &FENCE_ACTS,
    )?;
    reads(
        &rt,
        alloc,
        DESCRIBE,
        "Session { ring: 65536, limits: Limits { pages: 32, gfb_width: 64, gfb_height: 64, \
        budget: 65536 }, first: 1, way: Dword }",
        &DESCRIBE_ACTS,
    )
}

/// Lines behind a session's, and what is wrong with them: each cause at the first place where it can stand
/// in a line, in the midst of one, and at the last.
const WRONG_LINES: [(&str, u32, ScriptCause); 56] = [
    ("\tfence", 1, ScriptCause::Character),
    ("drop\x7f1", 5, ScriptCause::Character),
    ("session  \t", 10, ScriptCause::Character),
    (" ", 1, ScriptCause::Space),
    (" fence", 1, ScriptCause::Space),
    ("nosuch  x", 8, ScriptCause::Space),
    ("fence ", 7, ScriptCause::Space),
    ("session", 1, ScriptCause::Session),
    ("session 11404 1 1 1 1 1 reserve", 1, ScriptCause::Session),
    ("rect 1 2 3 4 5 6", 1, ScriptCause::Word),
    ("write q0 0 00", 7, ScriptCause::Word),
    ("map 1 0 0 1+0 2", 11, ScriptCause::Word),
    ("map 1 0 0 1 2+", 13, ScriptCause::Word),
    ("gmrfb 0 0 0 8", 13, ScriptCause::Word),
    ("lend p4294967296", 6, ScriptCause::Word),
    ("lend p1+0", 6, ScriptCause::Word),
    ("take p1+4294967296", 6, ScriptCause::Word),
    ("show p01", 6, ScriptCause::Word),
    ("drop 07", 6, ScriptCause::Number),
    ("drop -1", 6, ScriptCause::Number),
    ("screen 4294967296 1 1 0 0", 8, ScriptCause::Number),
    ("screen 0 1 01 0 0", 12, ScriptCause::Number),
    ("screen 0 1 1 -0 x", 14, ScriptCause::Number),
    ("screen 0 1 1 -01 0", 14, ScriptCause::Number),
    ("screen 0 1 1 0 -2147483649", 16, ScriptCause::Number),
    ("gmrfb all 0 0 32", 7, ScriptCause::Number),
    ("blit x 0 0 0 0 0 all", 6, ScriptCause::Number),
    ("blit 0 0 0 0 0 2147483648 all", 16, ScriptCause::Number),
    ("back 0 0 0 0 0 0 frame", 18, ScriptCause::Number),
    ("fill p0 0A", 9, ScriptCause::Number),
    ("write p0 0 0", 12, ScriptCause::Number),
    // The first word that breaks its rule decides, by whichever of the three.
    ("same 00 0 65537 x", 6, ScriptCause::Number),
    ("same 1 0 65537 x", 10, ScriptCause::Limit),
    ("map 1 00 4294967295+2", 7, ScriptCause::Number),
    ("map 1 0 4294967295+2 x", 9, ScriptCause::Limit),
    ("map 1 0 0+2049", 9, ScriptCause::Limit),
    ("map 1 0 0+2047 7+2 9", 16, ScriptCause::Limit),
    ("map 1 0 0+1024 7+1024 9", 23, ScriptCause::Limit),
    ("map 1 0 0+2048 x 7", 16, ScriptCause::Word),
    ("lend p4294967295+2", 6, ScriptCause::Limit),
    ("take f2+4294967295", 6, ScriptCause::Limit),
    ("fill q0 0A", 6, ScriptCause::Word),
    ("screen", 7, ScriptCause::Missing),
    ("screen 0 1", 11, ScriptCause::Missing),
    ("screen 0 1 1 0", 15, ScriptCause::Missing),
    ("map 1 0", 8, ScriptCause::Missing),
    ("write p0 0", 11, ScriptCause::Missing),
    // What is wrong in a word is told before words that are missing.
    ("screen 0 x", 10, ScriptCause::Number),
    ("same 1 0 65537", 10, ScriptCause::Limit),
    ("write q0", 7, ScriptCause::Word),
    ("fence 3", 7, ScriptCause::Extra),
    ("fence 3 4", 7, ScriptCause::Extra),
    ("fence session", 7, ScriptCause::Extra),
    ("drop 1 -", 8, ScriptCause::Extra),
    ("describe 1 2 3", 14, ScriptCause::Extra),
    ("back 0 0 0 0 0 0 all 0", 22, ScriptCause::Extra),
];

/// That a line is wrong so as the second line, in the midst of a script, and as a last line without a line
/// feed.
fn is_refused(
    rt: &impl Abort,
    alloc: Global,
    line: &str,
    column: u32,
    cause: ScriptCause,
) -> Result<(), Fail> {
    let second = format!(in alloc; "session 11404 1 1 1 1 1 reserve\n{line}\nx\t")?;
    assert_eq!(rt;
        told(alloc, second.as_bytes()),
        wrong(2, column, cause),
        "{line}"
    );
    let midst = format!(in alloc; "#\nsession 11404 1 1 1 1 1 dword\n\nfence\n# x\t\n{line}\n\n")?;
    assert_eq!(rt;
        told(alloc, midst.as_bytes()),
        wrong(6, column, cause),
        "{line}"
    );
    let last = format!(in alloc; "session 11404 1 1 1 1 1 reserve\ndrop 1\n\n{line}")?;
    assert_eq!(rt;
        told(alloc, last.as_bytes()),
        wrong(4, column, cause),
        "{line}"
    );
    Ok(())
}

#[test]
fn wrong_lines(rt: HostRuntime) -> Result<(), Fail> {
    let alloc = rt.alloc();
    for (line, column, cause) in WRONG_LINES {
        is_refused(&rt, alloc, line, column, cause)?;
    }
    Ok(())
}

/// Texts, and what is wrong with them: mostly with the session's line.
const WRONG_SCRIPTS: [(&str, u32, u32, ScriptCause); 34] = [
    ("", 1, 1, ScriptCause::Session),
    ("\n", 2, 1, ScriptCause::Session),
    ("#\n\n", 3, 1, ScriptCause::Session),
    ("#\n\n# session", 4, 1, ScriptCause::Session),
    ("fence", 1, 1, ScriptCause::Session),
    ("#\nfence 3", 2, 1, ScriptCause::Session),
    ("sessions 65536", 1, 1, ScriptCause::Session),
    ("\x00", 1, 1, ScriptCause::Character),
    ("nosuch \t", 1, 8, ScriptCause::Character),
    ("session x\r\n", 1, 10, ScriptCause::Character),
    ("nosuch  x", 1, 8, ScriptCause::Space),
    ("session 65536  1", 1, 15, ScriptCause::Space),
    ("session 11404 1 1 1 1 1 dword ", 1, 31, ScriptCause::Space),
    ("session 011404 1", 1, 9, ScriptCause::Number),
    ("session 11404 1 1 -1 1", 1, 19, ScriptCause::Number),
    (
        "session 11404 1 1 1 1 4294967296",
        1,
        23,
        ScriptCause::Number,
    ),
    ("session 65538 1 1 1 1 1 reserve", 1, 9, ScriptCause::Limit),
    ("session 11400 1", 1, 9, ScriptCause::Limit),
    ("session 262148 1", 1, 9, ScriptCause::Limit),
    ("session 11404 0", 1, 15, ScriptCause::Limit),
    ("session 11404 16385 x", 1, 15, ScriptCause::Limit),
    ("session 11404 1 4097", 1, 17, ScriptCause::Limit),
    ("session 11404 1 1 2049", 1, 19, ScriptCause::Limit),
    ("session 11404 1 1 1 33554433", 1, 21, ScriptCause::Limit),
    ("session 11404 1 1 1 1 0", 1, 23, ScriptCause::Limit),
    ("session x 0", 1, 9, ScriptCause::Number),
    ("session 11404 1 1 1 1 1 way", 1, 25, ScriptCause::Word),
    ("session", 1, 8, ScriptCause::Missing),
    ("session 65536 1 1", 1, 18, ScriptCause::Missing),
    ("session 65536 1 1 1 1 1", 1, 24, ScriptCause::Missing),
    ("session 11404 1 1 1 1 1 dword x", 1, 31, ScriptCause::Extra),
    (
        "session 11404 1 1 1 1 1 dword dword 1",
        1,
        31,
        ScriptCause::Extra,
    ),
    (
        "session 65536 1 1 1 1 4294967295 reserve\nfence 3",
        2,
        7,
        ScriptCause::Extra,
    ),
    (
        "session 65536 1 1 1 1 1 reserve\nfence\nfence  \nfence 3",
        3,
        7,
        ScriptCause::Space,
    ),
];

#[test]
fn wrong_scripts(rt: HostRuntime) -> Result<(), Fail> {
    let alloc = rt.alloc();
    for (text, number, column, cause) in WRONG_SCRIPTS {
        assert_eq!(rt;
            told(alloc, text.as_bytes()),
            wrong(number, column, cause),
            "{text}"
        );
    }
    Ok(())
}

#[test]
fn too_many_lines(rt: HostRuntime) -> Result<(), Fail> {
    let alloc = rt.alloc();
    let mut text = Vec::new(alloc);
    text.extend_from_slice(b"session 11404 1 1 1 1 1 reserve")?;
    for _ in 0..1048576u32 {
        text.push(b'\n')?;
    }
    assert_eq!(rt; told(alloc, &text), Ok(()));
    // The line too many is refused before its characters, and where it is skipped.
    text.push(b'\t')?;
    assert_eq!(rt; told(alloc, &text), wrong(1048577, 1, ScriptCause::Limit));
    if let Some(last) = text.last_mut() {
        *last = b'\n';
    }
    assert_eq!(rt; told(alloc, &text), wrong(1048577, 1, ScriptCause::Limit));
    // It is, too, where no line is the session's.
    if let Some(first) = text.first_mut() {
        *first = b'#';
    }
    assert_eq!(rt; told(alloc, &text), wrong(1048577, 1, ScriptCause::Limit));
    Ok(())
}
