// Scripts through the top call: the text, the status, and what is left of the session.
use crate::top::top;
use std::alloc::{AllocError, Global};
use std::fmt::Write;
use std::process::Abort;
use std::sync::Wait;
use std::test::Fail;
use std::thread::Threads;
use svga_head::{Head, HeadsOf, Mirror, PlugOf};
use svga_io::{CleanSource, MemSink};
use svga_link::Closed;

/// A script, its text, the status, and FENCE, NEXT_CMD and the stores of NEXT_CMD in the end.
type Row = (&'static str, &'static str, u8, Option<(u32, u32, u64)>);

pub const DRAWING: &str = "screen 0 640 480 0 0
region 1 300
map 1 0 0+300
gmrfb 1 0 2560 32
fill p0 ff
lend p0+300
blit 0 0 0 0 640 480 0
fence
back 0 0 0 479 640 480 0
fence
take p0
show p0
";

pub const DRAWN: &str = "fence 1
fence 2
page p0
0 2560 00
2560 1536 ff
screen 0 640 480 0 0
rows 0 1 640*ffffff
rows 1 1 384*ffffff 256*000000
rows 2 478 640*000000
end
";

const ROWS: [Row; 14] = [
    // A page that no fence stands behind.
    (
        "session 65536 2 64 64 65536 1 reserve
screen 0 4 1 0 0
region 1 1
map 1 0 0
gmrfb 1 0 16 32
lend p0
back 0 0 0 0 4 1 0
take p0
",
        "screen 0 4 1 0 0
rows 0 1 4*000000
refused line 8 fault 24 NoFence p0
",
        1,
        Some((0, 1284, 5)),
    ),
    // A page that isn't lent.
    (
        "session 65536 2 64 64 65536 1 reserve
screen 0 4 1 0 0
region 1 2
map 1 0 0+2
gmrfb 1 0 16 32
lend p0
blit 0 0 0 0 4 1 0
",
        "screen 0 4 1 0 0
rows 0 1 4*000000
refused line 7 fault 21 PageOut p1
",
        1,
        Some((0, 1256, 4)),
    ),
    // The guest's framebuffer.
    (
        "session 65536 1 2 2 4 1 reserve
screen 0 2 2 0 0
write f0 4 0000ff00
lend f0
update 1 0 9 9
",
        "screen 0 2 2 0 0
rows 0 1 1*000000 1*ff0000
rows 1 1 2*000000
end
",
        0,
        Some((0, 1216, 2)),
    ),
    // Fence numbers past their end.
    (
        "session 65536 1 1 1 1 4294967295 reserve
fence
fence
",
        "fence 4294967295
fence 1
end
",
        0,
        Some((1, 1180, 2)),
    ),
    // No scripts.
    ("", "script line 1 column 1 Session\n", 3, None),
    (
        "session 65536 1 1 1 1 4294967295 reserve
fence 3
",
        "script line 2 column 7 Extra\n",
        3,
        None,
    ),
    ("\0", "script line 1 column 1 Character\n", 3, None),
    (
        "session 65538 1 1 1 1 1 reserve",
        "script line 1 column 9 Limit\n",
        3,
        None,
    ),
    (
        "session 65536 1 1 1 1 1",
        "script line 1 column 24 Missing\n",
        3,
        None,
    ),
    // A table page that isn't lent.
    (
        "session 65536 32 64 64 65536 1 dword
write p5 0 0a000000020000000700000000000000
write p7 0 14000000010000000000000000000000
lend p5
lend p7
describe 1 5
describe 2 6
",
        "refused line 7 fault 21 PageOut p6
",
        1,
        Some((0, 1164, 0)),
    ),
    // Chains that end nowhere, and at no page.
    (
        "session 65536 8 1 1 1 1 reserve
write p5 0 0500000000000000
lend p5
describe 1 5
",
        "refused line 4 fault 15 ChainLimit
",
        1,
        Some((0, 1164, 0)),
    ),
    (
        "session 65536 8 1 1 1 1 reserve
write p5 0 0700000002000000
lend p5
describe 1 5
",
        "refused line 4 fault 6 BadPage
",
        1,
        Some((0, 1164, 0)),
    ),
    // A chain over three table pages, one of which is taken back and changed afterwards.
    (
        "session 65536 8 1 1 64 1 reserve
screen 0 4 1 0 0
write p1 0 05000000010000000200000000000000
write p2 0 06000000010000000300000000000000
fill p5 11
fill p6 22
lend p1+3
lend p5+2
describe 1 1
take p1
write p1 0 07000000
gmrfb 1 4088 16 32
blit 0 0 0 0 4 1 0
",
        "screen 0 4 1 0 0
rows 0 1 2*111111 2*222222
end
",
        0,
        Some((0, 1248, 3)),
    ),
    // Two pages behind two fences, taken in the other order.
    (
        "session 65536 2 1 1 4 1 reserve
screen 0 4 1 0 0
region 1 1
map 1 0 0
region 2 1
map 2 0 1
fill p1 ff
lend p0+2
gmrfb 1 0 16 32
back 0 0 0 0 4 1 0
fence
gmrfb 2 0 16 32
back 0 0 0 0 4 1 0
fence
take p1
take p0
show p1
",
        "fence 1
fence 2
page p1
0 16 00
16 4080 ff
screen 0 4 1 0 0
rows 0 1 4*000000
end
",
        0,
        Some((2, 1388, 11)),
    ),
];

// A mirror at the one output.
fn mirror(alloc: Global) -> Result<HeadsOf<Mirror>, AllocError> {
    let mut plugs = Vec::new(alloc);
    plugs.push(PlugOf::Plugged(Mirror::new(alloc)))?;
    Ok(HeadsOf::new(plugs))
}

// FENCE, NEXT_CMD and the stores of NEXT_CMD.
fn words_of(closed: &Closed) -> (u32, u32, u64) {
    (closed.fence(), closed.next_cmd(), closed.next_stores())
}

// Whether a script's text, status and words are those of its row.
fn races<R: Abort + AllocGlobal + Threads + Wait + Copy + Send + 'static>(
    rt: &R,
    script: &[&str],
    text: &str,
    status: u8,
    left: Option<(u32, u32, u64)>,
) -> Result<(), Fail> {
    let alloc = rt.alloc();
    let mut words = Vec::new(alloc);
    words.push(String::from_str(alloc, "race")?)?;
    let mut bytes = Vec::new(alloc);
    for part in script {
        bytes.extend_from_slice(part.as_bytes())?;
    }
    let mut source = CleanSource::new(bytes, 4096);
    let mut sink = MemSink::new(alloc, 1 << 16, Vec::new(alloc))?;
    let ended = top(rt, alloc, &words, &mut source, &mut sink, mirror(alloc)?);
    assert_eq!(rt; sink.bytes(), text.as_bytes(), "{text}");
    assert_eq!(rt; ended.status, status, "{text}");
    assert_eq!(rt; ended.race.as_ref().map(words_of), left, "{text}");
    Ok(())
}

#[test]
fn scripts(rt: HostRuntime) -> Result<(), Fail> {
    for (script, text, status, left) in &ROWS {
        races(&rt, &[*script], *text, *status, *left)?;
    }
    races(
        &rt,
        &["session 65536 300 64 64 307200 1 reserve\n", DRAWING],
        DRAWN,
        0,
        Some((2, 2528, 8)),
    )?;
    races(
        &rt,
        &["session 65536 300 64 64 307200 1 dword\n", DRAWING],
        DRAWN,
        0,
        Some((2, 2528, 341)),
    )
}

/// So many rounds in which a page is taken back behind its fence, filled, lent and shown.
const ROUNDS: u32 = 300;

// The script of these rounds, by this way of writing, and its text.
fn rounds(alloc: Global, way: &str) -> Result<(String, String), Fail> {
    let mut script = String::from_str(alloc, "session 11404 1 64 64 256 1 ")?;
    script.push_str(way)?;
    script.push_str("\nscreen 0 16 16 0 0\nregion 1 1\nmap 1 0 0\nlend p0\ngmrfb 1 0 64 32\n")?;
    let mut text = String::new(alloc);
    for round in 0..ROUNDS {
        script.push_str("take p0\nfill p0 ")?;
        script.push_str(if round % 2 == 0 { "5a" } else { "a5" })?;
        script.push_str("\nlend p0\nblit 0 0 0 0 16 16 0\nfence\n")?;
        write!(text, "fence {}\n", round + 1)?;
    }
    text.push_str("screen 0 16 16 0 0\nrows 0 16 16*a5a5a5\nend\n")?;
    Ok((script, text))
}

#[test]
fn many_rounds(rt: HostRuntime) -> Result<(), Fail> {
    for (way, stores) in [("reserve", 604), ("dword", 3022)] {
        let (script, text) = rounds(rt.alloc(), way)?;
        races(
            &rt,
            &[script.as_str()],
            text.as_str(),
            0,
            Some((300, 3012, stores)),
        )?;
    }
    Ok(())
}
