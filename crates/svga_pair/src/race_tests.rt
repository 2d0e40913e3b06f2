//! Races of whole scripts.
use crate::{Raced, Refusal, race};
use std::alloc::Global;
use std::process::Abort;
use std::sync::Wait;
use std::thread::Threads;
use svga_cmd::PageKey;
use svga_head::{Head, HeadsOf, Mirror, PlugOf};
use svga_io::MemSink;
use svga_link::Closed;
use svga_text::{Render, Script, read_script};

// What is left of a script's session.
struct Row {
    script: &'static str,
    text: &'static str,
    refused: Option<Refusal>,
    fence: u32,
    next_cmd: u32,
    next_stores: u64,
}

// The text of a usual session.
const USUAL_TEXT: &str = "fence 1
fence 2
page p0
0 2560 00
2560 1536 ff
screen 0 640 480 0 0
rows 0 1 640*ffffff
rows 1 1 384*ffffff 256*000000
rows 2 478 640*000000
end
";

const ROWS: [Row; 8] = [
    // A usual session,
    Row {
        script: "session 65536 300 64 64 307200 1 reserve
screen 0 640 480 0 0
region 1 300
map 1 0 0+300
gmrfb 1 0 2560 32
fill p0 ff
lend p0+300
blit 0 0 0 0 640 480 0
fence
back 0 0 0 479 640 480 0
fence
take p0
show p0
",
        text: USUAL_TEXT,
        refused: None,
        fence: 2,
        next_cmd: 2528,
        next_stores: 8,
    },
    // and the same by dword.
    Row {
        script: "session 65536 300 64 64 307200 1 dword
screen 0 640 480 0 0
region 1 300
map 1 0 0+300
gmrfb 1 0 2560 32
fill p0 ff
lend p0+300
blit 0 0 0 0 640 480 0
fence
back 0 0 0 479 640 480 0
fence
take p0
show p0
",
        text: USUAL_TEXT,
        refused: None,
        fence: 2,
        next_cmd: 2528,
        next_stores: 341,
    },
    // No fence stands behind the command that touches the page.
    Row {
        script: "session 65536 2 64 64 65536 1 reserve
screen 0 4 1 0 0
region 1 1
map 1 0 0
gmrfb 1 0 16 32
lend p0
back 0 0 0 0 4 1 0
take p0
",
        text: "screen 0 4 1 0 0
rows 0 1 4*000000
refused line 8 fault 24 NoFence p0
",
        refused: Some(Refusal {
            line: 8,
            number: 24,
            key: Some(PageKey::Guest(0)),
        }),
        fence: 0,
        next_cmd: 1284,
        next_stores: 5,
    },
    // The second page of the region isn't lent.
    Row {
        script: "session 65536 2 64 64 65536 1 reserve
screen 0 4 1 0 0
region 1 2
map 1 0 0+2
gmrfb 1 0 16 32
lend p0
blit 0 0 0 0 4 1 0
",
        text: "screen 0 4 1 0 0
rows 0 1 4*000000
refused line 7 fault 21 PageOut p1
",
        refused: Some(Refusal {
            line: 7,
            number: 21,
            key: Some(PageKey::Guest(1)),
        }),
        fence: 0,
        next_cmd: 1256,
        next_stores: 4,
    },
    // The guest framebuffer.
    Row {
        script: "session 65536 1 2 2 4 1 reserve
screen 0 2 2 0 0
write f0 4 0000ff00
lend f0
update 1 0 9 9
",
        text: "screen 0 2 2 0 0
rows 0 1 1*000000 1*ff0000
rows 1 1 2*000000
end
",
        refused: None,
        fence: 0,
        next_cmd: 1216,
        next_stores: 2,
    },
    // Behind the largest number of a fence comes 1.
    Row {
        script: "session 65536 1 1 1 1 4294967295 reserve
fence
fence
",
        text: "fence 4294967295
fence 1
end
",
        refused: None,
        fence: 1,
        next_cmd: 1180,
        next_stores: 2,
    },
    // An empty script.
    Row {
        script: "session 65536 1 1 1 1 4294967280 reserve
",
        text: "end
",
        refused: None,
        fence: 4294967279,
        next_cmd: 1164,
        next_stores: 0,
    },
    // Two pages behind two fences, taken in the other order.
    Row {
        script: "session 65536 2 1 1 4 1 reserve
screen 0 4 1 0 0
region 1 1
map 1 0 0
region 2 1
map 2 0 1
fill p1 ff
lend p0+2
gmrfb 1 0 16 32
back 0 0 0 0 4 1 0
fence
gmrfb 2 0 16 32
back 0 0 0 0 4 1 0
fence
take p1
take p0
show p1
",
        text: "fence 1
fence 2
page p1
0 16 00
16 4080 ff
screen 0 4 1 0 0
rows 0 1 4*000000
end
",
        refused: None,
        fence: 2,
        next_cmd: 1388,
        next_stores: 11,
    },
];

fn script(rt: &impl Abort, alloc: Global, text: &str) -> Script {
    assert!(rt; text.len() <= 4096);
    read_script(alloc, text.as_bytes()).expect(rt, "a script")
}

// One mirror.
fn mirror(rt: &impl Abort, alloc: Global) -> HeadsOf<Mirror> {
    let mut plugs = Vec::new(alloc);
    plugs
        .push(PlugOf::Plugged(Mirror::new(alloc)))
        .expect(rt, "memory");
    HeadsOf::new(plugs)
}

// A race of this script, with one mirror: what was written, and what it leaves.
fn raced<R: Threads + Wait + Abort + Copy + Send + 'static>(
    rt: &R,
    alloc: Global,
    text: &str,
) -> (MemSink, Raced, Closed, HeadsOf<Mirror>) {
    let script = script(rt, alloc, text);
    let heads = mirror(rt, alloc);
    let mut sink = MemSink::new(alloc, 4096, Vec::new(alloc)).expect(rt, "memory");
    let mut render = Render::new(alloc).expect(rt, "memory");
    match race(rt, alloc, &script, heads, &mut render, &mut sink) {
        Ok(end) => (sink, end.raced, end.closed, end.heads),
        Err(_) => panic!(rt; "memory"),
    }
}

#[test]
fn scripts_are_raced(rt: HostRuntime) {
    for row in &ROWS {
        let (sink, raced, closed, _heads) = raced(&rt, rt.alloc(), row.script);
        assert_eq!(rt; sink.bytes(), row.text.as_bytes());
        assert_eq!(rt;
            raced,
            Raced {
                refused: row.refused,
                write_fault: false
            }
        );
        assert_eq!(rt; closed.fence(), row.fence);
        assert_eq!(rt; closed.next_cmd(), row.next_cmd);
        assert_eq!(rt; closed.max(), 65536);
        assert_eq!(rt; closed.next_stores(), row.next_stores);
    }
}

// The mirror shows the rows that the text tells.
#[test]
fn a_mirror_shows_the_screens(rt: HostRuntime) {
    let (_sink, _raced, _closed, heads) = raced(&rt, rt.alloc(), ROWS[4].script);
    let Some(PlugOf::Plugged(mirror)) = heads.plug(0) else {
        panic!(rt; "the mirror is plugged");
    };
    assert_eq!(rt; mirror.picture_row(0, 0), Some(&[0, 0xff0000][..]));
    assert_eq!(rt; mirror.picture_row(0, 1), Some(&[0, 0][..]));
    assert_eq!(rt; mirror.picture_row(0, 2), None);
    assert_eq!(rt; mirror.picture_row(1, 0), None);
}
