//! Scripts, done beside a device that is stepped while they wait.
ghost use Rattle.std.specs.Prelude.{Some};
ghost use Rattle.svga_device.specs.Devices.{Shows};
ghost use Rattle.svga_pair.specs.Going.{IsFresh};

use crate::{Pump, Raced, Refusal, Waiter, race_script};
use std::alloc::Global;
use std::cell::Cell;
use std::process::Abort;
use std::sync::Wait;
use svga_cmd::PageKey;
use svga_device::Device;
use svga_driver::Driver;
use svga_head::{Head, HeadsOf, Mirror};
use svga_io::{Failed, MemSink, Sink};
use svga_text::{Render, Script, read_script};

// Makes a step of a device each turn, and counts the turns.
#[derive(Drop)]
struct Counter<'a, B: Head> {
    pump: Pump<B>,
    turns: &'a Cell<u64>,
}

impl<B: Head> Waiter for Counter<'_, B> {
    ghost table = { λ w. Some w.pump.table };

    ghost shows = { λ w first. Shows first w.pump };

    fn turn<R: Wait>(&mut self, rt: &R) {
        self.turns.set(self.turns.get().saturating_add(1));
        self.pump.turn(rt);
    }
}

// Keeps what is written, and how many turns were taken when page 0 was first in it.
#[derive(Drop)]
struct Watch<'a> {
    sink: MemSink,
    turns: &'a Cell<u64>,
    at_page: Option<u64>,
}

impl Sink for Watch<'_> {
    ghost held = { λ w. Some w.sink.held };

    ghost faults = { λ w. w.sink.faults };

    fn put(&mut self, piece: &[u8]) -> Result<usize, Failed> {
        let taken = self.sink.put(piece)?;
        if self.at_page.is_none() && has_page(self.sink.bytes()) {
            self.at_page = Some(self.turns.get());
        }
        Ok(taken)
    }
}

// Whether page 0 is in a text.
fn has_page(text: &[u8]) -> bool {
    for i in 0..text.len() {
        if text[i..].starts_with(b"page p0\n") {
            return true;
        }
    }
    false
}

fn parsed(rt: &impl Abort, alloc: Global, text: &str) -> Script {
    let length = text.len();
    assert!(rt; length <= 4096);
    read_script(alloc, text.as_bytes()).expect(rt, "a script")
}

// The driver and the device of a script's session, without heads.
fn opened(rt: &impl Abort, alloc: Global, script: &Script) -> (Driver, Device<Mirror>)
    ensures { IsFresh script.now.session result.0 }
{
    let session = *script.session();
    let (driver, end) = Driver::new(alloc, session).expect(rt, "memory");
    match Device::new(alloc, end, session.limits, HeadsOf::new(Vec::new(alloc))) {
        Ok(device) => (driver, device),
        Err(_) => panic!(rt; "memory"),
    }
}

const MANY_PAGES: &str = "session 65536 300 64 64 307200 1 reserve
screen 0 640 480 0 0
region 1 300
map 1 0 0+300
gmrfb 1 0 2560 32
fill p0 ff
lend p0+300
blit 0 0 0 0 640 480 0
fence
back 0 0 0 479 640 480 0
fence
take p0
show p0
";

// The page comes back behind the eighth command, each of which the device executes in a turn of its own.
#[test]
fn page_waits_for_device(rt: HostRuntime) {
    let alloc = rt.alloc();
    let script = parsed(&rt, alloc, MANY_PAGES);
    let (mut driver, device) = opened(&rt, alloc, &script);
    let turns = Cell::new(0);
    let mut waiter = Counter {
        pump: Pump::new(device),
        turns: &turns,
    };
    let mut sink = Watch {
        sink: MemSink::new(alloc, 4096, Vec::new(alloc)).expect(&rt, "memory"),
        turns: &turns,
        at_page: None,
    };
    let mut render = Render::new(alloc).expect(&rt, "memory");
    let raced = race_script(
        &rt,
        &mut driver,
        &script,
        &mut waiter,
        &mut render,
        &mut sink,
    );
    assert_eq!(rt;
        raced,
        Raced {
            refused: None,
            write_fault: false
        }
    );
    assert_eq!(rt;
        sink.sink.bytes(),
        "fence 1\nfence 2\npage p0\n0 2560 00\n2560 1536 ff\n".as_bytes()
    );
    assert!(rt; sink.at_page.unwrap_or(0) >= 8);
}

// A script tells this, and ends so.
fn is_raced_so(
    rt: &(impl Abort + Wait),
    alloc: Global,
    text: &str,
    told: &str,
    refused: Option<Refusal>,
) {
    let script = parsed(rt, alloc, text);
    let (mut driver, device) = opened(rt, alloc, &script);
    let mut sink = MemSink::new(alloc, 4096, Vec::new(alloc)).expect(rt, "memory");
    let mut render = Render::new(alloc).expect(rt, "memory");
    let mut pump = Pump::new(device);
    let raced = race_script(rt, &mut driver, &script, &mut pump, &mut render, &mut sink);
    assert_eq!(rt;
        raced,
        Raced {
            refused,
            write_fault: false
        }
    );
    assert_eq!(rt; sink.bytes(), told.as_bytes());
}

const OTHER_ORDER: &str = "session 65536 2 1 1 4 1 reserve
screen 0 4 1 0 0
region 1 1
map 1 0 0
region 2 1
map 2 0 1
fill p1 ff
lend p0+2
gmrfb 1 0 16 32
back 0 0 0 0 4 1 0
fence
gmrfb 2 0 16 32
back 0 0 0 0 4 1 0
fence
take p1
take p0
show p1
";

const NO_FENCE: &str = "session 65536 2 64 64 65536 1 reserve
screen 0 4 1 0 0
region 1 1
map 1 0 0
gmrfb 1 0 16 32
lend p0
back 0 0 0 0 4 1 0
take p0
";

const PAGE_OUT: &str = "session 65536 2 64 64 65536 1 reserve
screen 0 4 1 0 0
region 1 2
map 1 0 0+2
gmrfb 1 0 16 32
lend p0
blit 0 0 0 0 4 1 0
";

// The chain that begins on page 5 goes on on page 7.
const TABLE_OUT: &str = "session 65536 32 64 64 65536 1 dword
write p5 0 0a000000020000000700000000000000
lend p5
describe 1 5
";

fn refusal(line: u32, number: u32, page: u32) -> Option<Refusal> {
    Some(Refusal {
        line,
        number,
        key: Some(PageKey::Guest(page)),
    })
}

#[test]
fn scripts_end_as_they_mean(rt: HostRuntime) {
    let alloc = rt.alloc();
    let told = "fence 1\nfence 2\npage p1\n0 16 00\n16 4080 ff\n";
    is_raced_so(&rt, alloc, OTHER_ORDER, told, None);
    is_raced_so(&rt, alloc, NO_FENCE, "", refusal(8, 24, 0));
    is_raced_so(&rt, alloc, PAGE_OUT, "", refusal(7, 21, 1));
    is_raced_so(&rt, alloc, TABLE_OUT, "", refusal(4, 21, 7));
}
