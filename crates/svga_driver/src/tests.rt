//! Sessions of a driver whose device does nothing, by worked cases.
ghost use Rattle.std.specs.FinMap as map;
ghost use Rattle.std.specs.Prelude.{◌≡◌, ◌+◌, ◌≤◌, [], length};
ghost use Rattle.svga_driver.specs.Driving.{IsShort, MAX_SENT_WORDS};

use crate::{Driver, DriverFault};
use std::alloc::Global;
use std::process::Abort;
use svga_cmd::{Blit, Fault, Format, Gmrfb, Limits, PageKey, Point, Rect, Session, Way};
use svga_link::DeviceEnd;

const GUEST: PageKey = PageKey::Guest(0);

const OTHER: PageKey = PageKey::Guest(1);

const FRAME: PageKey = PageKey::Frame(0);

const BEYOND: PageKey = PageKey::Guest(2);

// A blit of all of screen 0 from the GMRFB's first pixel on, or to there.
const ALL: Blit = Blit {
    point: Point { x: 0, y: 0 },
    rect: Rect {
        left: 0,
        top: 0,
        right: 8,
        bottom: 8,
    },
    screen: 0,
};

// The driver of a session with a ring as small as there is and two pages, and its device's end, whose FENCE
// is the number below the first.
pub(crate) fn ends(rt: &impl Abort, alloc: Global, first: u32) -> (Driver, DeviceEnd)
    ensures none_sent { result.0.view.sent ≡ [] }
    ensures none_read { result.1.view.read ≡ [] }
    ensures none_noted { result.1.view.noted ≡ map.empty }
{
    let limits = Limits {
        pages: 2,
        gfb_width: 8,
        gfb_height: 8,
        budget: 64,
    };
    let session = Session::new(11404, limits, first, Way::Reserve).expect(
        rt,
        "numbers within their limits",
    );
    let (driver, device) = Driver::new(alloc, session).expect(rt, "memory");
    assert_eq!(rt; device.opening_fence(), first.wrapping_sub(1));
    (driver, device)
}

// A call of a driver. `Map` and `MapSame` are of a region's first places, and `Write` is of two bytes.
#[derive(Clone, Copy)]
pub(crate) enum Call {
    DefineScreen(u32),
    DestroyScreen(u32),
    DefineRegion(u32, u32),
    Map(u32, &'static [u32]),
    MapSame(u32, u32, u32),
    DefineGmrfb(u32),
    Blit,
    BlitBack,
    Update,
    Fence,
    Write(PageKey, u32),
    Read(PageKey),
    Lend(PageKey),
    Poll,
    TakeBack(PageKey),
    Describe(u32, u32),
    Settle,
}

// What a call answers as a number: that of a fence or of a request, how many fences are seen, a page's last
// byte, or 0.
#[tactic(auto, using(crate::proofs::DescribeLaws::describe_sent))]
pub(crate) fn answer(driver: &mut Driver, call: &Call) -> Result<u64, DriverFault>
    requires { IsShort driver.old.view }
    ensures { length driver.new.view.sent ≤ length driver.old.view.sent + MAX_SENT_WORDS }
{
    let done = match *call {
        Call::Fence => return match driver.fence() {
            Ok(fence) => Ok(u64::from(fence.number)),
            Err(fault) => Err(fault),
        },
        Call::Read(key) => return match driver.read_page(key) {
            Ok(page) => Ok(u64::from(page.bytes()[4095])),
            Err(fault) => Err(fault),
        },
        Call::Describe(id, first) => return match driver.describe(id, first) {
            Ok(posted) => Ok(u64::from(posted.request)),
            Err(fault) => Err(fault),
        },
        Call::Poll => return Ok(driver.poll()),
        Call::DefineScreen(id) => driver.define_screen(id, 8, 8, 0, 0),
        Call::DestroyScreen(id) => driver.destroy_screen(id),
        Call::DefineRegion(id, pages) => driver.define_region(id, pages),
        Call::Map(id, pages) if pages.len() <= 2048 => driver.map(id, 0, pages),
        Call::Map(_, _) => Ok(()),
        Call::MapSame(id, count, page) if count <= 65536 => driver.map_same(id, 0, count, page),
        Call::MapSame(_, _, _) => Ok(()),
        Call::DefineGmrfb(region) => driver.gmrfb(Gmrfb {
            region,
            offset: 0,
            pitch: 32,
            format: Format::Bgrx32,
        }),
        Call::Blit => driver.blit(ALL),
        Call::BlitBack => driver.blit_back(ALL),
        Call::Update => driver.update(0, 0, 8, 8),
        Call::Write(key, offset) => driver.write_page(key, offset, &[7, 9]),
        Call::Lend(key) => driver.lend(key),
        Call::TakeBack(key) => driver.take_back(key),
        Call::Settle => driver.settle(),
    };
    match done {
        Ok(()) => Ok(0),
        Err(fault) => Err(fault),
    }
}

// The calls of one session, and what each answers.
const SESSION: [(Call, Result<u64, DriverFault>); 50] = [
    (Call::Poll, Ok(0)),
    (Call::Fence, Ok(4294967280)),
    (Call::Fence, Ok(4294967281)),
    (Call::Poll, Ok(0)),
    // Pages that no command touches.
    (Call::Write(BEYOND, 0), Err(DriverFault::PageRange(BEYOND))),
    (Call::Write(OTHER, 4095), Err(DriverFault::PageRange(OTHER))),
    (Call::Write(OTHER, 4094), Ok(0)),
    (Call::Read(BEYOND), Err(DriverFault::PageRange(BEYOND))),
    (Call::Read(OTHER), Ok(9)),
    (Call::TakeBack(BEYOND), Err(DriverFault::PageRange(BEYOND))),
    (Call::TakeBack(OTHER), Err(DriverFault::NotLent(OTHER))),
    (Call::Lend(BEYOND), Err(DriverFault::PageRange(BEYOND))),
    (Call::Lend(OTHER), Ok(0)),
    (Call::Lend(OTHER), Err(DriverFault::PageLent(OTHER))),
    (Call::Write(OTHER, 4095), Err(DriverFault::PageRange(OTHER))),
    (Call::Write(OTHER, 0), Err(DriverFault::PageLent(OTHER))),
    (Call::Read(OTHER), Err(DriverFault::PageLent(OTHER))),
    (Call::TakeBack(OTHER), Ok(0)),
    (Call::Read(OTHER), Ok(9)),
    // Commands that are refused, and those that they want first.
    (
        Call::DefineScreen(16),
        Err(DriverFault::Refused(Fault::ScreenId)),
    ),
    (Call::DefineScreen(0), Ok(0)),
    (
        Call::DefineScreen(1),
        Err(DriverFault::Refused(Fault::PixelBudget)),
    ),
    (Call::Blit, Err(DriverFault::Refused(Fault::NoGmrfb))),
    (Call::DefineGmrfb(1), Ok(0)),
    (Call::BlitBack, Err(DriverFault::Refused(Fault::NoRegion))),
    (
        Call::MapSame(1, 2, 0),
        Err(DriverFault::Refused(Fault::NoRegion)),
    ),
    (Call::DefineRegion(1, 2), Ok(0)),
    (Call::MapSame(1, 2, 0), Ok(0)),
    (
        Call::Map(1, &[0, 2]),
        Err(DriverFault::Refused(Fault::BadPage)),
    ),
    (Call::Map(1, &[1, 0]), Ok(0)),
    // Pages that commands touch.
    (Call::Blit, Err(DriverFault::PageOut(OTHER))),
    (Call::Lend(OTHER), Ok(0)),
    (Call::Blit, Err(DriverFault::PageOut(GUEST))),
    (Call::Lend(GUEST), Ok(0)),
    (Call::Blit, Ok(0)),
    (Call::TakeBack(OTHER), Err(DriverFault::NoFence(OTHER))),
    (Call::Fence, Ok(4294967282)),
    (Call::Fence, Ok(4294967283)),
    (
        Call::TakeBack(OTHER),
        Err(DriverFault::NotYet {
            key: OTHER,
            fence: 4294967282,
        }),
    ),
    (Call::BlitBack, Ok(0)),
    (Call::TakeBack(GUEST), Err(DriverFault::NoFence(GUEST))),
    (Call::Fence, Ok(4294967284)),
    (
        Call::TakeBack(GUEST),
        Err(DriverFault::NotYet {
            key: GUEST,
            fence: 4294967284,
        }),
    ),
    (Call::Update, Err(DriverFault::PageOut(FRAME))),
    (Call::Lend(FRAME), Ok(0)),
    (Call::Update, Ok(0)),
    (Call::DestroyScreen(0), Ok(0)),
    (
        Call::DestroyScreen(0),
        Err(DriverFault::Refused(Fault::NoScreen)),
    ),
    (Call::Poll, Ok(0)),
    (Call::Settle, Ok(0)),
];

// As many pages as a call may map, all of them one.
const MANY: [u32; 2048] = [0; 2048];

// The calls of a session whose ring is full: 10,240 bytes, 8,212 of which a command of `MANY` takes.
const FULL: [(Call, Result<u64, DriverFault>); 6] = [
    (Call::DefineRegion(1, 2048), Ok(0)),
    (Call::Map(1, &MANY), Ok(0)),
    (
        Call::Map(1, &MANY),
        Err(DriverFault::NoRoom {
            stop: 1164,
            free: 2016,
        }),
    ),
    (
        Call::Map(2, &MANY),
        Err(DriverFault::Refused(Fault::NoRegion)),
    ),
    (Call::MapSame(1, 2048, 1), Ok(0)),
    (
        Call::Map(1, &MANY),
        Err(DriverFault::NoRoom {
            stop: 1164,
            free: 1992,
        }),
    ),
];

// A driver of that first fence, which answers the calls so, one after another.
fn after_calls(
    rt: &impl Abort,
    alloc: Global,
    first: u32,
    calls: &[(Call, Result<u64, DriverFault>)],
) -> Driver
    requires { length calls.now ≤ 50 }
{
    let (mut driver, _device) = ends(rt, alloc, first);
    for i in 0..calls.len() {
        let (call, want) = &calls[i];
        assert_eq!(rt; answer(&mut driver, call), *want, "at call {i}");
    }
    driver
}

// Such a driver, which then stops.
fn is_answered_so(
    rt: &impl Abort,
    alloc: Global,
    first: u32,
    calls: &[(Call, Result<u64, DriverFault>)],
)
    requires { length calls.now ≤ 50 }
{
    assert!(rt; after_calls(rt, alloc, first, calls).close().is_ok());
}

// The calls of a session that describes regions by chains: two that can't be begun; one whose table page is
// with the client; one that leads to no guest page, after which the page is still lent; and once a command is
// sent that no device takes, none any more.
const CHAINS: [(Call, Result<u64, DriverFault>); 13] = [
    (
        Call::Describe(4096, 1),
        Err(DriverFault::Refused(Fault::RegionId)),
    ),
    (
        Call::Describe(1, 2),
        Err(DriverFault::Refused(Fault::BadPage)),
    ),
    (Call::Describe(1, 1), Err(DriverFault::PageOut(OTHER))),
    (Call::Write(OTHER, 0), Ok(0)),
    (Call::Lend(OTHER), Ok(0)),
    (
        Call::Describe(1, 1),
        Err(DriverFault::Refused(Fault::BadPage)),
    ),
    (Call::Read(OTHER), Err(DriverFault::PageLent(OTHER))),
    (
        Call::MapSame(1, 1, 0),
        Err(DriverFault::Refused(Fault::NoRegion)),
    ),
    (Call::TakeBack(OTHER), Ok(0)),
    (Call::Fence, Ok(1)),
    (
        Call::Describe(1, 0),
        Err(DriverFault::Busy {
            stop: 1164,
            next: 1172,
        }),
    ),
    (
        Call::Describe(4096, 0),
        Err(DriverFault::Refused(Fault::RegionId)),
    ),
    (Call::Settle, Ok(0)),
];

// What each call answers while the first request is out.
const OUT: DriverFault = DriverFault::Asked {
    request: 1,
    reply: 0,
};

// The calls of a session whose device never answers. A table page of zeros is a chain that ends at once.
const ASKED: [(Call, Result<u64, DriverFault>); 7] = [
    (Call::Lend(OTHER), Ok(0)),
    (Call::Describe(1, 1), Ok(1)),
    (Call::DefineRegion(2, 1), Err(OUT)),
    (Call::Fence, Err(OUT)),
    (Call::TakeBack(OTHER), Err(OUT)),
    (Call::Describe(1, 1), Err(OUT)),
    (Call::Settle, Err(OUT)),
];

#[test]
fn a_chain_is_asked_for(rt: HostRuntime) {
    match after_calls(&rt, rt.alloc(), 1, &ASKED).close() {
        Ok(_) => panic!(rt; "a request is out"),
        Err(unsettled) => {
            assert_eq!(rt; unsettled.request, 1);
            assert_eq!(rt; unsettled.reply, 0);
        }
    }
}

#[test]
fn sessions(rt: HostRuntime) {
    is_answered_so(&rt, rt.alloc(), 4294967280, &SESSION);
    is_answered_so(&rt, rt.alloc(), 1, &FULL);
    is_answered_so(&rt, rt.alloc(), 1, &CHAINS);
    // The numbers of fences leave 0 out.
    is_answered_so(
        &rt,
        rt.alloc(),
        4294967295,
        &[(Call::Fence, Ok(4294967295)), (Call::Fence, Ok(1))],
    );
}
