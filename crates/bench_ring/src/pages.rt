//! All pages of a session: each is written, lent, and taken back behind a fence that another thread takes.
ghost use Rattle.bench_ring.specs.Lendings.{AreLent, HasSeenAll, SendsFences};
ghost use Rattle.bench_ring.specs.Passing.{IsWaiting, fence_count};
ghost use Rattle.std.specs.Prelude.{◌≡◌, ◌+◌, ◌<◌, ◌≤◌};
ghost use Rattle.svga_cmd.specs.Pages.{HasPage};
ghost use Rattle.svga_cmd.specs.declared.page.PageKey.TheVariants.{Guest};

use crate::commands::fence;
use crate::passing::RING;
use crate::receiving::take_fences;
use crate::sending::send;
use std::alloc::Global;
use std::sync::Wait;
use std::thread::Threads;
use std::{io, thread};
use svga_cmd::{Limits, PageKey, Session, Way};
use svga_link::{DriverEnd, make};

// The guest's pages.
const PAGES: u32 = 4096;

const LIMITS: Limits = Limits {
    pages: PAGES,
    gfb_width: 8,
    gfb_height: 2,
    budget: 64,
};

// So many pages are lent before a fence.
const AT_ONCE: u32 = 64;

/// So many times pages are lent until each was once.
pub const TURNS: u32 = PAGES / AT_ONCE;

/// So many turns send fewer fences than their window has.
pub const MOST_TURNS: u32 = 65_535;

// A byte of the page's number.
fn byte_of(page: u32) -> u8 {
    (page % 255 + 1) as u8
}

// Writes the byte into the page, at the place of the page's number: so no two pages are the same.
fn write(driver: &mut DriverEnd, page: u32)
    requires page { page < 4096 }
    requires mine { HasPage driver.old.pages (Guest page) }
    ensures mine { HasPage driver.new.pages (Guest page) }
    ensures view { driver.new.view ≡ driver.old.view }
    ensures reserved { driver.new.reserved ≡ driver.old.reserved }
{
    match driver.page_mut(PageKey::Guest(page)) {
        Some(found) => found.bytes_mut()[page as usize] = byte_of(page),
        None => unreachable!(),
    }
}

// Whether the page is with the driver and has that byte there.
fn is_as_written(driver: &DriverEnd, page: u32) -> bool
    requires { page < 4096 }
{
    match driver.page(PageKey::Guest(page)) {
        Some(found) => found.bytes()[page as usize] == byte_of(page),
        None => false,
    }
}

// Writes and lends these pages.
fn lend_pages(driver: &mut DriverEnd, from: u32, past: u32)
    requires order { from ≤ past }
    requires within { past ≤ 4096 }
    requires sends { SendsFences driver.old }
    requires none_lent { AreLent driver.old.view.lent from from }
    ensures sends { SendsFences driver.new }
    ensures lent { AreLent driver.new.view.lent from past }
    ensures fences { fence_count driver.new.view ≡ fence_count driver.old.view }
{
    for page in from..past {
        driver.facts();
        write(driver, page);
        driver.lend(PageKey::Guest(page));
    }
}

// Sends the next fence.
fn send_fence<R: Wait>(rt: &R, driver: &mut DriverEnd, number: u32)
    requires sends { SendsFences driver.old }
    requires number { number ≡ fence_count driver.old.view + 1 }
    requires window { number ≤ 65536 }
    ensures sends { SendsFences driver.new }
    ensures lent { driver.new.view.lent ≡ driver.old.view.lent }
    ensures fences { fence_count driver.new.view ≡ number }
{
    send(rt, driver, &fence(number));
}

// Waits until the last fence has passed.
fn wait_for<R: Wait>(rt: &R, driver: &mut DriverEnd, number: u32)
    requires sends { SendsFences driver.old }
    requires number { number ≡ fence_count driver.old.view }
    requires window { number ≤ 65536 }
    ensures sends { SendsFences driver.new }
    ensures lent { driver.new.view.lent ≡ driver.old.view.lent }
    ensures fences { fence_count driver.new.view ≡ number }
    ensures seen { HasSeenAll driver.new.view }
{
    for _ in rt.forever() {
        if driver.read_fence() == number {
            return;
        }
    }
    unreachable!()
}

// Takes these pages back, and tells how many hold what was written.
fn take_pages(driver: &mut DriverEnd, from: u32, past: u32) -> u32
    requires order { from ≤ past }
    requires within { past ≤ 4096 }
    requires sends { SendsFences driver.old }
    requires lent { AreLent driver.old.view.lent from past }
    requires behind { HasSeenAll driver.old.view }
    ensures sends { SendsFences driver.new }
    ensures none_lent { AreLent driver.new.view.lent past past }
    ensures fences { fence_count driver.new.view ≡ fence_count driver.old.view }
    ensures found { from + result ≤ past }
{
    let mut found = 0;
    for page in from..past {
        driver.take(PageKey::Guest(page));
        if is_as_written(driver, page) {
            found += 1;
        }
    }
    found
}

// Lends these pages, and takes them back behind a fence; tells how many hold what was written.
fn lend_and_take<R: Wait>(rt: &R, driver: &mut DriverEnd, from: u32, past: u32, number: u32) -> u32
    requires order { from ≤ past }
    requires within { past ≤ 4096 }
    requires sends { SendsFences driver.old }
    requires none_lent { AreLent driver.old.view.lent from from }
    requires number { number ≡ fence_count driver.old.view + 1 }
    requires window { number ≤ 65536 }
    ensures sends { SendsFences driver.new }
    ensures none_lent { AreLent driver.new.view.lent past past }
    ensures fences { fence_count driver.new.view ≡ number }
    ensures found { from + result ≤ past }
{
    lend_pages(driver, from, past);
    send_fence(rt, driver, number);
    wait_for(rt, driver, number);
    take_pages(driver, from, past)
}

// Lends and takes the pages of so many turns.
fn lend_in_turn<R: Wait>(rt: &R, driver: &mut DriverEnd, turns: u32) -> u32
    requires sends { SendsFences driver.old }
    requires opening { (fence_count driver.old.view ≡ 0) × AreLent driver.old.view.lent 0 0 }
    requires few { turns ≤ 65535 }
{
    let mut found = 0;
    for turn in 0..turns {
        let from = turn % TURNS * AT_ONCE;
        found += lend_and_take(rt, driver, from, from + AT_ONCE, turn + 1);
    }
    found
}

/// How many pages are found as they were written, of those that are lent and taken in so many turns, each of
/// some pages, while another thread takes the fences.
pub fn lend_all<R: Threads + Wait + Copy + Send + 'static>(
    rt: R,
    alloc: Global,
    turns: u32,
) -> io::Result<u32>
    requires { turns ≤ 65535 }
{
    let Some(session) = Session::new(RING, LIMITS, 1, Way::Reserve) else {
        return Ok(0);
    };
    let (mut driver, device) = make(alloc, &session)?;
    let child = thread::spawn(
        &rt,
        move || -> u32
            requires { IsWaiting device.view }
        { take_fences(rt, device, 1, turns) },
    )?;
    let found = lend_in_turn(&rt, &mut driver, turns);
    let _taken = child.join(&rt);
    Ok(found)
}
