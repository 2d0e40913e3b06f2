//! A call of a driver, made once.
ghost use Rattle.std.specs.Prelude.{◌≡◌, ◌<◌, length, true};
ghost use Rattle.svga_driver.specs.Driving.{IsShort};
ghost use Rattle.svga_model.specs.ClientActs.{CommitFence, DescribeRegion, ShowPage, calls_of};
ghost use Rattle.svga_model.specs.ScriptBounds.{is_bounded};
ghost use Rattle.svga_pair.specs.Calls.{call_at};
ghost use Rattle.svga_pair.specs.Going.{HasTried};
ghost use Rattle.svga_script.specs.Acts.{act_of};

use crate::answer::{Answer, Told, call_answer, fault_answer};
use crate::page_numbers::{key_behind, page_numbers};
use svga_cmd::PageKey;
use svga_cmd::constants::PAGE_SIZE;
use svga_driver::Driver;
use svga_script::ClientAct;

/// How many calls an act has: one for each page that it lends or takes, else one.
pub(crate) fn call_count(act: &ClientAct) -> u32
    ensures { result ≡ length (calls_of (act_of act.now)) }
{
    match act {
        ClientAct::Lend { first: _, count } => *count,
        ClientAct::Take { first: _, count } => *count,
        ClientAct::Screen { .. } => 1,
        ClientAct::Destroy { .. } => 1,
        ClientAct::Region { .. } => 1,
        ClientAct::Map { .. } => 1,
        ClientAct::Same { .. } => 1,
        ClientAct::Gmrfb(_) => 1,
        ClientAct::Blit(_) => 1,
        ClientAct::Back(_) => 1,
        ClientAct::Update { .. } => 1,
        ClientAct::Fence => 1,
        ClientAct::Write { .. } => 1,
        ClientAct::Fill { .. } => 1,
        ClientAct::Show { .. } => 1,
        ClientAct::Describe { .. } => 1,
    }
}

/// Makes call `k` of an act, and says what becomes of it.
pub(crate) fn attempt(driver: &mut Driver, act: &ClientAct, k: u32) -> Answer
    requires short { IsShort driver.old.view }
    requires bounded { is_bounded (act_of act.now) ≡ true }
    requires call { k < length (calls_of (act_of act.now)) }
    ensures { HasTried driver.old (call_at (act_of act.now) k) result driver.new }
{
    match act {
        ClientAct::Screen {
            id,
            width,
            height,
            x,
            y,
        } => call_answer(driver.define_screen(*id, *width, *height, *x, *y)),
        ClientAct::Destroy { id } => call_answer(driver.destroy_screen(*id)),
        ClientAct::Region { id, pages } => call_answer(driver.define_region(*id, *pages)),
        ClientAct::Map { id, offset, runs } => {
            let pages = page_numbers(runs.runs());
            call_answer(driver.map(*id, *offset, pages.as_slice()))
        }
        ClientAct::Same {
            id,
            offset,
            count,
            page,
        } => call_answer(driver.map_same(*id, *offset, *count, *page)),
        ClientAct::Gmrfb(gmrfb) => call_answer(driver.gmrfb(*gmrfb)),
        ClientAct::Blit(blit) => call_answer(driver.blit(*blit)),
        ClientAct::Back(blit) => call_answer(driver.blit_back(*blit)),
        ClientAct::Update {
            x,
            y,
            width,
            height,
        } => call_answer(driver.update(*x, *y, *width, *height)),
        ClientAct::Fence => fence(driver),
        ClientAct::Write { key, offset, bytes } => {
            call_answer(driver.write_page(*key, *offset, bytes.bytes()))
        }
        ClientAct::Fill { key, byte } => {
            call_answer(driver.write_page(*key, 0, &[*byte; PAGE_SIZE]))
        }
        ClientAct::Lend { first, count: _ } => call_answer(driver.lend(key_behind(*first, k))),
        ClientAct::Take { first, count: _ } => call_answer(driver.take_back(key_behind(*first, k))),
        ClientAct::Show { key } => show(driver, *key),
        ClientAct::Describe { id, page } => describe(driver, *id, *page),
    }
}

// Commits the next fence, and tells its number.
fn fence(driver: &mut Driver) -> Answer
    requires { IsShort driver.old.view }
    ensures { HasTried driver.old CommitFence result driver.new }
{
    match driver.fence() {
        Ok(fence) => Answer::Done(Told::Fence(fence.number)),
        Err(fault) => fault_answer(fault),
    }
}

// Tells a page, if it can be read.
fn show(driver: &Driver, key: PageKey) -> Answer
    ensures { HasTried driver.now (ShowPage key) result driver.now }
{
    match driver.read_page(key) {
        Ok(_) => Answer::Done(Told::Page(key)),
        Err(fault) => fault_answer(fault),
    }
}

// Asks for a chain of descriptors, or the end of a region.
fn describe(driver: &mut Driver, id: u32, first: u32) -> Answer
    ensures { HasTried driver.old (DescribeRegion id first) result driver.new }
{
    match driver.describe(id, first) {
        Ok(_) => Answer::Done(Told::Nothing),
        Err(fault) => fault_answer(fault),
    }
}
