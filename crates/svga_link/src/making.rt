//! How the two ends are made: the table with its opening words, and all the memory that they use.
ghost use Rattle.std.specs.FinMap as map;
ghost use Rattle.std.specs.Prelude.{◌≡◌, ℕ, ◌+◌, ◌++◌, [], replicate, IfOk, Some, None};
ghost use Rattle.svga_cmd.specs.Pages.{IsZeroMemoryOf};
ghost use Rattle.svga_cmd.specs.declared.constants.TheConstants.{PAGE_SIZE};
ghost use Rattle.svga_ring.specs.Core.{opening_words};
ghost use Rattle.svga_ring.specs.SharedTable.{page_count, table_length};
ghost use Rattle.svga_ring.specs.SoundWords.{capabilities as capabilities_of};
ghost use Rattle.svga_ring.specs.TableRule.{opening_view};
ghost use Rattle.svga_ring.specs.Views.{opening_device, opening_driver};

use crate::board::{Board, TableSeat};
use crate::device::DeviceEnd;
use crate::device_seat::DeviceSeat;
use crate::driver::DriverEnd;
use crate::driver_seat::DriverSeat;
use crate::plays::SplitEnds;
use crate::ring::ring_of;
use crate::table_words::{CAPABILITIES_BY_DWORD, CAPABILITIES_BY_RESERVE, CONFIG};
use atomic_table::Table;
use std::alloc::{AllocError, Global};
use std::sync::Arc;
use svga_cmd::constants::RING_START;
use svga_cmd::{Page, Session, Way};

fn capabilities(way: Way) -> u64
    ensures { result ≡ capabilities_of way }
{
    match way {
        Way::Reserve => CAPABILITIES_BY_RESERVE,
        Way::Dword => CAPABILITIES_BY_DWORD,
    }
}

// How many pages the session's device has.
fn pages(session: &Session) -> usize
    ensures { result ≡ page_count session.now.limits }
{
    session.limits.pages as usize + session.limits.frame_pages() as usize
}

// So many zeros behind the others.
fn zeros(words: &mut Vec<u64>, count: usize) -> Result<(), AllocError>
    ensures { IfOk result (λ _. words.new.items ≡ words.old.items ++ replicate count 0) }
{
    for _ in 0..count {
        words.push(0)?;
    }
    Ok(())
}

// MIN, MAX, NEXT_CMD, STOP, CAPABILITIES, FLAGS and FENCE, CONFIG_DONE, and 0 for all others.
fn words(alloc: Global, session: &Session) -> Result<Vec<u64>, AllocError>
    ensures { IfOk result (λ words. words.items ≡ opening_words session.now) }
{
    let mut words = vec![in alloc;
        RING_START as u64,
        session.ring as u64,
        RING_START as u64,
        RING_START as u64,
        capabilities(session.way),
        0,
        session.first as u64 - 1,
    ]?;
    zeros(&mut words, CONFIG - 7)?;
    words.push(1)?;
    zeros(&mut words, pages(session) + 2)?;
    Ok(words)
}

fn board(alloc: Global, session: &Session) -> Result<(Board, TableSeat), AllocError>
    ensures words { IfOk result (λ t. t.0.shared.table_id.words ≡ table_length session.now.limits) }
    ensures slots { IfOk result (λ t. t.0.shared.table_id.slots ≡ page_count session.now.limits) }
    ensures seat { IfOk result (λ t. (t.1.table_id ≡ t.0.shared.table_id) × (t.1.id ≡ 0)
        × (t.1.me ≡ (opening_view session.now, []))) }
    ensures key { IfOk result (λ t. t.0.shared.key ≡ session.now) }
{
    let words = words(alloc, session)?;
    let (table, seat) = Table::vacant(alloc, words.as_slice(), pages(session), session)?;
    Ok((table, seat))
}

// The driver's pages, all of them zeros.
fn zero_pages(alloc: Global, count: usize) -> Result<Vec<Option<Page>>, AllocError>
    ensures { IfOk result (λ row. row.items ≡ replicate count (Some (replicate PAGE_SIZE 0))) }
{
    let mut row = Vec::new(alloc);
    for _ in 0..count {
        row.push(Some(Page::new(alloc)?))?;
    }
    Ok(row)
}

// The device's room for pages.
fn no_pages(alloc: Global, count: usize) -> Result<Vec<Option<Page>>, AllocError>
    ensures { IfOk result (λ row. row.items ≡ replicate count None) }
{
    let mut row = Vec::new(alloc);
    for _ in 0..count {
        row.push(None)?;
    }
    Ok(row)
}

// Room for the words of the longest reservation.
fn zero_words(alloc: Global, count: usize) -> Result<Vec<u32>, AllocError>
    ensures { IfOk result (λ words. words.items ≡ replicate count 0) }
{
    let mut words = Vec::new(alloc);
    for _ in 0..count {
        words.push(0)?;
    }
    Ok(words)
}

/// The two ends of a new session, with all the memory that they use. The pages are with the driver and hold
/// zeros.
pub fn make(alloc: Global, session: &Session) -> Result<(DriverEnd, DeviceEnd), AllocError>
    ensures one_table { IfOk result (λ ends. ends.0.table ≡ ends.1.table) }
    ensures driver { IfOk result (λ ends. ends.0.view ≡ opening_driver session.now) }
    ensures none_reserved { IfOk result (λ ends. (ends.0.reserved ≡ 0) × (ends.0.words ≡ [])) }
    ensures pages { IfOk result (λ ends. IsZeroMemoryOf session.now.limits ends.0.pages) }
    ensures device { IfOk result (λ ends. ends.1.view ≡ opening_device session.now) }
    ensures none_held { IfOk result (λ ends. ends.1.pages ≡ map.empty) }
{
    let ring = ring_of(session);
    let buffer = zero_words(alloc, ((ring.max - ring.min) / 4) as usize)?;
    let full = zero_pages(alloc, pages(session))?;
    let room = no_pages(alloc, pages(session))?;
    let (table, mut seat) = board(alloc, session)?;
    let board = Arc::new(alloc, table)?;
    let theirs = Arc::try_clone(&board)?;
    let other = board.shared.split_seat::<SplitEnds>(&mut seat);
    let driver = DriverSeat::new(board, seat, session);
    let device = DeviceSeat::new(theirs, other, session);
    Ok((
        DriverEnd::new(driver, buffer, full),
        DeviceEnd::new(device, room),
    ))
}
