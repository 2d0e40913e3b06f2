//! How a session ends: the driver's seat takes in the device's, and then all pages that are at home.
ghost use Rattle.std.specs.FinSet as set;
ghost use Rattle.std.specs.Prelude.{◌≡◌, ◌<◌, ◌^◌, ◌∷◌, [], length, not, is_some, Some, true};
ghost use Rattle.svga_link.specs.Closing.{AreClosingPages, AreGathered, HasOwnPages, HasTaken, closing, closing_slot, slot_key};
ghost use Rattle.svga_model.specs.Fences.{fences, register_after};
ghost use Rattle.svga_model.specs.Runs.{run};
ghost use Rattle.svga_ring.specs.Committed.{commands};
ghost use Rattle.svga_ring.specs.Conditions.{MayJoin, first_state};
ghost use Rattle.svga_ring.specs.SharedTable.{page_count, table_length};
ghost use Rattle.svga_ring.specs.TableRule.{joined_view};
ghost use Rattle.svga_ring.specs.TableSteps.{page_left};
ghost use Rattle.svga_ring.specs.Views.{device as the_device, driver as the_driver, joined};

use crate::board::{Board, TableSeat};
use crate::closed::Closed;
use crate::closing_plays::{JoinEnds, Look, TakeHome};
use crate::device::DeviceEnd;
use crate::driver::DriverEnd;
use crate::table_words::{FENCE, FIRST_PAGE};
use svga_cmd::Page;

// What a page's word says while its slot is out with the driver.
const OUT_WITH_DRIVER: u64 = 3;

// The driver's seat takes in the device's.
fn join(board: &Board, seat: &mut TableSeat, other: TableSeat)
    requires table { seat.old.table_id ≡ board.now.shared.table_id }
    requires other_table { other.table_id ≡ board.now.shared.table_id }
    requires words { board.now.shared.table_id.words ≡ table_length seat.old.me.0.of_driver.terms.limits }
    requires roles { (seat.old.me.0.role ≡ the_driver) × (other.me.0.role ≡ the_device) }
    requires none_carried { other.me.1 ≡ [] }
    requires may { MayJoin other.me.0.of_device }
    ensures table { seat.new.table_id ≡ seat.old.table_id }
    ensures told { seat.new.me ≡ (joined_view seat.old.me.0 other.me.0, seat.old.me.1) }
{
    board.shared.join_seat::<JoinEnds>(seat, other);
}

// Looks at FENCE. With it the joined seat learns that all is taken, and what is kept.
fn last_fence(board: &Board, seat: &mut TableSeat) -> u32
    requires table { seat.old.table_id ≡ board.now.shared.table_id }
    requires words { board.now.shared.table_id.words ≡ table_length seat.old.me.0.of_driver.terms.limits }
    requires role { seat.old.me.0.role ≡ joined }
    requires first { seat.old.me.0.of_driver.terms.first < 2 ^ 32 }
    ensures table { seat.new.table_id ≡ seat.old.table_id }
    ensures left { seat.new.me ≡ seat.old.me }
    ensures fence { let d = seat.old.me.0.of_driver in
        result ≡ register_after d.terms.first (length (fences (commands d.acts))) }
    ensures taken { seat.old.me.0.of_device.taken ≡ seat.old.me.0.of_driver.sent }
    ensures kept { let d = seat.old.me.0.of_driver in
        seat.old.me.0.of_device.kept ≡ (run (first_state d) d.acts).kept }
    ensures none_pending { seat.old.me.0.of_driver.pending ≡ [] }
{
    board.shared.load::<Look>(seat, FENCE) as u32
}

// The lent page of this slot, which is at home. Its slot stays out with the seat.
fn take_home(board: &Board, seat: &mut TableSeat, slot: usize) -> Option<Page>
    requires table { seat.old.table_id ≡ board.now.shared.table_id }
    requires words { board.now.shared.table_id.words ≡ table_length seat.old.me.0.of_driver.terms.limits }
    requires role { seat.old.me.0.role ≡ joined }
    requires slot { slot < page_count seat.old.me.0.of_driver.terms.limits }
    requires short { slot < 2 ^ 63 }
    requires lent { let d = seat.old.me.0.of_driver in
        set.contains d.lent (slot_key d.terms.limits slot) ≡ true }
    ensures table { seat.new.table_id ≡ seat.old.table_id }
    ensures page { let d = seat.old.me.0.of_driver in
        result ≡ Some (page_left d (slot_key d.terms.limits slot)) }
    ensures left { HasTaken (slot_key seat.old.me.0.of_driver.terms.limits slot) seat.old.me.0 seat.new.me.0 }
{
    board
        .shared
        .store::<TakeHome>(seat, FIRST_PAGE + slot, OUT_WITH_DRIVER);
    board.shared.exchange(seat, slot, None)
}

// Into the place of a page that is lent comes the page.
fn bring(board: &Board, seat: &mut TableSeat, slot: usize, place: &mut Option<Page>)
    requires table { seat.old.table_id ≡ board.now.shared.table_id }
    requires words { board.now.shared.table_id.words ≡ table_length seat.old.me.0.of_driver.terms.limits }
    requires role { seat.old.me.0.role ≡ joined }
    requires slot { slot < page_count seat.old.me.0.of_driver.terms.limits }
    requires short { slot < 2 ^ 63 }
    requires mine { let d = seat.old.me.0.of_driver in
        is_some place.old ≡ not (set.contains d.lent (slot_key d.terms.limits slot)) }
    ensures table { seat.new.table_id ≡ seat.old.table_id }
    ensures page { let d = seat.old.me.0.of_driver in
        place.new ≡ closing_slot d (slot_key d.terms.limits slot) place.old }
    ensures left { HasTaken (slot_key seat.old.me.0.of_driver.terms.limits slot) seat.old.me.0 seat.new.me.0 }
{
    if place.is_none() {
        *place = take_home(board, seat, slot);
    }
}

// Into the places of all pages that are lent come the pages.
fn gather(board: &Board, seat: &mut TableSeat, row: &mut Vec<Option<Page>>)
    requires table { seat.old.table_id ≡ board.now.shared.table_id }
    requires words { board.now.shared.table_id.words ≡ table_length seat.old.me.0.of_driver.terms.limits }
    requires role { seat.old.me.0.role ≡ joined }
    requires own { HasOwnPages seat.old.me.0.of_driver row.old.items }
    ensures { AreGathered seat.old.me.0 row.old.items (length row.old.items) seat.new.me.0 row.new.items }
{
    for slot in 0..row.len() {
        bring(board, seat, slot, &mut row[slot]);
    }
}

/// Closes a session whose driver has stopped, and all of whose words are taken: the two ends become one, with
/// all pages. It takes no memory.
pub fn close(driver: DriverEnd, device: DeviceEnd) -> Closed
    requires one_table { driver.table ≡ device.table }
    requires stopped { driver.view.stopped ≡ true }
    requires may { MayJoin device.view }
    ensures left { result ≡ closing driver.view result.pages }
    ensures pages { AreClosingPages driver.view driver.pages result.pages }
    ensures taken { device.view.taken ≡ driver.view.sent }
    ensures kept { device.view.kept ≡ (run (first_state driver.view) driver.view.acts).kept }
{
    let other = device.into_seat();
    let (driver_seat, mut row) = driver.into_parts();
    let (board, mut seat, session, next_cmd, next_stores) = driver_seat.into_parts();
    join(&board, &mut seat, other);
    let fence = last_fence(&board, &mut seat);
    gather(&board, &mut seat, &mut row);
    Closed::new(seat, session, next_cmd, fence, next_stores, row)
}
