//! The driver's end: reservations, their words, and what it learns of the device.
ghost use Rattle.std.specs.Prelude.{◌≡◌, ◌≢◌, ℕ, ◌+◌, ◌*◌, ◌/◌, ◌%◌, ◌<◌, ◌≤◌, ◌^◌, [], ◌∷◌, ◌++◌, length, false, true, not, is_some, option_copied, replicate, Some};
ghost use Rattle.std.specs.Option.{option_copied_mut};
ghost use Rattle.std.specs.Borrow.{sem, Lends, LendsIf};
ghost use Rattle.std.specs.FinMap as map;
ghost use Rattle.std.specs.FinSet as set;
ghost use Rattle.svga_cmd.specs.Pages.{HasPage, IsKey, page_at};
ghost use Rattle.svga_cmd.specs.Spelling.{Spells};
ghost use Rattle.svga_cmd.specs.declared.command.Command.{Command};
ghost use Rattle.svga_cmd.specs.declared.constants.TheConstants.{PAGE_SIZE};
ghost use Rattle.svga_cmd.specs.contracts.page.Page.{the_row as page_row};
ghost use Rattle.svga_cmd.specs.declared.page.PageKey.{PageKey};
ghost use Rattle.svga_cmd.specs.declared.session.Session.{Session};
ghost use Rattle.svga_link.specs.Closing.{HasOwnPages};
ghost use Rattle.svga_model.specs.Memories.{page_bytes};
ghost use Rattle.svga_link.specs.Ends.{pages_in};
ghost use Rattle.svga_link.specs.Lending.{FenceTold, MayAskFor, MayTakeBack, asking, lending, stopping, taking, with_page, with_reply};
ghost use Rattle.svga_link.specs.ReserveAnswers.{CanBegin, ReserveAnswers};
ghost use Rattle.svga_link.specs.Reserving.{MaySend, goes_in_place, putting, reserved_by};
ghost use Rattle.svga_link.specs.Seats.{IsDriverPossible};
ghost use Rattle.svga_link.specs.Told.{StopTold, committed};
ghost use Rattle.svga_link.specs.contracts.driver.DriverEnd.{the_row};
ghost use Rattle.svga_ring.specs.Conditions.{NoneOpen, NoSlotOut, unsent};
ghost use Rattle.svga_ring.specs.Layouts.{ring_dwords};
ghost use Rattle.svga_ring.specs.SharedTable.{page_count};
ghost use Rattle.svga_ring.specs.TableSteps.{page_left};
ghost use Rattle.svga_ring.specs.Views.{opening_driver};

use crate::driver_pages::{lend, take};
use crate::driver_seat::DriverSeat;
use crate::reserving::{ReserveFault, Reserved, is_in_place, reserve_on};
use crate::sending::send;
use std::marker::Model;
use svga_cmd::{Page, PageKey};

/// The driver's end of a session. It can be sent to another thread; none of its calls takes memory or waits.
#[derive(Drop)]
pub struct DriverEnd {
    seat: DriverSeat,
    reserved: u32,
    in_place: bool,
    buffer: Vec<u32>,
    filled: usize,
    row: Vec<Option<Page>>,
}

impl Model for DriverEnd {
    ghost use Rattle.std.specs.Coded.{codes};
    ghost use Rattle.std.specs.FinMap as map;
    ghost use base.Stored.{coded_unit};
    ghost use Rattle.atomic_table.specs.Seated.{table_id_coded};
    ghost use Rattle.svga_link.specs.Ends.{DriverSeen, IsDriverEnd, pages_in, words_put};

    ghost Value = { DriverSeen };

    ghost coded = { Prim.hlevel (codes, map.code, table_id_coded, coded_unit) };

    ghost view = { λ d.
        record {
          table = d.seat.table;
          view = d.seat.view;
          reserved = d.reserved;
          words = words_put d.seat.view.pending d.buffer.items d.filled;
          pages = pages_in d.seat.view.terms.limits d.row.items;
        } };

    ghost invariant = { λ d.
        IsDriverEnd d.seat.view d.seat.carried d.reserved d.in_place d.buffer.items d.filled d.row.items };
}

impl DriverEnd {
    pub(crate) fn new(seat: DriverSeat, buffer: Vec<u32>, row: Vec<Option<Page>>) -> DriverEnd
        requires carried { seat.carried ≡ [] }
        requires opening { (session : Session) × (seat.view ≡ opening_driver session) }
        requires buffer { length buffer.items ≡ ring_dwords seat.view.layout }
        requires row { row.items ≡ replicate (page_count seat.view.terms.limits)
            (Some (replicate PAGE_SIZE 0)) }
        ensures { result
            ≡ record {
              table = seat.table;
              view = seat.view;
              reserved = 0;
              words = [];
              pages = pages_in seat.view.terms.limits row.items;
            } }
    {
        DriverEnd {
            seat,
            reserved: 0,
            in_place: false,
            buffer,
            filled: 0,
            row,
        }
    }

    /// One load of STOP.
    pub fn read_stop(&mut self) -> u32
        ensures left { self.new ≡ record self.old { view = self.new.view } }
        ensures told { StopTold self.old.view self.new.view result }
    {
        self.seat.load_stop()
    }

    /// Begins a reservation of so many bytes, where there is room for them by a load of STOP.
    pub fn reserve(&mut self, bytes: u32) -> Result<Reserved, ReserveFault>
        requires runs { self.old.view.stopped ≡ false }
        requires short { length self.old.view.sent + bytes / 4 < 2 ^ 62 }
        ensures { ReserveAnswers self.old bytes result self.new }
    {
        let ring = self.seat.geometry();
        if bytes >= ring.max - ring.min {
            return Err(ReserveFault::TooLarge);
        }
        if bytes == 0 || bytes % 4 != 0 {
            return Err(ReserveFault::Unaligned);
        }
        if self.reserved != 0 {
            return Err(ReserveFault::Reserving);
        }
        self.begin(bytes)
    }

    // Begins the reservation if there is room by a load of STOP.
    fn begin(&mut self, bytes: u32) -> Result<Reserved, ReserveFault>
        requires runs { self.old.view.stopped ≡ false }
        requires short { length self.old.view.sent + bytes / 4 < 2 ^ 62 }
        requires can { CanBegin self.old bytes }
        ensures { ReserveAnswers self.old bytes result self.new }
    {
        match reserve_on(&mut self.seat, bytes) {
            Err(fault) => Err(fault),
            Ok(reserved) => {
                self.seat.facts();
                self.in_place = is_in_place(self.seat.way(), reserved.first == bytes);
                self.reserved = bytes;
                Ok(reserved)
            }
        }
    }

    /// The next word of the reservation that is begun. By reservations it is pending at once, where the
    /// reservation doesn't wrap.
    pub fn put(&mut self, word: u32)
        requires { 4 * length self.old.words < self.old.reserved }
        ensures { self.new
            ≡ record self.old {
              view = putting self.old.view self.old.reserved word;
              words = self.old.words ++ word ∷ [];
            } }
    {
        if self.in_place {
            self.seat.store_cell(word);
        } else {
            self.put_in_buffer(word);
        }
    }

    // Puts the word into the buffer.
    fn put_in_buffer(&mut self, word: u32)
        requires room { 4 * length self.old.words < self.old.reserved }
        requires apart { goes_in_place self.old.view self.old.reserved ≡ false }
        ensures { self.new ≡ record self.old { words = self.old.words ++ word ∷ [] } }
    {
        self.buffer[self.filled] = word;
        self.filled += 1;
    }

    /// Sends the words of the reservation, which is full.
    pub fn commit(&mut self)
        requires full { 4 * length self.old.words ≡ self.old.reserved }
        requires may { (command : Command) × MaySend self.old.view self.old.words command }
        ensures { (command : Command) → Spells command self.old.words
            → self.new ≡ record self.old {
              view = committed self.old.view command self.old.words;
              reserved = 0;
              words = [];
            } }
    {
        send(&mut self.seat, &self.buffer[..self.filled]);
        self.reserved = 0;
        self.in_place = false;
        self.filled = 0;
    }

    /// The end's seat, and its row of pages.
    pub(crate) fn into_parts(self) -> (DriverSeat, Vec<Option<Page>>)
        ensures seat { (result.0.table ≡ self.table) × (result.0.view ≡ self.view) }
        ensures row { HasOwnPages self.view result.1.items }
        ensures pages { self.pages ≡ pages_in self.view.terms.limits result.1.items }
    {
        (self.seat, self.row)
    }

    /// One load of FENCE.
    pub fn read_fence(&mut self) -> u32
        ensures left { self.new ≡ record self.old { view = self.new.view } }
        ensures told { FenceTold self.old.view self.new.view result }
    {
        self.seat.load_fence()
    }

    /// The page of this key, if it is one of the device's and with the driver.
    pub fn page(&self, key: PageKey) -> Option<&Page>
        ensures { option_copied result ≡ page_at self.now.pages key }
    {
        if self.seat.is_key(key) {
            self.row[self.seat.slot(key)].as_ref()
        } else {
            None
        }
    }

    /// The same, to be written.
    pub fn page_mut(&mut self, key: PageKey) -> Option<&mut Page>
        // What is last written through the result is the page's bytes from then on.
        ensures* writes_back { sem 𝓛 (LendsIf the_row page_row
            self.entry result (with_page self.old key) self.old) }
        ensures page { option_copied_mut result ≡ page_at self.old.pages key }
    {
        if self.page(key).is_some() {
            Some(self.page_here(key))
        } else {
            None
        }
    }

    // The page of this key, which is with the driver.
    fn page_here(&mut self, key: PageKey) -> &mut Page
        requires { HasPage self.old.pages key }
        ensures* writes_back { sem 𝓛 (Lends the_row page_row self.entry result (with_page self.old key)) }
        ensures page { page_at self.old.pages key ≡ Some result.now }
    {
        let slot = self.seat.slot(key);
        match &mut self.row[slot] {
            Some(page) => page,
            None => unreachable!(),
        }
    }

    /// Lends the page, which is with the driver: it comes to stand at home in the table.
    pub fn lend(&mut self, key: PageKey)
        requires { HasPage self.old.pages key }
        ensures { self.new
            ≡ record self.old {
              view = lending self.old.view key (page_bytes self.old.pages key);
              pages = map.remove self.old.pages key;
            } }
    {
        let slot = self.seat.slot(key);
        let page = self.row[slot].take().unwrap();
        lend(&mut self.seat, key, page);
    }

    /// Takes the page back, which is lent and which no command that isn't known to be done touches.
    pub fn take(&mut self, key: PageKey)
        requires { MayTakeBack self.old.view key }
        ensures { self.new
            ≡ record self.old {
              view = taking self.old.view key;
              pages = map.insert self.old.pages key (page_left self.old.view key);
            } }
    {
        let slot = self.seat.slot(key);
        self.row[slot] = take(&mut self.seat, key);
    }

    /// Asks for the descriptor chain of a region that begins on this page, and gives the request's number.
    pub fn ask(&mut self, id: u32, descriptor: u32) -> u32
        requires none_begun { self.old.reserved ≡ 0 }
        requires may { MayAskFor self.old.view id descriptor }
        ensures number { result ≡ self.new.view.request.number }
        ensures left { self.new ≡ record self.old { view = asking self.old.view id descriptor } }
    {
        self.seat.store_request(id, descriptor)
    }

    /// One load of the reply. A request is out until this is its number.
    pub fn read_reply(&mut self) -> u32
        ensures { self.new ≡ record self.old { view = with_reply self.old.view result } }
    {
        self.seat.load_reply()
    }

    /// Stops: CONFIG_DONE becomes 0.
    pub fn stop(&mut self)
        requires runs { self.old.view.stopped ≡ false }
        requires none_open { NoneOpen self.old.view }
        requires none_begun { self.old.reserved ≡ 0 }
        ensures { self.new ≡ record self.old { view = stopping self.old.view } }
    {
        self.seat.store_config();
    }

    /// What holds of the end between its calls. It does nothing.
    pub fn facts(&self)
        // Some core that is sound has the end's view.
        ensures possible { IsDriverPossible self.now.view }
        // The pages that are with it are those of the device that aren't lent.
        ensures mine { (key : PageKey) → IsKey self.now.view.terms.limits key
            → is_some (page_at self.now.pages key) ≡ not (set.contains self.now.view.lent key) }
        ensures keys { (key : PageKey) → HasPage self.now.pages key → IsKey self.now.view.terms.limits key }
        // All words of the commands are sent, and no page is on its way.
        ensures all_sent { unsent self.now.view ≡ [] }
        ensures none_out { NoSlotOut self.now.view }
        // Words are pending of a reservation alone, in which no more were put than it has.
        ensures none_pending { self.now.reserved ≡ 0 → (self.now.view.pending ≡ []) × (self.now.words ≡ []) }
        ensures put { 4 * length self.now.words ≤ self.now.reserved }
        ensures whole { self.now.reserved % 4 ≡ 0 }
        ensures reserved { self.now.view.reserved ≡ reserved_by self.now.view.terms.way self.now.reserved }
        ensures runs { self.now.reserved ≢ 0 → self.now.view.stopped ≡ false }
    {
        self.seat.facts();
    }
}
