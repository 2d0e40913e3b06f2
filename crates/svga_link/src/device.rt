//! The device's end: the words that were sent, which of them are taken, the pages that it holds, and what it
//! answers.
ghost use Rattle.std.specs.FinMap as map;
ghost use Rattle.std.specs.Prelude.{◌≡◌, ◌-◌, ◌<◌, [], ℕ, List, false, is_some, replicate, true, None};
ghost use Rattle.svga_cmd.specs.Pages.{HasPage, IsKey, page_at};
ghost use Rattle.svga_cmd.specs.Spelling.{Spells};
ghost use Rattle.svga_cmd.specs.declared.command.Command.{Command};
ghost use Rattle.svga_cmd.specs.declared.command.Command.TheVariants.{Fence};
ghost use Rattle.svga_cmd.specs.declared.session.Session.{Session};
ghost use Rattle.svga_link.specs.Ends.{pages_in};
ghost use Rattle.svga_link.specs.Holding.{RequestTold, holding, replied, returned, with_config, with_fence};
ghost use Rattle.svga_link.specs.Seats.{IsDevicePossible};
ghost use Rattle.svga_link.specs.Told.{NextTold, served, with_read};
ghost use Rattle.svga_model.specs.Acts.{Act};
ghost use Rattle.svga_model.specs.Memories.{page_bytes};
ghost use Rattle.svga_ring.specs.Conditions.{IsChainServed, IsInHand, IsServed};
ghost use Rattle.svga_ring.specs.Core.{read_count};
ghost use Rattle.svga_ring.specs.Noting.{MayHold, holds};
ghost use Rattle.svga_ring.specs.SharedTable.{page_count};
ghost use Rattle.svga_ring.specs.Views.{device as the_device, opening_device};

use crate::board::TableSeat;
use crate::device_seat::DeviceSeat;
use crate::requests::Request;
use std::marker::Model;
use svga_cmd::{Page, PageKey, PageStore};

/// The device's end of a session. It can be sent to another thread; none of its calls takes memory or waits.
#[derive(Drop)]
pub struct DeviceEnd {
    seat: DeviceSeat,
    row: Vec<Option<Page>>,
    answered: u32,
}

impl Model for DeviceEnd {
    ghost use Rattle.std.specs.Coded.{codes};
    ghost use Rattle.std.specs.FinMap as map;
    ghost use base.Stored.{coded_unit};
    ghost use Rattle.atomic_table.specs.Seated.{table_id_coded};
    ghost use Rattle.std.specs.Prelude.{◌≡◌};
    ghost use Rattle.svga_link.specs.Ends.{DeviceSeen, IsDeviceEnd, pages_in};

    ghost Value = { DeviceSeen };

    ghost coded = { Prim.hlevel (codes, map.code, table_id_coded, coded_unit) };

    ghost view = { λ d.
        record {
          table = d.seat.table;
          view = d.seat.view;
          pages = pages_in d.seat.view.terms.limits d.row.items;
        } };

    ghost invariant = { λ d. IsDeviceEnd d.seat.view d.seat.carried d.row.items
        × (d.answered ≡ d.seat.view.answered) };
}

impl DeviceEnd {
    pub(crate) fn new(seat: DeviceSeat, row: Vec<Option<Page>>) -> DeviceEnd
        requires carried { seat.carried ≡ [] }
        requires opening { (session : Session) × (seat.view ≡ opening_device session) }
        requires row { row.items ≡ replicate (page_count seat.view.terms.limits) None }
        ensures { result
            ≡ record {
              table = seat.table;
              view = seat.view;
              pages = pages_in seat.view.terms.limits row.items;
            } }
    {
        DeviceEnd {
            seat,
            row,
            answered: 0,
        }
    }

    /// The number below that of the session's first fence: what FENCE holds at the opening.
    pub fn opening_fence(&self) -> u32
        ensures { result ≡ self.now.view.terms.first - 1 }
    {
        self.seat.opening_fence()
    }

    /// One load of NEXT_CMD.
    pub fn read_next(&mut self) -> u32
        ensures left { self.new ≡ record self.old { view = self.new.view } }
        ensures told { NextTold self.old.view self.new.view result }
    {
        self.seat.load_next()
    }

    /// How many words are known to be sent and aren't read yet.
    pub fn known(&self) -> u32
        ensures { result ≡ self.now.view.next - read_count self.now.view }
    {
        self.seat.known()
    }

    /// Reads the next word that was sent.
    pub fn next_word(&mut self) -> u32
        requires known { read_count self.old.view < self.old.view.next }
        requires unread { (command : Command) → Spells command self.old.view.read → ⊥ }
        ensures { self.new ≡ record self.old { view = with_read self.old.view result } }
    {
        self.seat.load_cell()
    }

    /// Takes the words of the command that was read, and is served.
    pub fn store_stop(&mut self)
        requires { (command : Command) × IsServed self.old.view command }
        ensures { (command : Command) → Spells command self.old.view.read
            → self.new ≡ record self.old { view = served self.old.view command } }
    {
        self.seat.store_stop();
    }

    /// The end's seat at the table.
    pub(crate) fn into_seat(self) -> TableSeat
        ensures table { result.table_id ≡ self.table }
        ensures role { result.me.0.role ≡ the_device }
        ensures view { (result.me.0.of_device ≡ self.view) × (result.me.1 ≡ []) }
    {
        self.seat.into_seat()
    }

    /// Takes a page that the act in hand touches.
    pub fn hold(&mut self, key: PageKey)
        requires key { IsKey self.old.view.terms.limits key }
        requires free { holds self.old.view.noted key ≡ false }
        requires touched { (act : Act) × IsInHand self.old.view act × MayHold self.old.view act key }
        ensures { (bytes : List ℕ) × (self.new
            ≡ record self.old {
              view = holding self.old.view key bytes;
              pages = map.insert self.old.pages key bytes;
            }) }
    {
        let slot = self.seat.slot_number(key);
        let page = self.seat.hold(key);
        self.row[slot] = page;
    }

    /// Whether the page is held.
    pub fn held(&self, key: PageKey) -> bool
        requires { IsKey self.now.view.terms.limits key }
        ensures { result ≡ holds self.now.view.noted key }
    {
        let slot = self.seat.slot_number(key);
        self.row[slot].is_some()
    }

    /// Gives a page that is held back, as it is now.
    pub fn give(&mut self, key: PageKey)
        requires { holds self.old.view.noted key ≡ true }
        ensures { self.new
            ≡ record self.old {
              view = returned self.old.view key (page_bytes self.old.pages key);
              pages = map.remove self.old.pages key;
            } }
    {
        let slot = self.seat.slot_number(key);
        let page = self.row[slot].take().unwrap();
        self.seat.give(key, page);
    }

    /// Stores the number of the fence that was read.
    pub fn store_fence(&mut self, value: u32)
        requires { Spells (Fence value) self.old.view.read }
        ensures { self.new ≡ record self.old { view = with_fence self.old.view } }
    {
        self.seat.store_fence(value);
    }

    /// One load of CONFIG_DONE: whether the driver runs.
    pub fn read_config(&mut self) -> bool
        ensures { self.new ≡ record self.old { view = with_config self.old.view result } }
    {
        self.seat.load_config()
    }

    /// The driver's last request, unless it is answered.
    pub fn read_request(&mut self) -> Option<Request>
        ensures left { self.new ≡ record self.old { view = self.new.view } }
        ensures told { RequestTold self.old.view self.new.view result }
    {
        let request = self.seat.load_request();
        if request.number == self.answered {
            None
        } else {
            Some(request)
        }
    }

    /// Answers the request whose chain was loaded, and is served.
    pub fn reply(&mut self, number: u32)
        requires served { IsChainServed self.old.view }
        requires number { number ≡ self.old.view.wanted.number }
        ensures { self.new ≡ record self.old { view = replied self.old.view } }
    {
        self.answered = number;
        self.seat.store_reply(number);
    }

    /// What stands between the pages and the view. It does nothing.
    pub fn facts(&self)
        ensures possible { IsDevicePossible self.now.view }
        ensures held { (key : PageKey)
            → holds self.now.view.noted key ≡ is_some (page_at self.now.pages key) }
        ensures keys { (key : PageKey) → HasPage self.now.pages key
            → IsKey self.now.view.terms.limits key }
    {
        self.seat.facts();
    }
}

/// What contracts see of a device's end beside its pages.
pub struct Beside {
    nothing: (),
}

impl Model for Beside {
    ghost use Rattle.std.specs.Coded.{codes};
    ghost use Rattle.std.specs.FinMap as map;
    ghost use base.Stored.{coded_unit};
    ghost use Rattle.atomic_table.specs.Seated.{table_id_coded};
    ghost use Rattle.svga_link.specs.Ends.{DeviceRest};
    ghost use Rattle.svga_link.specs.Ends.{no_rest};

    ghost Value = { DeviceRest };

    ghost coded = { Prim.hlevel (codes, map.code, table_id_coded, coded_unit) };

    ghost view = { λ _. no_rest };
}

impl PageStore for DeviceEnd {
    type Rest = Beside;

    ghost use Rattle.std.specs.FinMap as map;
    ghost use Rattle.std.specs.Prelude.{refl};

    ghost pages = { λ d. d.pages };

    ghost rest = { λ d. record { table = d.table; view = d.view } };

    ghost with_page = { λ d key bytes. record d { pages = map.insert d.pages key bytes } };

    ghost pages_with = { λ d key bytes present. refl };

    ghost rest_with = { λ d key bytes. refl };

    fn page(&self, key: PageKey) -> &Page {
        let slot = self.seat.slot_number(key);
        match &self.row[slot] {
            Some(page) => page,
            None => unreachable!(),
        }
    }

    fn page_mut(&mut self, key: PageKey) -> &mut Page {
        let slot = self.seat.slot_number(key);
        match &mut self.row[slot] {
            Some(page) => page,
            None => unreachable!(),
        }
    }
}
