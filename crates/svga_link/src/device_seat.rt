//! The device's seat: each call is one step on the shared table, but for `known`, which makes none, and
//! `hold` and `give`, which make three.
ghost use Rattle.std.specs.Prelude.{◌≡◌, ◌-◌, ◌<◌, [], ◌∷◌, List, ℕ, None, Some, false, true};
ghost use Rattle.std.specs.Arc.{arc_value};
ghost use Rattle.atomic_table.specs.Table.{rest};
ghost use Rattle.svga_cmd.specs.Pages.{IsKey, IsPage};
ghost use Rattle.svga_cmd.specs.Spelling.{Spells};
ghost use Rattle.svga_cmd.specs.declared.command.Command.{Command};
ghost use Rattle.svga_cmd.specs.declared.command.Command.TheVariants.{Fence};
ghost use Rattle.svga_link.specs.Holding.{HasNumbers, LoadsRequest, holding, replied, returned, with_config, with_fence};
ghost use Rattle.svga_link.specs.Seats.{IsDevicePossible, with_slot_home, with_slot_out};
ghost use Rattle.svga_link.specs.Told.{NextTold, served, with_read};
ghost use Rattle.svga_model.specs.Acts.{Act};
ghost use Rattle.svga_ring.specs.Conditions.{IsChainServed, IsInHand, IsServed};
ghost use Rattle.svga_ring.specs.Core.{read_count};
ghost use Rattle.svga_ring.specs.Locations.{Slot};
ghost use Rattle.svga_ring.specs.Noting.{MayHold, holds};
ghost use Rattle.svga_ring.specs.Requests as requests;
ghost use Rattle.svga_ring.specs.SharedTable.{page_count, slot_number as slot_of, table_length};
ghost use Rattle.svga_ring.specs.TableRule.{as_device, opening_view};
ghost use Rattle.svga_ring.specs.TableSteps.{Brings};
ghost use Rattle.svga_ring.specs.Views.{device as the_device, opening_device};

use crate::board::{Board, TableSeat};
use crate::device_plays::{
    GivePage, GiveSlot, HoldPage, LoadConfig, LoadRequest, StoreFence, StoreReply, TakeSlot,
};
use crate::page_words::{look, page_word, slot_number};
use crate::plays::{LoadCell, LoadNext, StoreStop};
use crate::requests::{Request, request_in};
use crate::ring::{ring_of, word_behind};
use crate::table_words::{CONFIG, FENCE, NEXT_COMMAND, REPLY, REQUEST, STOP};
use std::marker::Model;
use std::sync::Arc;
use svga_cmd::constants::RING_START;
use svga_cmd::{Page, PageKey, Session};
use svga_ring::free;

// What the word of a page says of it.
const AT_HOME: u64 = 1;

const WITH_DEVICE: u64 = 2;

const OUT_WITH_DEVICE: u64 = 4;

#[derive(Drop)]
pub(crate) struct DeviceSeat {
    board: Arc<Board>,
    seat: TableSeat,
    session: Session,
    next: u32,
    at: u32,
}

impl Model for DeviceSeat {
    ghost use Rattle.std.specs.Coded.{codes};
    ghost use Rattle.std.specs.Arc.{arc_value};
    ghost use Rattle.std.specs.FinMap as map;
    ghost use base.Stored.{coded_unit};
    ghost use Rattle.atomic_table.specs.Seated.{table_id_coded};
    ghost use Rattle.svga_link.specs.Seats.{IsDeviceSeat, IsTableOf, SeenDeviceSeat};

    ghost Value = { SeenDeviceSeat };

    ghost coded = { Prim.hlevel (codes, map.code, table_id_coded, coded_unit) };

    ghost view = { λ s.
        record { table = s.seat.table_id; view = s.seat.me.0.of_device; carried = s.seat.me.1 } };

    ghost invariant = { λ s.
        IsTableOf (arc_value s.board).shared.table_id (arc_value s.board).shared.key s.session s.seat.table_id
        × IsDeviceSeat s.session s.seat.me s.next s.at };
}

impl DeviceSeat {
    pub(crate) fn new(board: Arc<Board>, seat: TableSeat, session: &Session) -> DeviceSeat
        requires table { seat.table_id ≡ (arc_value board).shared.table_id }
        requires key { (arc_value board).shared.key ≡ session.now }
        requires words { seat.table_id.words ≡ table_length session.now.limits }
        requires slots { seat.table_id.slots ≡ page_count session.now.limits }
        requires opening { seat.me ≡ (as_device (opening_view session.now), []) }
        ensures { result ≡ record { table = seat.table_id; view = opening_device session.now; carried = [] } }
    {
        DeviceSeat {
            board,
            seat,
            session: *session,
            next: RING_START,
            at: RING_START,
        }
    }

    /// Some core that is sound has the seat's view. It does nothing.
    pub(crate) fn facts(&self)
        ensures { IsDevicePossible self.now.view }
    {
        // The invariant is known where a field is used.
        let _ = &self.board;
    }

    /// What FENCE holds at the opening.
    pub(crate) fn opening_fence(&self) -> u32
        ensures { result ≡ self.now.view.terms.first - 1 }
    {
        self.session.first - 1
    }

    pub(crate) fn load_next(&mut self) -> u32
        ensures table { self.new.table ≡ self.old.table }
        ensures carried { self.new.carried ≡ self.old.carried }
        ensures told { NextTold self.old.view self.new.view result }
    {
        self.next = self
            .board
            .shared
            .load::<LoadNext>(&mut self.seat, NEXT_COMMAND) as u32;
        self.next
    }

    /// How many words are known to be sent and aren't read yet.
    pub(crate) fn known(&self) -> u32
        ensures { result ≡ self.now.view.next - read_count self.now.view }
    {
        let ring = ring_of(&self.session);
        (ring.max - ring.min - free(ring, self.next, self.at)) / 4
    }

    /// Reads the next word from its cell.
    pub(crate) fn load_cell(&mut self) -> u32
        requires known { read_count self.old.view < self.old.view.next }
        requires unread { (command : Command) → Spells command self.old.view.read → ⊥ }
        ensures { self.new ≡ record self.old { view = with_read self.old.view result } }
    {
        let cell = (self.at / 4) as usize;
        let word = self.board.shared.load::<LoadCell>(&mut self.seat, cell) as u32;
        self.at = word_behind(&self.session, self.at);
        word
    }

    /// Stores STOP behind the command that was read.
    pub(crate) fn store_stop(&mut self)
        requires { (command : Command) × IsServed self.old.view command }
        ensures { (command : Command) → Spells command self.old.view.read
            → self.new ≡ record self.old { view = served self.old.view command } }
    {
        self.board
            .shared
            .store::<StoreStop>(&mut self.seat, STOP, self.at as u64);
    }

    /// The seat at the table.
    pub(crate) fn into_seat(self) -> TableSeat
        ensures table { result.table_id ≡ self.table }
        ensures role { result.me.0.role ≡ the_device }
        ensures view { (result.me.0.of_device ≡ self.view) × (result.me.1 ≡ self.carried) }
    {
        self.seat
    }

    /// The number of a page's slot.
    pub(crate) fn slot_number(&self, key: PageKey) -> usize
        ensures { result ≡ slot_of self.now.view.terms.limits key }
    {
        slot_number(&self.session, key)
    }

    /// Takes the page that lies at home, for the act in hand, and leaves its slot empty.
    pub(crate) fn hold(&mut self, key: PageKey) -> Option<Page>
        requires key { IsKey self.old.view.terms.limits key }
        requires carried { self.old.carried ≡ [] }
        requires none_out { self.old.view.out ≡ None }
        requires free { holds self.old.view.noted key ≡ false }
        requires touched { (act : Act) × IsInHand self.old.view act × MayHold self.old.view act key }
        ensures { (bytes : List ℕ) × (result ≡ Some bytes)
            × (self.new ≡ record self.old { view = holding self.old.view key bytes }) }
    {
        self.take_page(key);
        let page = self.exchange(key, None);
        self.give_slot(key);
        page
    }

    /// Brings a page that is held home.
    pub(crate) fn give(&mut self, key: PageKey, page: Page)
        requires key { IsKey self.old.view.terms.limits key }
        requires carried { self.old.carried ≡ [] }
        requires none_out { self.old.view.out ≡ None }
        requires held { holds self.old.view.noted key ≡ true }
        ensures { self.new ≡ record self.old { view = returned self.old.view key page } }
    {
        look(&page);
        self.take_slot(key);
        drop(self.exchange(key, Some(page)));
        self.give_page(key);
    }

    // Takes the slot of a page at home, in which the page lies.
    fn take_page(&mut self, key: PageKey)
        requires key { IsKey self.old.view.terms.limits key }
        requires none_out { self.old.view.out ≡ None }
        requires free { holds self.old.view.noted key ≡ false }
        requires touched { (act : Act) × IsInHand self.old.view act × MayHold self.old.view act key }
        ensures { (bytes : List ℕ) × (self.new
            ≡ with_slot_out (record self.old { view = holding self.old.view key bytes }) key (Some bytes)) }
    {
        let word = page_word(&self.session, key);
        self.board
            .shared
            .store::<HoldPage>(&mut self.seat, word, OUT_WITH_DEVICE);
    }

    // Takes the slot of a page that is held, in which none lies.
    fn take_slot(&mut self, key: PageKey)
        requires key { IsKey self.old.view.terms.limits key }
        requires none_out { self.old.view.out ≡ None }
        requires held { holds self.old.view.noted key ≡ true }
        ensures { self.new ≡ with_slot_out self.old key None }
    {
        let word = page_word(&self.session, key);
        self.board
            .shared
            .store::<TakeSlot>(&mut self.seat, word, OUT_WITH_DEVICE);
    }

    // Puts this into the slot that is out, which is the page's, and takes what lay there.
    fn exchange(&mut self, key: PageKey, page: Option<Page>) -> Option<Page>
        requires { (lies : Slot) × Brings (slot_of self.old.view.terms.limits key) lies self.old.carried }
        ensures found { self.old.carried
            ≡ (slot_of self.old.view.terms.limits key, result) ∷ rest self.old.carried }
        ensures left { self.new
            ≡ record self.old {
              carried = (slot_of self.old.view.terms.limits key, page) ∷ rest self.old.carried;
            } }
    {
        let slot = slot_number(&self.session, key);
        self.board.shared.exchange(&mut self.seat, slot, page)
    }

    // Brings the empty slot of a page home, which is held.
    fn give_slot(&mut self, key: PageKey)
        requires key { IsKey self.old.view.terms.limits key }
        requires out { self.old.view.out ≡ Some key }
        requires brings { Brings (slot_of self.old.view.terms.limits key) None self.old.carried }
        ensures { self.new ≡ with_slot_home self.old }
    {
        let word = page_word(&self.session, key);
        self.board
            .shared
            .store::<GiveSlot>(&mut self.seat, word, WITH_DEVICE);
    }

    // Brings the slot of a page home, in which the page lies.
    fn give_page(&mut self, key: PageKey)
        requires key { IsKey self.old.view.terms.limits key }
        requires out { self.old.view.out ≡ Some key }
        requires brings { (bytes : List ℕ) × IsPage bytes
            × Brings (slot_of self.old.view.terms.limits key) (Some bytes) self.old.carried }
        ensures { (bytes : List ℕ)
            → Brings (slot_of self.old.view.terms.limits key) (Some bytes) self.old.carried
            → self.new ≡ with_slot_home (record self.old { view = returned self.old.view key bytes }) }
    {
        let word = page_word(&self.session, key);
        self.board
            .shared
            .store::<GivePage>(&mut self.seat, word, AT_HOME);
    }

    /// Stores the number of the fence in hand.
    pub(crate) fn store_fence(&mut self, value: u32)
        requires { Spells (Fence value) self.old.view.read }
        ensures { self.new ≡ record self.old { view = with_fence self.old.view } }
    {
        self.board
            .shared
            .store::<StoreFence>(&mut self.seat, FENCE, value as u64);
    }

    /// Whether CONFIG_DONE says that the driver runs.
    pub(crate) fn load_config(&mut self) -> bool
        ensures { self.new ≡ record self.old { view = with_config self.old.view result } }
    {
        self.board.shared.load::<LoadConfig>(&mut self.seat, CONFIG) != 0
    }

    /// The driver's last request.
    pub(crate) fn load_request(&mut self) -> Request
        ensures table { self.new.table ≡ self.old.table }
        ensures carried { self.new.carried ≡ self.old.carried }
        ensures told { (r : requests.Request) × LoadsRequest self.old.view self.new.view r
            × HasNumbers result r }
    {
        request_in(
            self.board
                .shared
                .load::<LoadRequest>(&mut self.seat, REQUEST),
        )
    }

    /// Stores the number of the request whose chain is served.
    pub(crate) fn store_reply(&mut self, number: u32)
        requires served { IsChainServed self.old.view }
        requires number { number ≡ self.old.view.wanted.number }
        ensures { self.new ≡ record self.old { view = replied self.old.view } }
    {
        self.board
            .shared
            .store::<StoreReply>(&mut self.seat, REPLY, number as u64);
    }
}
