//! The driver's seat: each call is one step on the shared table.
ghost use Rattle.std.specs.Prelude.{◌≡◌, ◌↔◌, ℕ, ◌++◌, [], ◌∷◌, IsTrue, List, Some, None, false, length, true};
ghost use Rattle.std.specs.Arc.{arc_value};
ghost use Rattle.std.specs.FinSet as set;
ghost use Rattle.svga_cmd.specs.Pages.{IsKey, IsPage};
ghost use Rattle.svga_cmd.specs.Spelling.{Spells};
ghost use Rattle.svga_cmd.specs.declared.command.Command.{Command};
ghost use Rattle.svga_cmd.specs.declared.session.Way.TheVariants.{Reserve};
ghost use Rattle.svga_link.specs.Lending.{FenceTold, MayTakeBack, asking, giving, stopping, taking_out, with_reply, with_slot_home, with_slot_out};
ghost use Rattle.svga_link.specs.Seats.{IsDriverPossible, IsDriverSeat, IsTableOf};
ghost use Rattle.svga_link.specs.Told.{StopTold, sending, sending_more, with_pending, with_reserved};
ghost use Rattle.svga_ring.specs.Conditions.{IsFrontOf, MayAsk, MayCommit, MayStop, MayStoreCell, NoSlotOut, unsent};
ghost use Rattle.svga_ring.specs.Locations.{Slot};
ghost use Rattle.svga_ring.specs.RingPieces.{geometry_of, next_offset};
ghost use Rattle.svga_ring.specs.SharedTable.{page_count, slot_number as slot_of, table_length};
ghost use Rattle.svga_ring.specs.TableRule.{as_driver, opening_view};
ghost use Rattle.svga_ring.specs.TableSteps.{page_left};
ghost use Rattle.svga_ring.specs.Views.{opening_driver};

use crate::board::{Board, TableSeat};
use crate::driver_plays::{
    BringSlotHome, GivePage, LoadFence, LoadReply, StoreConfig, StoreRequest, TakePage, TakeSlotOut,
};
use crate::named::{SendFirst, Words};
use crate::page_words::{is_key_of, page_word, slot_number};
use crate::plays::{LoadStop, SendMore, SendWhole, StoreCell, StoreReserved};
use crate::requests::{next_number, request_word};
use crate::ring::{ring_of, word_behind};
use crate::table_words::{CONFIG, FENCE, NEXT_COMMAND, REPLY, REQUEST, RESERVED, STOP};
use std::marker::{Brand, Model};
use std::sync::Arc;
use svga_cmd::constants::RING_START;
use svga_cmd::{Page, PageKey, Session, Way};
use svga_ring::Geometry;

#[derive(Drop)]
pub(crate) struct DriverSeat {
    board: Arc<Board>,
    seat: TableSeat,
    session: Session,
    next: u32,
    request: u32,
    // How often it stored NEXT_CMD.
    stores: u64,
    ghost counted: { stores ≡ seat.me.0.of_driver.next_stores },
}

impl Model for DriverSeat {
    ghost use Rattle.std.specs.Coded.{codes};
    ghost use Rattle.std.specs.Arc.{arc_value};
    ghost use Rattle.std.specs.FinMap as map;
    ghost use base.Stored.{coded_unit};
    ghost use Rattle.atomic_table.specs.Seated.{table_id_coded};
    ghost use Rattle.svga_link.specs.Seats.{IsDriverSeat, IsTableOf, SeenDriverSeat};

    ghost Value = { SeenDriverSeat };

    ghost coded = { Prim.hlevel (codes, map.code, table_id_coded, coded_unit) };

    ghost view = { λ s.
        record { table = s.seat.table_id; view = s.seat.me.0.of_driver; carried = s.seat.me.1 } };

    ghost invariant = { λ s.
        IsTableOf (arc_value s.board).shared.table_id (arc_value s.board).shared.key s.session s.seat.table_id
        × IsDriverSeat s.session s.seat.me s.next s.request };
}

impl DriverSeat {
    pub(crate) fn new(board: Arc<Board>, seat: TableSeat, session: &Session) -> DriverSeat
        requires table { seat.table_id ≡ (arc_value board).shared.table_id }
        requires key { (arc_value board).shared.key ≡ session.now }
        requires words { seat.table_id.words ≡ table_length session.now.limits }
        requires slots { seat.table_id.slots ≡ page_count session.now.limits }
        requires opening { seat.me ≡ (as_driver (opening_view session.now), []) }
        ensures { result ≡ record { table = seat.table_id; view = opening_driver session.now; carried = [] } }
    {
        DriverSeat {
            board,
            seat,
            session: *session,
            next: RING_START,
            request: 0,
            stores: 0,
        }
    }

    /// Some core that is sound has the seat's view. It does nothing.
    pub(crate) fn facts(&self)
        ensures { IsDriverPossible self.now.view }
    {
        // The invariant is known where a field is used.
        let _ = &self.board;
    }

    /// The ring.
    pub(crate) fn geometry(&self) -> Geometry
        ensures { result ≡ geometry_of self.now.view.layout }
    {
        ring_of(&self.session)
    }

    /// The offset at which the driver writes next.
    pub(crate) fn next(&self) -> u32
        ensures { result ≡ next_offset self.now.view }
    {
        self.next
    }

    /// How the session's driver writes.
    pub(crate) fn way(&self) -> Way
        ensures { result ≡ self.now.view.terms.way }
    {
        self.session.way
    }

    pub(crate) fn load_stop(&mut self) -> u32
        ensures table { self.new.table ≡ self.old.table }
        ensures carried { self.new.carried ≡ self.old.carried }
        ensures told { StopTold self.old.view self.new.view result }
    {
        self.board.shared.load::<LoadStop>(&mut self.seat, STOP) as u32
    }

    /// Puts the next word into its cell.
    pub(crate) fn store_cell(&mut self, word: u32)
        requires { MayStoreCell self.old.view }
        ensures { self.new ≡ record self.old { view = with_pending self.old.view word } }
    {
        let cell = (self.next / 4) as usize;
        self.board
            .shared
            .store::<StoreCell>(&mut self.seat, cell, word as u64);
        self.next = word_behind(&self.session, self.next);
    }

    pub(crate) fn store_reserved(&mut self, bytes: u32)
        requires way { self.old.view.terms.way ≡ Reserve }
        requires none_pending { self.old.view.pending ≡ [] }
        ensures { self.new ≡ record self.old { view = with_reserved self.old.view bytes } }
    {
        self.board
            .shared
            .store::<StoreReserved>(&mut self.seat, RESERVED, bytes as u64);
    }

    /// Stores NEXT_CMD behind all words of a command: they are pending.
    pub(crate) fn send_whole(&mut self)
        requires { (command : Command) × MayCommit self.old.view command
            × Spells command self.old.view.pending }
        ensures sent { (command : Command) → Spells command self.old.view.pending
            → self.new ≡ record self.old { view = sending self.old.view command } }
        ensures all_sent { unsent self.new.view ≡ [] }
    {
        self.board
            .shared
            .store::<SendWhole>(&mut self.seat, NEXT_COMMAND, self.next as u64);
        self.stores += 1;
    }

    /// Stores NEXT_CMD behind the first word of the command that these words spell.
    pub(crate) fn send_first(&mut self, words: &[u32])
        requires { (command : Command) × MayCommit self.old.view command × Spells command words.now }
        ensures sent { (command : Command) → Spells command words.now
            → self.new ≡ record self.old { view = sending self.old.view command } }
        ensures unsent { (more : List ℕ) → words.now ≡ self.old.view.pending ++ more
            → unsent self.new.view ≡ more }
    {
        self.send_named::<Brand>(words);
    }

    // The command has the words that the type says: those of the argument, which is for the proof alone.
    fn send_named<J: Words>(&mut self, _words: &[u32])
        requires { (command : Command) × MayCommit self.old.view command × Spells command J.words }
        ensures sent { (command : Command) → Spells command J.words
            → self.new ≡ record self.old { view = sending self.old.view command } }
        ensures unsent { (more : List ℕ) → J.words ≡ self.old.view.pending ++ more
            → unsent self.new.view ≡ more }
    {
        self.board
            .shared
            .store::<SendFirst<J>>(&mut self.seat, NEXT_COMMAND, self.next as u64);
        self.stores += 1;
    }

    /// Stores NEXT_CMD behind a word that is not the first of its command.
    pub(crate) fn send_more(&mut self)
        requires front { IsFrontOf self.old.view.pending (unsent self.old.view) }
        requires one { length self.old.view.pending ≡ 1 }
        ensures sent { self.new ≡ record self.old { view = sending_more self.old.view } }
        ensures unsent { (more : List ℕ) → unsent self.old.view ≡ self.old.view.pending ++ more
            → unsent self.new.view ≡ more }
    {
        self.board
            .shared
            .store::<SendMore>(&mut self.seat, NEXT_COMMAND, self.next as u64);
        self.stores += 1;
    }

    /// The table, the seat at it, the session's numbers, and the offset at which the driver writes next; and
    /// how often it stored NEXT_CMD.
    pub(crate) fn into_parts(self) -> (Arc<Board>, TableSeat, Session, u32, u64)
        ensures table { IsTableOf (arc_value result.0).shared.table_id (arc_value result.0).shared.key result.2
            result.1.table_id }
        ensures seat { (request : ℕ) × IsDriverSeat result.2 result.1.me result.3 request }
        ensures view { self
            ≡ record { table = result.1.table_id; view = result.1.me.0.of_driver; carried = result.1.me.1 } }
        ensures stores { result.4 ≡ self.view.next_stores }
    {
        let DriverSeat {
            board,
            seat,
            session,
            next,
            request: _,
            stores,
        } = self;
        (board, seat, session, next, stores)
    }

    pub(crate) fn load_fence(&mut self) -> u32
        ensures table { self.new.table ≡ self.old.table }
        ensures carried { self.new.carried ≡ self.old.carried }
        ensures told { FenceTold self.old.view self.new.view result }
    {
        self.board.shared.load::<LoadFence>(&mut self.seat, FENCE) as u32
    }

    pub(crate) fn load_reply(&mut self) -> u32
        ensures { self.new ≡ record self.old { view = with_reply self.old.view result } }
    {
        self.board.shared.load::<LoadReply>(&mut self.seat, REPLY) as u32
    }

    /// Stores the request for this chain, and gives its number.
    pub(crate) fn store_request(&mut self, id: u32, descriptor: u32) -> u32
        requires { MayAsk self.old.view id descriptor }
        ensures number { result ≡ self.new.view.request.number }
        ensures left { self.new ≡ record self.old { view = asking self.old.view id descriptor } }
    {
        let number = next_number(self.request);
        let word = request_word(number, id, descriptor);
        self.board
            .shared
            .store::<StoreRequest>(&mut self.seat, REQUEST, word);
        self.request = number;
        number
    }

    pub(crate) fn store_config(&mut self)
        requires { MayStop self.old.view }
        ensures { self.new ≡ record self.old { view = stopping self.old.view } }
    {
        self.board
            .shared
            .store::<StoreConfig>(&mut self.seat, CONFIG, 0);
    }

    /// Whether the device has a page of this key.
    pub(crate) fn is_key(&self, key: PageKey) -> bool
        ensures { IsTrue result ↔ IsKey self.now.view.terms.limits key }
    {
        is_key_of(&self.session, key)
    }

    /// The number of a page's slot.
    pub(crate) fn slot(&self, key: PageKey) -> usize
        ensures { result ≡ slot_of self.now.view.terms.limits key }
    {
        slot_number(&self.session, key)
    }

    /// Takes out the empty slot of a page that is with the driver.
    pub(crate) fn take_slot_out(&mut self, key: PageKey)
        requires key { IsKey self.old.view.terms.limits key }
        requires mine { set.contains self.old.view.lent key ≡ false }
        requires none_out { NoSlotOut self.old.view }
        ensures { self.new
            ≡ record self.old {
              view = with_slot_out self.old.view key;
              carried = (slot_of self.old.view.terms.limits key, None) ∷ self.old.carried;
            } }
    {
        let word = page_word(&self.session, key);
        self.board
            .shared
            .store::<TakeSlotOut>(&mut self.seat, word, 3);
    }

    /// Puts this into the page's slot, which is out, and gives what lay in it.
    pub(crate) fn exchange(&mut self, key: PageKey, page: Option<Page>) -> Option<Page>
        requires { (lies : Slot) × (self.old.carried ≡ (slot_of self.old.view.terms.limits key, lies) ∷ []) }
        ensures found { self.old.carried ≡ (slot_of self.old.view.terms.limits key, result) ∷ [] }
        ensures left { self.new
            ≡ record self.old { carried = (slot_of self.old.view.terms.limits key, page) ∷ [] } }
    {
        let slot = self.slot(key);
        self.board.shared.exchange(&mut self.seat, slot, page)
    }

    /// Brings home a page's slot, with the page in it.
    pub(crate) fn give_page(&mut self, key: PageKey)
        requires key { IsKey self.old.view.terms.limits key }
        requires out { set.contains self.old.view.out key ≡ true }
        requires page { (bytes : List ℕ) × IsPage bytes
            × (self.old.carried ≡ (slot_of self.old.view.terms.limits key, Some bytes) ∷ []) }
        ensures { (bytes : List ℕ)
            → self.old.carried ≡ (slot_of self.old.view.terms.limits key, Some bytes) ∷ []
            → self.new ≡ record self.old { view = giving self.old.view key bytes; carried = [] } }
    {
        let word = page_word(&self.session, key);
        self.board.shared.store::<GivePage>(&mut self.seat, word, 1);
    }

    /// Takes out the slot of a page that is lent, with the page in it.
    pub(crate) fn take_page(&mut self, key: PageKey)
        requires may { MayTakeBack self.old.view key }
        requires none_out { NoSlotOut self.old.view }
        ensures { self.new
            ≡ record self.old {
              view = taking_out self.old.view key;
              carried = (slot_of self.old.view.terms.limits key, Some (page_left self.old.view key))
                  ∷ self.old.carried;
            } }
    {
        let word = page_word(&self.session, key);
        self.board.shared.store::<TakePage>(&mut self.seat, word, 3);
    }

    /// Brings home a page's slot, which is empty.
    pub(crate) fn bring_slot_home(&mut self, key: PageKey)
        requires key { IsKey self.old.view.terms.limits key }
        requires out { set.contains self.old.view.out key ≡ true }
        requires empty { self.old.carried ≡ (slot_of self.old.view.terms.limits key, None) ∷ [] }
        ensures { self.new ≡ record self.old { view = with_slot_home self.old.view key; carried = [] } }
    {
        let word = page_word(&self.session, key);
        self.board
            .shared
            .store::<BringSlotHome>(&mut self.seat, word, 0);
    }
}
