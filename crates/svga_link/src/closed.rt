//! What is left of a session that is closed.
ghost use Rattle.std.specs.Prelude.{◌≡◌, Some, if◌then◌else◌};
ghost use Rattle.svga_cmd.specs.Pages.{HasPage, page_at};
ghost use Rattle.svga_link.specs.Closing.{HasAllPages, closed_of};

use crate::board::TableSeat;
use crate::page_words::slot_number;
use std::marker::Model;
use svga_cmd::{Page, PageKey, Session};

/// A session that is closed: its two ends are one, and all pages are with it. `close` alone makes one.
#[derive(Drop)]
pub struct Closed {
    seat: TableSeat,
    session: Session,
    next_cmd: u32,
    fence: u32,
    next_stores: u64,
    row: Vec<Option<Page>>,
}

impl Model for Closed {
    ghost use Rattle.std.specs.Coded.{codes};
    ghost use Rattle.std.specs.FinMap as map;
    ghost use base.Stored.{coded_unit};
    ghost use Rattle.svga_link.specs.Closing.{HasAllPages, closed_of};
    ghost use Rattle.svga_model.specs.Closings as closings;

    ghost Value = { closings.Closed };

    ghost coded = { Prim.hlevel (codes, map.code, coded_unit) };

    ghost view = { λ c. closed_of c.seat.me.0 c.session c.next_cmd c.fence c.next_stores c.row.items };

    ghost invariant = { λ c. HasAllPages c.session.limits c.row.items };
}

impl Closed {
    pub(crate) fn new(
        seat: TableSeat,
        session: Session,
        next_cmd: u32,
        fence: u32,
        next_stores: u64,
        row: Vec<Option<Page>>,
    ) -> Closed
        requires { HasAllPages session.limits row.items }
        ensures { result ≡ closed_of seat.me.0 session next_cmd fence next_stores row.items }
    {
        Closed {
            seat,
            session,
            next_cmd,
            fence,
            next_stores,
            row,
        }
    }

    /// The word FENCE.
    pub fn fence(&self) -> u32
        ensures { result ≡ self.now.fence }
    {
        self.fence
    }

    /// The word NEXT_CMD.
    pub fn next_cmd(&self) -> u32
        ensures { result ≡ self.now.next_cmd }
    {
        self.next_cmd
    }

    /// The word MAX.
    pub fn max(&self) -> u32
        ensures { result ≡ self.now.max }
    {
        self.session.ring
    }

    /// How often NEXT_CMD was stored.
    pub fn next_stores(&self) -> u64
        ensures { result ≡ self.now.next_stores }
    {
        self.next_stores
    }

    /// A page of the device.
    pub fn page(&self, key: PageKey) -> &Page
        requires { HasPage self.now.pages key }
        ensures { page_at self.now.pages key ≡ Some result.now }
    {
        match &self.row[slot_number(&self.session, key)] {
            Some(page) => page,
            None => unreachable!(),
        }
    }
}
