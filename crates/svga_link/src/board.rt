//! The table that the driver and the device share, and its rule.
use atomic_table::{Seat, Table, TableRule};
use std::alloc::Global;
use std::marker::Model;
use svga_cmd::{Page, Session};

/// What a seat knows. It is for the proofs alone.
pub struct View {
    nothing: (),
}

impl Model for View {
    ghost use Rattle.std.specs.Coded.{codes};
    ghost use Rattle.std.specs.FinMap as map;
    ghost use base.Stored.{coded_unit};
    ghost use Rattle.svga_ring.specs.TableRule as rule;

    ghost Value = { rule.View };

    ghost coded = { Prim.hlevel (codes, map.code, coded_unit) };

    ghost view = { λ _. rule.spent_view };
}

/// The rule: all that is sound holds between any two steps.
pub struct IsSound;

impl TableRule<Option<Page>, View, Session> for IsSound {
    ghost use Rattle.svga_ring.specs.TableRule.{IsSoundTable, opening_view};

    ghost holds = { IsSoundTable };

    ghost first = { opening_view };
}

pub type Board = Table<Option<Page>, View, Session, IsSound, Global>;

pub type TableSeat = Seat<Option<Page>, View>;
