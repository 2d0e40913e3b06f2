//! The driver: an end of a session, and what it has to know to judge its calls.
ghost use Rattle.std.specs.FinMap as map;
ghost use Rattle.std.specs.Prelude.{◌≡◌, IfOk};
ghost use Rattle.svga_cmd.specs.Pages.{IsZeroMemoryOf};
ghost use Rattle.svga_ring.specs.Views.{opening_device, opening_driver};

use crate::lending::Lendings;
use std::alloc::{AllocError, Global};
use std::marker::Model;
use svga_cmd::Session;
use svga_cmd::constants::RING_START;
use svga_link::{DeviceEnd, DriverEnd, make};
use svga_ring::Geometry;
use svga_shape::Shape;

/// The driver's side of a session, for one client. It stands for a client's state (`client_in`), as if the
/// device did each call at once. None of its calls but `new` takes memory, and none waits.
#[derive(Drop)]
pub struct Driver {
    pub(crate) end: DriverEnd,
    pub(crate) shape: Shape,
    pub(crate) lendings: Lendings,
    /// The ring, and the offset of NEXT_CMD.
    pub(crate) ring: Geometry,
    pub(crate) next: u32,
    /// The number of the first fence.
    pub(crate) first: u32,
    /// How many fences and how many commands were committed, and how many fences were seen.
    pub(crate) emitted: u64,
    pub(crate) committed: u64,
    pub(crate) seen: u64,
    /// The number of the request that is open.
    pub(crate) asked: Option<u32>,
}

impl Model for Driver {
    ghost use Rattle.atomic_table.specs.Seated.{table_id_coded};
    ghost use Rattle.std.specs.Coded.{codes};
    ghost use Rattle.std.specs.FinMap as map;
    ghost use Rattle.svga_driver.specs.Driving.{DriverHas, IsDriver};
    ghost use base.Stored.{coded_unit};

    ghost Value = { DriverHas };

    ghost coded = { Prim.hlevel (codes, map.code, table_id_coded, coded_unit) };

    ghost view = { λ d. record {
      table = d.end.table;
      view = d.end.view;
      own = d.end.pages;
      touched = d.lendings.touched;
    } };

    ghost invariant = { λ d.
        IsDriver d.ring d.next d.end d.shape d.lendings d.first d.emitted d.committed d.seen d.asked };
}

impl Driver {
    /// A driver and the end of its device. All pages are with the driver and hold zeros. The error is want of
    /// memory; no other call takes any.
    pub fn new(alloc: Global, session: Session) -> Result<(Driver, DeviceEnd), AllocError>
        ensures one_table { IfOk result (λ ends. ends.0.table ≡ ends.1.table) }
        ensures view { IfOk result (λ ends. ends.0.view ≡ opening_driver session) }
        ensures pages { IfOk result (λ ends. IsZeroMemoryOf session.limits ends.0.own) }
        ensures touched { IfOk result (λ ends. ends.0.touched ≡ map.empty) }
        ensures device { IfOk result (λ ends. ends.1.view ≡ opening_device session) }
        ensures none_held { IfOk result (λ ends. ends.1.pages ≡ map.empty) }
    {
        let shape = Shape::new(alloc, session.limits)?;
        let lendings = Lendings::new(alloc, session.limits)?;
        let (end, device) = make(alloc, &session)?;
        let ring = Geometry {
            min: RING_START,
            max: session.ring,
        };
        let driver = Driver {
            end,
            shape,
            lendings,
            ring,
            next: RING_START,
            first: session.first,
            emitted: 0,
            committed: 0,
            seen: 0,
            asked: None,
        };
        Ok((driver, device))
    }
}
