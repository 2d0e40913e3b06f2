//! What each step tells its seat. These types are for the proofs alone.
ghost use Rattle.svga_link.specs.Plays.{loaded_cell, loaded_next, loaded_stop, sent_more, sent_whole, stored_cell, stored_reserved, stored_stop};
ghost use Rattle.svga_ring.specs.TableRule.{as_device, as_driver};

use crate::board::View;
use atomic_table::{Play, Split};
use svga_cmd::Page;

/// The seat that opened the table becomes the driver's and the device's.
pub(crate) struct SplitEnds;

impl Split<View> for SplitEnds {
    ghost left = { as_driver };

    ghost right = { as_device };
}

pub(crate) struct LoadStop;

impl Play<Option<Page>, View> for LoadStop {
    ghost then = { loaded_stop };
}

pub(crate) struct StoreCell;

impl Play<Option<Page>, View> for StoreCell {
    ghost then = { stored_cell };
}

pub(crate) struct StoreReserved;

impl Play<Option<Page>, View> for StoreReserved {
    ghost then = { stored_reserved };
}

pub(crate) struct SendWhole;

impl Play<Option<Page>, View> for SendWhole {
    ghost then = { sent_whole };
}

pub(crate) struct SendMore;

impl Play<Option<Page>, View> for SendMore {
    ghost then = { sent_more };
}

pub(crate) struct LoadNext;

impl Play<Option<Page>, View> for LoadNext {
    ghost then = { loaded_next };
}

pub(crate) struct LoadCell;

impl Play<Option<Page>, View> for LoadCell {
    ghost then = { loaded_cell };
}

pub(crate) struct StoreStop;

impl Play<Option<Page>, View> for StoreStop {
    ghost then = { stored_stop };
}
