//! What the steps of closing tell. These types are for the proofs alone.
ghost use Rattle.svga_link.specs.ClosingPlays.{looked, taken_home};
ghost use Rattle.svga_ring.specs.TableRule.{joined_view, spent_view};

use crate::board::View;
use atomic_table::{Join, Play};
use svga_cmd::Page;

/// The driver's seat takes in the device's, which is spent.
pub(crate) struct JoinEnds;

impl Join<View> for JoinEnds {
    ghost both = { joined_view };

    ghost spent = { spent_view };
}

pub(crate) struct Look;

impl Play<Option<Page>, View> for Look {
    ghost then = { looked };
}

pub(crate) struct TakeHome;

impl Play<Option<Page>, View> for TakeHome {
    ghost then = { taken_home };
}
