//! What each of the driver's steps on fences, pages and requests tells its seat. These types are for the
//! proofs alone.
ghost use Rattle.svga_link.specs.DriverPlays.{brought_slot_home, gave_page, loaded_fence, loaded_reply, stored_config, stored_request, took_page, took_slot_out};

use crate::board::View;
use atomic_table::Play;
use svga_cmd::Page;

pub(crate) struct LoadFence;

impl Play<Option<Page>, View> for LoadFence {
    ghost then = { loaded_fence };
}

pub(crate) struct LoadReply;

impl Play<Option<Page>, View> for LoadReply {
    ghost then = { loaded_reply };
}

pub(crate) struct StoreRequest;

impl Play<Option<Page>, View> for StoreRequest {
    ghost then = { stored_request };
}

pub(crate) struct StoreConfig;

impl Play<Option<Page>, View> for StoreConfig {
    ghost then = { stored_config };
}

pub(crate) struct TakeSlotOut;

impl Play<Option<Page>, View> for TakeSlotOut {
    ghost then = { took_slot_out };
}

pub(crate) struct GivePage;

impl Play<Option<Page>, View> for GivePage {
    ghost then = { gave_page };
}

pub(crate) struct TakePage;

impl Play<Option<Page>, View> for TakePage {
    ghost then = { took_page };
}

pub(crate) struct BringSlotHome;

impl Play<Option<Page>, View> for BringSlotHome {
    ghost then = { brought_slot_home };
}
