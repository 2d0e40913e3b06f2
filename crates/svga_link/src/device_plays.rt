//! What each step of the device's seat on pages, fences, requests and stopping tells it. These types are for
//! the proofs alone.
ghost use Rattle.svga_link.specs.DevicePlays.{given_page, held_page, loaded_config, loaded_request, slot_given, slot_taken, stored_fence, stored_reply};

use crate::board::View;
use atomic_table::Play;
use svga_cmd::Page;

pub(crate) struct HoldPage;

impl Play<Option<Page>, View> for HoldPage {
    ghost then = { held_page };
}

pub(crate) struct GivePage;

impl Play<Option<Page>, View> for GivePage {
    ghost then = { given_page };
}

pub(crate) struct TakeSlot;

impl Play<Option<Page>, View> for TakeSlot {
    ghost then = { slot_taken };
}

pub(crate) struct GiveSlot;

impl Play<Option<Page>, View> for GiveSlot {
    ghost then = { slot_given };
}

pub(crate) struct StoreFence;

impl Play<Option<Page>, View> for StoreFence {
    ghost then = { stored_fence };
}

pub(crate) struct LoadRequest;

impl Play<Option<Page>, View> for LoadRequest {
    ghost then = { loaded_request };
}

pub(crate) struct StoreReply;

impl Play<Option<Page>, View> for StoreReply {
    ghost then = { stored_reply };
}

pub(crate) struct LoadConfig;

impl Play<Option<Page>, View> for LoadConfig {
    ghost then = { loaded_config };
}
