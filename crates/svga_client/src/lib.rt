//! Laws of a client's calls, each of which is done at once, and of a driver's acts, which a device does
//! later.
//!
//! A client's state knows no ring, no thread and no slot (`Clients` of svga_model). A driver knows its acts,
//! which of them are known to be done, the pages that are lent and those that are with it, with their bytes
//! (`Following`). The laws tie the two together; no function here does anything.
#![tactic(auto)]

mod client;
mod following;
mod marks;
mod own;

pub use client::{client_of_driver, closing_session};
pub use following::{client_follows, driver_may};
pub use marks::fences_behind;
pub use own::own_pages;
