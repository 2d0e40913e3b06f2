//! The arithmetic under the command FIFO: where words go in the ring, and in which order fences pass; and the
//! two ends of a session as a pure machine, with the laws of its steps.
//!
//! It keeps nothing and takes no memory. The words and offsets of the ring are spoken of as in
//! `svga_model`, whose definitions of addresses and of fences its contracts cite.
#![tactic(auto)]

mod core_closing;
mod core_loads;
mod core_pages;
mod core_requests;
mod core_ring;
mod core_sessions;
mod core_settled;
mod core_steps;
mod core_stop;
mod core_table;
mod core_wrong;
mod core_wrong_pages;
mod core_wrong_requests;
mod fences;
mod plans;
mod two_parties;

pub use core_closing::joined_seat_knows;
pub use core_loads::{loads_tell, taken_in_order};
pub use core_pages::{device_steps_on_pages, driver_steps_on_pages};
pub use core_requests::{requests_tell, sent_in_turn, step_on_reply};
pub use core_ring::plans_are_of_the_core;
pub use core_sessions::sessions_happen;
pub use core_settled::settled_acts;
pub use core_steps::{steps_keep_all, steps_keep_words};
pub use core_stop::step_on_stop;
pub use core_table::{steps_are_allowed, table_rule};
pub use core_wrong::wrong_steps_are_refused;
pub use core_wrong_pages::wrong_page_steps_are_refused;
pub use core_wrong_requests::wrong_request_steps_are_refused;
pub use fences::{fence_number, passed, seen_index};
pub use plans::{Geometry, Planned, advance, free, plan};
pub use two_parties::two_party_law;

#[cfg(test)]
mod tests;
