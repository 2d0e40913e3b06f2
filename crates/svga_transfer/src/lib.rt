//! Pixels and words between the pages of a store and screens: bytes of regions, blits both ways, and UPDATE.
//!
//! Nothing here judges a command. A call on bytes or words asks for the pages on which they lie, and a blit
//! for those of all mapped places of its region, and that each byte of its pixels lies on one.
#![tactic(auto)]

mod back;
mod bytes;
mod colours;
mod meant;
mod paint;
mod pixel_row;
mod room;
mod runs;
mod start;
mod update;
mod words;

pub use back::blit_to_region;
pub use bytes::{read_bytes, write_bytes};
pub use paint::blit_to_screens;
pub use room::RowRoom;
pub use update::{Extent, update_screens};
pub use words::read_words;
