//! Pixels as colours, and colours as pixels, one at a time and row by row.
//!
//! A colour is the number `65536 * r + 256 * g + b`. What the bytes of each format mean is said by the
//! definitions of `svga_model` in `Colours`.
#![tactic(auto)]

mod bgr;
mod colour;
mod lanes;
mod layout;
mod pixel;
mod row;
mod sixteen;
mod start;
mod wide;

pub use pixel::{narrow, pixel_length, widen};
pub use row::{read_row, row_facts, write_row};
pub use start::pixel_start;

#[cfg(test)]
mod tests;
