//! Screens and their pictures, and the part of a rectangle that lies on an area.
//!
//! The pictures of all screens stand one behind another in one vector with room for the pixel budget, which
//! closes up when a screen goes.
#![tactic(auto)]

mod area;
mod clipping;
mod definitions;
mod picture;
mod screens;

pub use area::Area;
pub use clipping::{clip, place};
pub use definitions::Definitions;
pub use picture::has_sides;
pub use screens::Screens;

#[cfg(test)]
mod tests;
