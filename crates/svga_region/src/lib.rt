//! Guest memory regions: lists of places, each unmapped or a page, by their ids.
//!
//! Regions are defined and remapped by commands, or made of a chain of descriptors that is read table page
//! by table page. All memory is taken when the regions are made.
#![tactic(auto)]

mod chain;
mod descriptor;
mod entries;
mod laws;
mod placing;
#[cfg(test)]
mod reading;
mod regions;
mod table;
#[cfg(test)]
mod tests;

pub use chain::ChainNext;
pub use laws::whole_chain;
pub use regions::Regions;
