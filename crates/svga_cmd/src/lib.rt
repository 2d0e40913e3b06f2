//! The commands of the SVGA II FIFO as values, the one spelling of each as
//! words, the field's numbers by name, and where the fields of a capture stand.
//!
//! Every other crate speaks of commands, pages, faults, causes and endings by these types. Contracts see them
//! as plain data: an enum by its variants, a struct by its fields, a list of numbers as that list.
#![tactic(auto)]

mod blit;
mod capture_cause;
pub mod capture_layout;
mod cause;
mod command;
pub mod constants;
mod ending;
mod fault;
mod format;
mod gmrfb;
mod laws;
mod limits;
mod mem_pages;
mod page;
mod page_list;
mod remap;
mod remap_flags;
mod screen;
mod script_cause;
mod session;
mod store;
mod word;

pub use blit::{Blit, Point, Rect};
pub use capture_cause::CaptureCause;
pub use cause::Cause;
pub use command::{Command, CommandRef};
pub use ending::{Ending, ReplayEnd};
pub use fault::Fault;
pub use format::Format;
pub use gmrfb::{Gmrfb, GuestPtr};
pub use laws::unique_spelling;
pub use limits::Limits;
pub use mem_pages::MemPages;
pub use page::{Page, PageKey};
pub use page_list::PageList;
pub use remap::{EntriesRef, RemapData};
pub use screen::{Backing, ScreenDef};
pub use script_cause::ScriptCause;
pub use session::{Session, Way};
pub use store::PageStore;
pub use word::{encode_short, word_at, word_count};

#[cfg(test)]
mod tests;
