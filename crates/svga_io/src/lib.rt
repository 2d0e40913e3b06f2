//! Sources and sinks of bytes, which count their faults: what reads a whole input and writes a whole text,
//! sources and sinks in memory for tests, and the adapters over std's reader and writer. It stands on std,
//! and on `svga_cmd` for the greatest length of an input alone.
#![tactic(auto)]

mod clean_source;
mod fault;
mod mem_sink;
mod mem_source;
mod reading;
mod sink;
mod source;
mod std_sink;
mod std_source;
mod writing;

pub use clean_source::CleanSource;
pub use fault::{Failed, InFault, WriteFault};
pub use mem_sink::MemSink;
pub use mem_source::MemSource;
pub use reading::read_all;
pub use sink::Sink;
pub use source::Source;
pub use std_sink::StdSink;
pub use std_source::StdSource;
pub use writing::write_all;

#[cfg(test)]
mod tests;
