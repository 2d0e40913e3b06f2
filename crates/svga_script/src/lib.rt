//! Scripts: the client's side of a session as text, read exactly as the grammar says.
//!
//! `read_script` reads a whole script, one line after another (`reading`). A line is judged for its
//! characters and its spaces (`line`), and its words are then read from left to right, each kind of line in
//! a function of its own.
#![tactic(auto)]

mod act;
mod fault;
mod hexadecimal;
mod keep;
mod key;
mod kind;
mod line;
mod lines;
mod list;
mod name;
mod number;
mod page_lines;
mod reading;
mod region_lines;
mod screen_lines;
mod script;
mod session_line;
mod take;
mod words;

pub use act::ClientAct;
pub use fault::ScriptFault;
pub use list::{ByteList, Run, RunList};
pub use script::{Script, read_script};
pub use svga_cmd::ScriptCause;

#[cfg(test)]
mod tests;
