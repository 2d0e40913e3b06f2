//! The texts that the program writes, line by line.
//!
//! `Render` writes each line of a text to a sink. `command_line` defines the line of a command, by cases on
//! the command, `screens_text` the lines of screens and their pictures, `page_text` those of a page, and
//! `line_text` every other line.
#![tactic(auto)]

mod command_line;
mod entry;
mod field;
mod hexadecimal;
mod laws;
mod line;
mod name;
mod page;
mod pending;
mod picture;
mod render;
mod runs;
mod script_name;

pub use laws::runs_are_largest;
pub use line::Line;
pub use name::{name_of_capture_cause, name_of_cause, name_of_fault};
pub use render::Render;
pub use script_name::name_of_script_cause;
pub use svga_script::{
    ByteList, ClientAct, Run, RunList, Script, ScriptCause, ScriptFault, read_script,
};

#[cfg(test)]
mod tests;
