//! Scripts, and how they are read.
ghost use Rattle.std.specs.Prelude.{◌≡◌, ◌<◌, ◌≤◌, IsSome, Some, false, length, map, option_map, slice_get, true};
ghost use Rattle.svga_model.specs.ScriptBounds.{AreBounded, is_bounded};
ghost use Rattle.svga_model.specs.Scripts.{Read, script_of, script_read};
ghost use Rattle.svga_script.specs.Acts.{act_of};
ghost use Rattle.svga_script.specs.Answers.{IsAnswer};
ghost use Rattle.svga_script.specs.Asked.{numbers_of};
ghost use Rattle.svga_script.specs.Readings.{IsReadingOf, line_act};

use crate::act::ClientAct;
use crate::fault::ScriptFault;
use crate::lines::line_at;
use crate::reading::{LineAct, Reading};
use std::alloc::Global;
use std::marker::Model;
use svga_cmd::constants::{MAX_INPUT_BYTES, MAX_SCRIPT_LINES};
use svga_cmd::{ScriptCause, Session};

/// A script that was read: its session, and its acts with the numbers of their lines.
#[derive(Debug, Drop)]
pub struct Script {
    session: Session,
    acts: Vec<LineAct>,
}

impl Model for Script {
    ghost use Rattle.std.specs.Prelude.{map};
    ghost use Rattle.svga_model.specs.ScriptBounds.{AreBounded};
    ghost use Rattle.svga_model.specs.Scripts.{Script as Held};
    ghost use Rattle.svga_script.specs.Asked.{numbers_of};
    ghost use Rattle.svga_script.specs.Readings.{line_act};

    ghost Value = { Held };

    ghost view = { λ s. record { session = numbers_of s.session; acts = map line_act s.acts.items } };

    ghost invariant = { λ s. AreBounded (map line_act s.acts.items) };
}

/// Reads a script: the session and the acts that the bytes ask for, or the first cause by which they are
/// none, with its line and column. Memory is taken for the acts, as they come.
pub fn read_script(alloc: Global, bytes: &[u8]) -> Result<Script, ScriptFault>
    requires { length bytes.now ≤ MAX_INPUT_BYTES }
    ensures { IsAnswer (script_of bytes.now) result }
{
    let mut reading = Reading::new(alloc);
    let mut at = 0;
    while let Some(line) = line_at(bytes, at) {
        if let Err(fault) = reading.add(alloc, line.bytes) {
            return Err(ScriptFault::Line {
                number: reading.lines + 1,
                column: fault.column,
                cause: fault.cause,
            });
        }
        at = line.next;
    }
    end(reading)
}

/// The script that all lines are.
fn end(reading: Reading) -> Result<Script, ScriptFault>
    requires lines { reading.lines ≤ MAX_SCRIPT_LINES }
    requires bounded { IsSome reading.session → reading.short ≡ false →
        AreBounded (map line_act reading.acts.items) }
    ensures { (r : Read) → IsReadingOf r reading → IsAnswer (script_read r.session r) result }
{
    match reading.session {
        None => Err(ScriptFault::Line {
            number: reading.lines + 1,
            column: 1,
            cause: ScriptCause::Session,
        }),
        Some(session) => {
            if reading.short {
                Err(ScriptFault::Memory)
            } else {
                Ok(Script::new(session, reading.acts))
            }
        }
    }
}

impl Script {
    /// A script of a session and of acts, each with the number of its line.
    pub(crate) fn new(session: Session, acts: Vec<LineAct>) -> Script
        requires { AreBounded (map line_act acts.items) }
        ensures { result ≡ record { session = numbers_of session; acts = map line_act acts.items } }
    {
        Script { session, acts }
    }

    /// The session that it opens.
    pub fn session(&self) -> &Session
        ensures { numbers_of result.now ≡ self.now.session }
    {
        &self.session
    }

    /// How many acts it has.
    pub fn len(&self) -> u32
        ensures len { result ≡ length self.now.acts }
        ensures few { result ≤ MAX_SCRIPT_LINES }
    {
        self.acts.len() as u32
    }

    /// Act `i`.
    pub fn act(&self, i: u32) -> &ClientAct
        requires { i < length self.now.acts }
        ensures act { option_map (λ a. a.act) (slice_get self.now.acts i) ≡ Some (act_of result.now) }
        ensures bounded { is_bounded (act_of result.now) ≡ true }
    {
        let item = &self.acts[i as usize];
        &item.act
    }

    /// The number of the line in which act `i` stands, from 1.
    pub fn line(&self, i: u32) -> u32
        requires { i < length self.now.acts }
        ensures { option_map (λ a. a.line) (slice_get self.now.acts i) ≡ Some result }
    {
        self.acts[i as usize].line
    }
}
