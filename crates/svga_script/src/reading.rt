//! What the lines of a script say, one after another.
ghost use Rattle.std.specs.Prelude.{◌≡◌, ◌≤◌, ◌<◌, ◌+◌, IfErr, IfOk, IsNone, IsSome, OnErr, Some, false, is_some, length, true};
ghost use Rattle.svga_model.specs.ScriptLines.{line_flaw, words_flaw, words_of};
ghost use Rattle.svga_model.specs.Scripts.{Read, in_line, is_skipped as skips, next_flaw, nothing_read, with_line, with_words};
ghost use Rattle.svga_script.specs.Faults.{flaw_of};
ghost use Rattle.svga_script.specs.Readings.{IsAdded, IsReadingOf};

use crate::act::ClientAct;
use crate::fault::LineFault;
use crate::keep::keep;
use crate::line::{judge_characters, judge_spaces, read_act, read_opening};
use std::alloc::Global;
use svga_cmd::constants::{MAX_INPUT_BYTES, MAX_SCRIPT_LINES};
use svga_cmd::{ScriptCause, Session};

/// An act, and the number of its line.
#[derive(Debug, Drop)]
pub(crate) struct LineAct {
    pub(crate) line: u32,
    pub(crate) act: ClientAct,
}

/// What the lines so far say.
#[derive(Drop)]
pub(crate) struct Reading {
    pub(crate) lines: u32,
    pub(crate) session: Option<Session>,
    pub(crate) acts: Vec<LineAct>,
    /// Whether memory was short, so that acts are left out.
    pub(crate) short: bool,
}

impl Reading {
    /// No line was read yet.
    pub(crate) fn new(alloc: Global) -> Reading
        ensures { IsReadingOf nothing_read result }
    {
        Reading {
            lines: 0,
            session: None,
            acts: Vec::new(alloc),
            short: false,
        }
    }

    /// Reads one line more. After a fault nothing is said of what was read.
    pub(crate) fn add(&mut self, alloc: Global, line: &[u8]) -> Result<(), LineFault>
        requires few { length line.now ≤ MAX_INPUT_BYTES }
        requires lines { self.old.lines ≤ MAX_SCRIPT_LINES }
        ensures right { IfOk result (λ _. (r : Read) → IsReadingOf r self.old
            → (next_flaw r line.now ≡ None) × IsReadingOf (with_line r line.now) self.new) }
        ensures wrong { IfErr result (λ f. (r : Read) → IsReadingOf r self.old
            → next_flaw r line.now ≡ Some (in_line (self.new.lines + 1) (flaw_of f))) }
        ensures lines { self.new.lines ≤ MAX_SCRIPT_LINES }
    {
        if self.lines >= MAX_SCRIPT_LINES {
            return Err(LineFault {
                column: 1,
                cause: ScriptCause::Limit,
            });
        }
        if is_skipped(line) {
            self.lines += 1;
            return Ok(());
        }
        self.read(alloc, line)
    }

    /// Reads a line that isn't skipped.
    fn read(&mut self, alloc: Global, line: &[u8]) -> Result<(), LineFault>
        requires few { length line.now ≤ MAX_INPUT_BYTES }
        requires lines { self.old.lines < MAX_SCRIPT_LINES }
        ensures lines { IfOk result (λ _. self.new.lines ≡ self.old.lines + 1) }
        ensures added { IsAdded (line_flaw (is_some self.old.session) line.now)
            (λ r. with_words r.session r line.now) self.old self.new result }
    {
        judge_characters(line)?;
        judge_spaces(line)?;
        match self.session {
            None => self.open(line),
            Some(_) => self.go_on(alloc, line),
        }
    }

    /// Reads the session's line.
    fn open(&mut self, line: &[u8]) -> Result<(), LineFault>
        requires few { length line.now ≤ MAX_INPUT_BYTES }
        requires lines { self.old.lines < MAX_SCRIPT_LINES }
        requires first { self.old.session ≡ None }
        ensures lines { IfOk result (λ _. self.new.lines ≡ self.old.lines + 1) }
        ensures added { IsAdded (words_flaw false (length line.now + 1) (words_of line.now))
            (λ r. with_words None r line.now) self.old self.new result }
    {
        let session = read_opening(line)?;
        self.session = Some(session);
        self.lines += 1;
        Ok(())
    }

    /// Reads a line behind the session's.
    fn go_on(&mut self, alloc: Global, line: &[u8]) -> Result<(), LineFault>
        requires few { length line.now ≤ MAX_INPUT_BYTES }
        requires lines { self.old.lines < MAX_SCRIPT_LINES }
        requires opened { IsSome self.old.session }
        ensures lines { IfOk result (λ _. self.new.lines ≡ self.old.lines + 1) }
        ensures added { IsAdded (words_flaw true (length line.now + 1) (words_of line.now))
            (λ r. with_words r.session r line.now) self.old self.new result }
    {
        let act = read_act(alloc, line)?;
        self.lines += 1;
        match act {
            Some(act) => keep(
                &mut self.acts,
                LineAct {
                    line: self.lines,
                    act,
                },
                &mut self.short,
            ),
            None => self.short = true,
        }
        Ok(())
    }
}

/// Whether a line is empty, or a comment.
fn is_skipped(line: &[u8]) -> bool
    ensures { result ≡ skips line.now }
{
    match line {
        [] => true,
        [first, ..] => *first == b'#',
    }
}
