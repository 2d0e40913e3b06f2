//! Lines to a sink.
ghost use Rattle.std.specs.Prelude.{◌++◌, ◌∷◌, [], map, OnOk, OnErr};
ghost use Rattle.svga_cmd.specs.Lent.{command_of};
ghost use Rattle.svga_cmd.specs.WellFormed.{IsWellFormed};
ghost use Rattle.svga_io.specs.Growing.{Grows, GrowsByPrefix};
ghost use Rattle.svga_text.specs.CommandLines.{command_line};
ghost use Rattle.svga_text.specs.Fields.{field_text};
ghost use Rattle.svga_text.specs.Lines.{line, line_text, spaced};
ghost use Rattle.svga_text.specs.Passing.{PassesOn, Writes};
ghost use Rattle.svga_text.specs.declared.line.Line.TheVariants.{RefusedLine};

use crate::field::Field::{self, Key, Name, Unsigned};
use crate::line::Line;
use crate::pending::Pending;
use std::alloc::{AllocError, Global};
use svga_cmd::{CommandRef, PageKey};
use svga_io::{Sink, WriteFault};

/// Writes lines. A call that answers Ok has put its whole line into the sink, whatever the line's length,
/// through the one buffer that `new` took.
#[derive(Drop)]
pub struct Render {
    pub(crate) pending: Pending,
}

impl Render {
    /// Takes the one buffer.
    pub fn new(alloc: Global) -> Result<Render, AllocError> {
        Ok(Render {
            pending: Pending::new(alloc)?,
        })
    }

    /// Writes the line of a command whose first word has this number. A fault leaves the sink with a
    /// prefix of it.
    pub fn command<K: Sink>(
        &mut self,
        sink: &mut K,
        word: u32,
        command: &CommandRef<'_>,
    ) -> Result<(), WriteFault>
        requires { IsWellFormed (command_of command.now) }
        ensures ok { OnOk result (Grows K.held K.faults sink.old sink.new
            (command_line word (command_of command.now))) }
        ensures fault { OnErr result (GrowsByPrefix K.held K.faults sink.old sink.new
            (command_line word (command_of command.now))) }
    {
        match command {
            CommandRef::Update {
                x,
                y,
                width,
                height,
            } => self.update(sink, word, *x, *y, *width, *height),
            CommandRef::Fence { value } => self.fence(sink, word, *value),
            CommandRef::DefineScreen(def) => self.define_screen(sink, word, def),
            CommandRef::DestroyScreen { id } => self.destroy_screen(sink, word, *id),
            CommandRef::DefineGmrfb(gmrfb) => self.define_gmrfb(sink, word, gmrfb),
            CommandRef::BlitToScreen(blit) => self.blit_to_screen(sink, word, blit),
            CommandRef::BlitToGmrfb(blit) => self.blit_to_gmrfb(sink, word, blit),
            CommandRef::DefineGmr2 { region, pages } => self.define_gmr2(
                sink, word, *region, *pages,
            ),
            CommandRef::RemapGmr2 {
                region,
                offset,
                pages,
                entries,
            } => self.remap_gmr2(sink, word, *region, *offset, *pages, entries),
        }
    }

    /// Writes a line that isn't a command's. A fault leaves the sink with a prefix of it.
    pub fn line<K: Sink>(&mut self, sink: &mut K, line: &Line) -> Result<(), WriteFault>
        ensures ok { OnOk result (Grows K.held K.faults sink.old sink.new (line_text line.now)) }
        ensures fault { OnErr result (GrowsByPrefix K.held K.faults sink.old sink.new (line_text line.now)) }
    {
        match line {
            Line::Fence { value } => self.write(sink, "fence", &[Unsigned(*value)]),
            Line::RefusedWord { word, cause } => self.write(
                sink,
                "refused at word",
                &[Unsigned(*word), Name(*cause)],
            ),
            Line::TornWord { word } => self.write(sink, "torn at word", &[Unsigned(*word)]),
            Line::Commands { count } => self.write(sink, "commands", &[Unsigned(*count)]),
            Line::FaultAt {
                command,
                number,
                name,
            } => self.write(
                sink,
                "fault at command",
                &[Unsigned(*command), Unsigned(*number), Name(*name)],
            ),
            Line::End => self.write(sink, "end", &[]),
            Line::CaptureByte { place, cause } => self.write(
                sink,
                "capture byte",
                &[Unsigned(*place), Name(*cause)],
            ),
            Line::RefusedLine {
                line: at,
                number,
                name,
                key,
            } => self.refused_line(sink, *at, *number, *name, *key),
            Line::ScriptLine {
                line: at,
                column,
                cause,
            } => self.write(
                sink,
                "script line",
                &[
                    Unsigned(*at),
                    Name("column"),
                    Unsigned(*column),
                    Name(*cause),
                ],
            ),
        }
    }

    /// Writes the line of an act that is refused.
    fn refused_line<K: Sink>(
        &mut self,
        sink: &mut K,
        at: u32,
        number: u32,
        name: &'static str,
        key: Option<PageKey>,
    ) -> Result<(), WriteFault>
        ensures { Writes K.held K.faults sink.old sink.new
            (line_text (RefusedLine at number name.entry key)) result }
    {
        let (at, fault, number, name) = (Unsigned(at), Name("fault"), Unsigned(number), Name(name));
        match key {
            None => self.write(sink, "refused line", &[at, fault, number, name]),
            Some(key) => self.write(sink, "refused line", &[at, fault, number, name, Key(key)]),
        }
    }

    /// Writes a line that begins so, with these words behind.
    pub(crate) fn write<K: Sink>(
        &mut self,
        sink: &mut K,
        begin: &str,
        fields: &[Field],
    ) -> Result<(), WriteFault>
        ensures { Writes K.held K.faults sink.old sink.new
            (line begin.now (map field_text fields.now)) result }
    {
        self.begin(sink, begin, fields)?;
        self.end(sink)
    }

    /// Begins a line.
    pub(crate) fn begin<K: Sink>(
        &mut self,
        sink: &mut K,
        begin: &str,
        fields: &[Field],
    ) -> Result<(), WriteFault>
        ensures { PassesOn K.held K.faults sink.old sink.new [] self.new.pending
            (begin.now ++ spaced (map field_text fields.now)) result }
    {
        self.pending.clear();
        self.pending.text(sink, begin.as_bytes())?;
        self.pending.fields(sink, fields)
    }

    /// Ends a line and sends what is left of it.
    pub(crate) fn end<K: Sink>(&mut self, sink: &mut K) -> Result<(), WriteFault>
        ensures { Writes K.held K.faults sink.old sink.new (self.old.pending ++ 10 ∷ []) result }
    {
        self.pending.text(sink, b"\n")?;
        self.pending.send(sink)
    }
}
