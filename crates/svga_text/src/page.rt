//! Pages.
ghost use Rattle.std.specs.Prelude.{◌==◌, ◌≤◌, OnOk, OnErr, length};
ghost use Rattle.svga_io.specs.Growing.{Grows, GrowsByPrefix};
ghost use Rattle.svga_text.specs.Pages.{bytes_line, page_text};
ghost use Rattle.svga_text.specs.Passing.{PassesOn};
ghost use Rattle.svga_text.specs.Runs.{largest_runs, runs_text};

use crate::field::Field::{Byte, Key, Unsigned};
use crate::render::Render;
use crate::runs::run_length;
use itoa::Buffer;
use svga_cmd::constants::PAGE_SIZE;
use svga_cmd::{Page, PageKey};
use svga_io::{Sink, WriteFault};

impl Render {
    /// Writes a page: its name, and its largest runs of equal bytes. A fault leaves the sink with a
    /// prefix of the text.
    pub fn page<K: Sink>(
        &mut self,
        sink: &mut K,
        key: PageKey,
        page: &Page,
    ) -> Result<(), WriteFault>
        ensures ok { OnOk result (Grows K.held K.faults sink.old sink.new (page_text key page.now)) }
        ensures fault { OnErr result (GrowsByPrefix K.held K.faults sink.old sink.new
            (page_text key page.now)) }
    {
        self.pending.clear();
        self.pending.line(sink, "page", &[Key(key)])?;
        self.bytes(sink, page.bytes())?;
        self.pending.send(sink)
    }

    /// Takes on the lines of these bytes.
    fn bytes<K: Sink>(&mut self, sink: &mut K, bytes: &[u8]) -> Result<(), WriteFault>
        requires { length bytes.now ≤ PAGE_SIZE }
        ensures { PassesOn K.held K.faults sink.old sink.new self.old.pending self.new.pending
            (runs_text bytes_line 0 (largest_runs (◌==◌) bytes.now)) result }
    {
        let mut first = 0;
        while first < bytes.len() {
            let count = run_length(&bytes[first..]);
            self.pending.line(
                sink,
                Buffer::new().format(first),
                &[Unsigned(count as u32), Byte(bytes[first])],
            )?;
            first += count;
        }
        Ok(())
    }
}
