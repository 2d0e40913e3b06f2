//! Screens and their pictures.
ghost use Rattle.std.specs.FinMap as map;
ghost use Rattle.std.specs.Prelude.{◌≡◌, ◌∷◌, ◌+◌, ◌<◌, ◌≤◌, ◌==◌, All, OnOk, OnErr, drop, length, map as map_list, slice_index_or, []};
ghost use Rattle.svga_io.specs.Growing.{Grows, GrowsByPrefix};
ghost use Rattle.svga_text.specs.Lines.{spaced};
ghost use Rattle.svga_text.specs.Passing.{PassesOn};
ghost use Rattle.svga_text.specs.Pictures.{pixels_text, rows_line, same_row, screens_text, some_screen_text};
ghost use Rattle.svga_text.specs.Rows.{rows_of};
ghost use Rattle.svga_text.specs.Runs.{largest_runs, runs_text};

use crate::field::Field::{Signed, Unsigned};
use crate::render::Render;
use crate::runs::run_length;
use svga_cmd::constants::COLOURS;
use svga_io::{Sink, WriteFault};
use svga_screen::Screens;

impl Render {
    /// Writes all screens by ascending id, each with the runs of equal pixels in its largest groups
    /// of equal rows. A fault leaves the sink with a prefix of the text.
    pub fn screens<K: Sink>(&mut self, sink: &mut K, screens: &Screens) -> Result<(), WriteFault>
        ensures ok { OnOk result (Grows K.held K.faults sink.old sink.new
            (screens_text screens.now.screens)) }
        ensures fault { OnErr result (GrowsByPrefix K.held K.faults sink.old sink.new
            (screens_text screens.now.screens)) }
    {
        self.pending.clear();
        self.all_screens(sink, screens)?;
        self.pending.send(sink)
    }

    /// Takes on the texts of all screens.
    fn all_screens<K: Sink>(&mut self, sink: &mut K, screens: &Screens) -> Result<(), WriteFault>
        ensures { PassesOn K.held K.faults sink.old sink.new self.old.pending self.new.pending
            (screens_text screens.now.screens) result }
    {
        for id in 0..16 {
            self.screen(sink, screens, id)?;
        }
        Ok(())
    }

    /// Takes on the text of the screen with this id, if there is one.
    fn screen<K: Sink>(
        &mut self,
        sink: &mut K,
        screens: &Screens,
        id: u32,
    ) -> Result<(), WriteFault>
        ensures { PassesOn K.held K.faults sink.old sink.new self.old.pending self.new.pending
            (some_screen_text (map.get screens.now.screens id)) result }
    {
        match screens.def(id) {
            None => Ok(()),
            Some(def) => {
                self.pending.line(
                    sink,
                    "screen",
                    &[
                        Unsigned(def.id),
                        Unsigned(def.width),
                        Unsigned(def.height),
                        Signed(def.x),
                        Signed(def.y),
                    ],
                )?;
                self.picture(sink, screens, id, def.height)
            }
        }
    }

    /// Takes on the lines of the picture of the screen with this id.
    fn picture<K: Sink>(
        &mut self,
        sink: &mut K,
        screens: &Screens,
        id: u32,
        height: u32,
    ) -> Result<(), WriteFault>
        requires { height ≡ length (rows_of screens.now.screens id) }
        ensures { PassesOn K.held K.faults sink.old sink.new self.old.pending self.new.pending
            (runs_text rows_line 0 (largest_runs same_row (rows_of screens.now.screens id))) result }
    {
        let mut first = 0;
        while first < height {
            let count = equal_rows(screens, id, first, height);
            self.rows(sink, first, count, row_of(screens, id, first))?;
            first += count;
        }
        Ok(())
    }

    /// Takes on the line of so many rows, from `first` on, that equal this one.
    fn rows<K: Sink>(
        &mut self,
        sink: &mut K,
        first: u32,
        count: u32,
        row: &[u32],
    ) -> Result<(), WriteFault>
        requires { All (λ c. c < COLOURS) row.now }
        ensures { PassesOn K.held K.faults sink.old sink.new self.old.pending self.new.pending
            (rows_line first (count, row.now)) result }
    {
        self.pending.text(sink, b"rows")?;
        self.pending
            .fields(sink, &[Unsigned(first), Unsigned(count)])?;
        self.pixels(sink, row)?;
        self.pending.text(sink, b"\n")
    }

    /// Takes on the runs of equal pixels of a row.
    fn pixels<K: Sink>(&mut self, sink: &mut K, row: &[u32]) -> Result<(), WriteFault>
        requires { All (λ c. c < COLOURS) row.now }
        ensures { PassesOn K.held K.faults sink.old sink.new self.old.pending self.new.pending
            (spaced (map_list pixels_text (largest_runs (◌==◌) row.now))) result }
    {
        let mut first = 0;
        while first < row.len() {
            let count = run_length(&row[first..]);
            self.pending.pixels(sink, count, row[first])?;
            first += count;
        }
        Ok(())
    }
}

/// Row `y` of a screen, empty where there is none.
fn row_of(screens: &Screens, id: u32, y: u32) -> &[u32]
    ensures row { result.now ≡ slice_index_or (rows_of screens.now.screens id) y [] }
    ensures in_range { All (λ c. c < COLOURS) result.now }
{
    match screens.row(id, y) {
        None => &[],
        Some(row) => row,
    }
}

/// How many rows equal row `first`, it and those that follow it.
fn equal_rows(screens: &Screens, id: u32, first: u32, height: u32) -> u32
    requires height { height ≡ length (rows_of screens.now.screens id) }
    requires within { first < height }
    ensures some { 0 < result }
    ensures within { first + result ≤ height }
    ensures first { largest_runs same_row (drop first (rows_of screens.now.screens id))
        ≡ (result, slice_index_or (rows_of screens.now.screens id) first [])
        ∷ largest_runs same_row (drop (first + result) (rows_of screens.now.screens id)) }
{
    let row = row_of(screens, id, first);
    let mut end = first + 1;
    while end < height && row_of(screens, id, end) == row {
        end += 1;
    }
    end - first
}
