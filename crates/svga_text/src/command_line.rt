//! The lines of commands, each by its fields.
ghost use Rattle.std.specs.Prelude.{◌≡◌, ◌∷◌, length, map, codes};
ghost use Rattle.std.specs.Fmt.{decimal};
ghost use Rattle.svga_cmd.specs.Lent.{entries_of};
ghost use Rattle.svga_cmd.specs.WellFormed.{HasEntries};
ghost use Rattle.svga_cmd.specs.declared.command.Command.TheVariants as command;
ghost use Rattle.svga_text.specs.CommandLines.{command_line, blit_fields, entry_numbers};
ghost use Rattle.svga_text.specs.Lines.{line, spaced};
ghost use Rattle.svga_text.specs.Passing.{PassesOn, Writes};

use crate::entry::{entry_at, entry_count};
use crate::field::Field::{Name, Signed, Unsigned};
use crate::name::{name_of_format, name_of_kind};
use crate::render::Render;
use svga_cmd::constants::{BACKED_SCREEN_SIZE, SCREEN_SIZE};
use svga_cmd::{Blit, EntriesRef, Gmrfb, ScreenDef};
use svga_io::{Sink, WriteFault};

impl Render {
    pub(crate) fn update<K: Sink>(
        &mut self,
        sink: &mut K,
        word: u32,
        x: u32,
        y: u32,
        width: u32,
        height: u32,
    ) -> Result<(), WriteFault>
        ensures { Writes K.held K.faults sink.old sink.new
            (command_line word (command.Update x y width height)) result }
    {
        self.write(
            sink,
            "at",
            &[
                Unsigned(word),
                Name("UPDATE"),
                Unsigned(x),
                Unsigned(y),
                Unsigned(width),
                Unsigned(height),
            ],
        )
    }

    pub(crate) fn fence<K: Sink>(
        &mut self,
        sink: &mut K,
        word: u32,
        value: u32,
    ) -> Result<(), WriteFault>
        ensures { Writes K.held K.faults sink.old sink.new (command_line word (command.Fence value)) result }
    {
        self.write(
            sink,
            "at",
            &[Unsigned(word), Name("FENCE"), Unsigned(value)],
        )
    }

    pub(crate) fn destroy_screen<K: Sink>(
        &mut self,
        sink: &mut K,
        word: u32,
        id: u32,
    ) -> Result<(), WriteFault>
        ensures { Writes K.held K.faults sink.old sink.new
            (command_line word (command.DestroyScreen id)) result }
    {
        self.write(
            sink,
            "at",
            &[Unsigned(word), Name("DESTROY_SCREEN"), Unsigned(id)],
        )
    }

    pub(crate) fn define_gmr2<K: Sink>(
        &mut self,
        sink: &mut K,
        word: u32,
        region: u32,
        pages: u32,
    ) -> Result<(), WriteFault>
        ensures { Writes K.held K.faults sink.old sink.new
            (command_line word (command.DefineGmr2 region pages)) result }
    {
        self.write(
            sink,
            "at",
            &[
                Unsigned(word),
                Name("DEFINE_GMR2"),
                Unsigned(region),
                Unsigned(pages),
            ],
        )
    }

    pub(crate) fn define_screen<K: Sink>(
        &mut self,
        sink: &mut K,
        word: u32,
        def: &ScreenDef,
    ) -> Result<(), WriteFault>
        ensures { Writes K.held K.faults sink.old sink.new
            (command_line word (command.DefineScreen def.now)) result }
    {
        match def.backing {
            None => self.write(
                sink,
                "at",
                &[
                    Unsigned(word),
                    Name("DEFINE_SCREEN"),
                    Unsigned(SCREEN_SIZE),
                    Unsigned(def.id),
                    Unsigned(def.flags),
                    Unsigned(def.width),
                    Unsigned(def.height),
                    Signed(def.x),
                    Signed(def.y),
                ],
            ),
            Some(backing) => self.write(
                sink,
                "at",
                &[
                    Unsigned(word),
                    Name("DEFINE_SCREEN"),
                    Unsigned(BACKED_SCREEN_SIZE),
                    Unsigned(def.id),
                    Unsigned(def.flags),
                    Unsigned(def.width),
                    Unsigned(def.height),
                    Signed(def.x),
                    Signed(def.y),
                    Unsigned(backing.region),
                    Unsigned(backing.offset),
                    Unsigned(backing.pitch),
                    Unsigned(backing.clones),
                ],
            ),
        }
    }

    pub(crate) fn define_gmrfb<K: Sink>(
        &mut self,
        sink: &mut K,
        word: u32,
        gmrfb: &Gmrfb,
    ) -> Result<(), WriteFault>
        ensures { Writes K.held K.faults sink.old sink.new
            (command_line word (command.DefineGmrfb gmrfb.now)) result }
    {
        self.write(
            sink,
            "at",
            &[
                Unsigned(word),
                Name("DEFINE_GMRFB"),
                Unsigned(gmrfb.region),
                Unsigned(gmrfb.offset),
                Unsigned(gmrfb.pitch),
                Name(name_of_format(gmrfb.format)),
            ],
        )
    }

    pub(crate) fn blit_to_screen<K: Sink>(
        &mut self,
        sink: &mut K,
        word: u32,
        blit: &Blit,
    ) -> Result<(), WriteFault>
        ensures { Writes K.held K.faults sink.old sink.new
            (command_line word (command.BlitToScreen blit.now)) result }
    {
        self.blit(sink, word, "BLIT_GMRFB_TO_SCREEN", blit)
    }

    pub(crate) fn blit_to_gmrfb<K: Sink>(
        &mut self,
        sink: &mut K,
        word: u32,
        blit: &Blit,
    ) -> Result<(), WriteFault>
        ensures { Writes K.held K.faults sink.old sink.new
            (command_line word (command.BlitToGmrfb blit.now)) result }
    {
        self.blit(sink, word, "BLIT_SCREEN_TO_GMRFB", blit)
    }

    fn blit<K: Sink>(
        &mut self,
        sink: &mut K,
        word: u32,
        name: &'static str,
        blit: &Blit,
    ) -> Result<(), WriteFault>
        ensures { Writes K.held K.faults sink.old sink.new
            (line (codes "at") (decimal word ∷ name.entry.now ∷ blit_fields blit.now)) result }
    {
        self.write(
            sink,
            "at",
            &[
                Unsigned(word),
                Name(name),
                Signed(blit.point.x),
                Signed(blit.point.y),
                Signed(blit.rect.left),
                Signed(blit.rect.top),
                Signed(blit.rect.right),
                Signed(blit.rect.bottom),
                Unsigned(blit.screen),
            ],
        )
    }

    pub(crate) fn remap_gmr2<K: Sink>(
        &mut self,
        sink: &mut K,
        word: u32,
        region: u32,
        offset: u32,
        pages: u32,
        entries: &EntriesRef<'_>,
    ) -> Result<(), WriteFault>
        requires { HasEntries (entries_of entries.now) pages }
        ensures { Writes K.held K.faults sink.old sink.new
            (command_line word (command.RemapGmr2 region offset pages (entries_of entries.now))) result }
    {
        self.begin(
            sink,
            "at",
            &[
                Unsigned(word),
                Name("REMAP_GMR2"),
                Unsigned(region),
                Unsigned(offset),
                Unsigned(pages),
                Name(name_of_kind(entries)),
            ],
        )?;
        self.entries(sink, entries, entry_count(entries, pages))?;
        self.end(sink)
    }

    fn entries<K: Sink>(
        &mut self,
        sink: &mut K,
        entries: &EntriesRef<'_>,
        count: u32,
    ) -> Result<(), WriteFault>
        requires { count ≡ length (entry_numbers (entries_of entries.now)) }
        ensures { PassesOn K.held K.faults sink.old sink.new self.old.pending self.new.pending
            (spaced (map decimal (entry_numbers (entries_of entries.now)))) result }
    {
        for i in 0..count {
            self.pending.number(sink, entry_at(entries, i as usize))?;
        }
        Ok(())
    }
}
