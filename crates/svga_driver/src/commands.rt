//! The calls that commit a command.
ghost use Rattle.std.specs.Prelude.{◌≤◌, length};
ghost use Rattle.svga_cmd.specs.declared.command.Command.TheVariants as command;
ghost use Rattle.svga_cmd.specs.declared.constants.TheConstants.{MAX_REMAP_PAGES};
ghost use Rattle.svga_cmd.specs.declared.remap.RemapData.TheVariants as entries;
ghost use Rattle.svga_model.specs.ClientActs.{plain_screen};

use crate::driver::Driver;
use crate::fault::DriverFault;
use svga_cmd::constants::{SVGA_CMD_REMAP_GMR2, SVGA_REMAP_GMR2_PPN32};
use svga_cmd::{Blit, Command, CommandRef, EntriesRef, Gmrfb, RemapData, ScreenDef, encode_short};

/// The flag word of a screen: it has a corner.
const HAS_ROOT: u32 = 1;

impl Driver {
    ghost use Rattle.svga_driver.specs.CommitAnswers.{CommitAnswers};
    ghost use Rattle.svga_driver.specs.Driving.{IsShort};

    /// Defines a screen without a backing.
    pub fn define_screen(
        &mut self,
        id: u32,
        width: u32,
        height: u32,
        x: i32,
        y: i32,
    ) -> Result<(), DriverFault>
        requires { IsShort self.old.view }
        ensures { CommitAnswers self.old (command.DefineScreen (plain_screen id width height x y)) result
            self.new }
    {
        let def = ScreenDef {
            id,
            flags: HAS_ROOT,
            width,
            height,
            x,
            y,
            backing: None,
        };
        let words = encode_short(&Command::DefineScreen(def));
        self.commit(&CommandRef::DefineScreen(def), words.as_slice(), &[])
    }

    /// Destroys a screen.
    pub fn destroy_screen(&mut self, id: u32) -> Result<(), DriverFault>
        requires { IsShort self.old.view }
        ensures { CommitAnswers self.old (command.DestroyScreen id) result self.new }
    {
        let words = encode_short(&Command::DestroyScreen { id });
        self.commit(&CommandRef::DestroyScreen { id }, words.as_slice(), &[])
    }

    /// Defines a region of so many unmapped places, or undefines it where there are none.
    pub fn define_region(&mut self, id: u32, pages: u32) -> Result<(), DriverFault>
        requires { IsShort self.old.view }
        ensures { CommitAnswers self.old (command.DefineGmr2 id pages) result self.new }
    {
        let words = encode_short(&Command::DefineGmr2 { region: id, pages });
        let command = CommandRef::DefineGmr2 { region: id, pages };
        self.commit(&command, words.as_slice(), &[])
    }

    /// Maps a region's places from `offset` on to these pages, at most 2,048 of them.
    pub fn map(&mut self, id: u32, offset: u32, pages: &[u32]) -> Result<(), DriverFault>
        requires short { IsShort self.old.view }
        requires few { length pages.now ≤ 2048 }
        ensures { CommitAnswers self.old
            (command.RemapGmr2 id offset (length pages.now) (entries.Ppn32 pages.now)) result self.new }
    {
        let count = pages.len() as u32;
        let front = [
            SVGA_CMD_REMAP_GMR2,
            id,
            SVGA_REMAP_GMR2_PPN32,
            offset,
            count,
        ];
        let command = CommandRef::RemapGmr2 {
            region: id,
            offset,
            pages: count,
            entries: EntriesRef::Ppn32(pages),
        };
        self.commit(&command, &front, pages)
    }

    /// Maps so many places of a region, from `offset` on, to one page.
    pub fn map_same(
        &mut self,
        id: u32,
        offset: u32,
        count: u32,
        page: u32,
    ) -> Result<(), DriverFault>
        requires short { IsShort self.old.view }
        requires few { count ≤ MAX_REMAP_PAGES }
        ensures { CommitAnswers self.old (command.RemapGmr2 id offset count (entries.SinglePpn32 page)) result
            self.new }
    {
        let words = encode_short(&Command::RemapGmr2 {
            region: id,
            offset,
            pages: count,
            entries: RemapData::SinglePpn32(page),
        });
        let command = CommandRef::RemapGmr2 {
            region: id,
            offset,
            pages: count,
            entries: EntriesRef::SinglePpn32(page),
        };
        self.commit(&command, words.as_slice(), &[])
    }

    /// Defines the GMRFB.
    pub fn gmrfb(&mut self, gmrfb: Gmrfb) -> Result<(), DriverFault>
        requires { IsShort self.old.view }
        ensures { CommitAnswers self.old (command.DefineGmrfb gmrfb) result self.new }
    {
        let words = encode_short(&Command::DefineGmrfb(gmrfb));
        self.commit(&CommandRef::DefineGmrfb(gmrfb), words.as_slice(), &[])
    }

    /// Copies a rectangle of the GMRFB to screens.
    pub fn blit(&mut self, blit: Blit) -> Result<(), DriverFault>
        requires { IsShort self.old.view }
        ensures { CommitAnswers self.old (command.BlitToScreen blit) result self.new }
    {
        let words = encode_short(&Command::BlitToScreen(blit));
        self.commit(&CommandRef::BlitToScreen(blit), words.as_slice(), &[])
    }

    /// Copies a rectangle of screens to the GMRFB.
    pub fn blit_back(&mut self, blit: Blit) -> Result<(), DriverFault>
        requires { IsShort self.old.view }
        ensures { CommitAnswers self.old (command.BlitToGmrfb blit) result self.new }
    {
        let words = encode_short(&Command::BlitToGmrfb(blit));
        self.commit(&CommandRef::BlitToGmrfb(blit), words.as_slice(), &[])
    }

    /// Copies a rectangle of the guest framebuffer to the screens.
    pub fn update(&mut self, x: u32, y: u32, width: u32, height: u32) -> Result<(), DriverFault>
        requires { IsShort self.old.view }
        ensures { CommitAnswers self.old (command.Update x y width height) result self.new }
    {
        let words = encode_short(&Command::Update {
            x,
            y,
            width,
            height,
        });
        let command = CommandRef::Update {
            x,
            y,
            width,
            height,
        };
        self.commit(&command, words.as_slice(), &[])
    }
}
