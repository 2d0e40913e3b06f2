//! Pictures by their ids.
ghost use Rattle.std.specs.FinMap as map;
ghost use Rattle.std.specs.Prelude.{◌≡◌, ◌<◌, ◌≤◌, OnErr, OnOk, Some, length, option_copied, option_map};
ghost use Rattle.svga_model.specs.Pictures.{Pictures, picture_row};
ghost use Rattle.svga_cmd.specs.declared.constants.TheConstants.{MAX_SCREEN_ID, MAX_SCREEN_SIDE};
ghost use Rattle.svga_head.specs.Changes.{IsOnPicture, black_rows, painted_picture, painted_rows, with_picture, without_picture};

use crate::picture::Picture;
use std::alloc::{AllocError, Global};
use std::marker::Model;
use svga_cmd::constants::{MAX_SCREEN_ID, SCREEN_IDS};

/// Slot `id` has the picture of this id.
#[derive(Drop)]
pub struct Album {
    slots: [Option<Picture>; SCREEN_IDS],
}

impl Model for Album {
    ghost use Rattle.std.specs.Prelude.{◌≡◌, length};
    ghost use Rattle.svga_cmd.specs.declared.constants.TheConstants.{SCREEN_IDS};
    ghost use Rattle.svga_model.specs.Pictures.{Pictures, coded_pictures};
    ghost use Rattle.svga_head.specs.Mirrors.{pictures_in};

    ghost Value = { Pictures };

    ghost coded = { coded_pictures };

    ghost view = { λ a. pictures_in a.slots };

    ghost invariant = { λ a. length a.slots ≡ SCREEN_IDS };
}

impl Album {
    pub fn new() -> Album
        ensures { result ≡ map.empty }
    {
        Album {
            slots: [
                None, None, None, None, None, None, None, None, None, None, None, None, None, None,
                None, None,
            ],
        }
    }

    /// Replaces any older picture by a black one, which takes its room where that is large enough.
    pub fn show(
        &mut self,
        alloc: Global,
        id: u32,
        width: u32,
        height: u32,
    ) -> Result<(), AllocError>
        requires id { id ≤ MAX_SCREEN_ID }
        requires width { width ≤ MAX_SCREEN_SIDE }
        requires height { height ≤ MAX_SCREEN_SIDE }
        ensures ok { OnOk result (self.new ≡ with_picture id width height self.old) }
        ensures err { OnErr result (self.new ≡ self.old) }
    {
        show_in(&mut self.slots[id as usize], alloc, width, height)
    }

    pub fn hide(&mut self, id: u32)
        ensures { self.new ≡ without_picture id self.old }
    {
        if id <= MAX_SCREEN_ID {
            let _old = self.slots[id as usize].take();
        }
    }

    pub fn paint(&mut self, id: u32, x: u32, y: u32, colours: &[u32])
        requires { IsOnPicture (map.get self.old id) x y (length colours.now) }
        ensures { self.new ≡ painted_picture id x y colours.now self.old }
    {
        if id <= MAX_SCREEN_ID {
            paint_in(&mut self.slots[id as usize], x, y, colours);
        }
    }

    pub fn row(&self, id: u32, y: u32) -> Option<&[u32]>
        ensures { option_copied result ≡ picture_row self.now id y }
    {
        if id <= MAX_SCREEN_ID {
            match &self.slots[id as usize] {
                Some(picture) => picture.row(y as usize),
                None => None,
            }
        } else {
            None
        }
    }
}

fn show_in(
    slot: &mut Option<Picture>,
    alloc: Global,
    width: u32,
    height: u32,
) -> Result<(), AllocError>
    requires width { width ≤ MAX_SCREEN_SIDE }
    requires height { height ≤ MAX_SCREEN_SIDE }
    ensures ok { OnOk result (slot.new ≡ Some (black_rows width height)) }
    ensures err { OnErr result (slot.new ≡ slot.old) }
{
    if let Some(picture) = slot {
        return picture.blacken(width as usize, height as usize);
    }
    let picture = Picture::black(alloc, width as usize, height as usize)?;
    let _none = slot.replace(picture);
    Ok(())
}

fn paint_in(slot: &mut Option<Picture>, x: u32, y: u32, colours: &[u32])
    requires { IsOnPicture slot.old x y (length colours.now) }
    ensures { slot.new ≡ option_map (painted_rows x y colours.now) slot.old }
{
    if let Some(picture) = slot {
        picture.paint(x as usize, y as usize, colours);
    }
}
