//! A head in memory.
ghost use Rattle.std.specs.FinMap as map;
ghost use Rattle.std.specs.Prelude.{◌≡◌, ◌≤◌, IsOk, length, option_copied};
ghost use Rattle.svga_cmd.specs.Limits.{IsBetween};
ghost use Rattle.svga_cmd.specs.declared.constants.TheConstants.{MAX_SCREEN_ID, MAX_SCREEN_SIDE};
ghost use Rattle.svga_model.specs.Pictures.{picture_row as row_of_picture};
ghost use Rattle.svga_head.specs.Changes.{IsOnPicture, painted_picture, with_picture, without_picture};
ghost use Rattle.svga_head.specs.Mirrors.{IsMirrorTold, MirrorState, new_mirror};

use crate::album::Album;
use crate::fault::HeadFault;
use crate::head::Head;
use std::alloc::Global;
use std::marker::Model;

/// Keeps the pictures that it is told. Its one fault is that it was refused memory, which it takes only to
/// show a picture for which the older one of its id hasn't room.
#[derive(Drop)]
pub struct Mirror {
    alloc: Global,
    album: Album,
    refusals: u64,
}

impl Model for Mirror {
    ghost use Rattle.svga_head.specs.Mirrors.{MirrorState, coded_mirror_state};

    ghost Value = { MirrorState };

    ghost coded = { coded_mirror_state };

    ghost view = { λ m. record { pictures = m.album; refusals = m.refusals } };
}

impl Mirror {
    /// It shows nothing yet.
    pub fn new(alloc: Global) -> Mirror
        ensures { result ≡ new_mirror }
    {
        Mirror {
            alloc,
            album: Album::new(),
            refusals: 0,
        }
    }
}

impl Head for Mirror {
    ghost use Rattle.svga_head.specs.Mirrors.{mirror_head};

    ghost state = { mirror_head };

    fn show(&mut self, id: u32, width: u32, height: u32) -> Result<(), HeadFault>
        requires id { id ≤ MAX_SCREEN_ID }
        requires width { IsBetween 1 MAX_SCREEN_SIDE width }
        requires height { IsBetween 1 MAX_SCREEN_SIDE height }
        ensures { IsMirrorTold (with_picture id width height) self.old self.new result }
    {
        match self.album.show(self.alloc, id, width, height) {
            Ok(()) => Ok(()),
            Err(_) => {
                self.refusals = self.refusals.saturating_add(1);
                Err(HeadFault::Memory)
            }
        }
    }

    fn hide(&mut self, id: u32) -> Result<(), HeadFault>
        ensures told { IsMirrorTold (without_picture id) self.old self.new result }
        ensures ok { IsOk result }
    {
        self.album.hide(id);
        Ok(())
    }

    fn paint(&mut self, id: u32, x: u32, y: u32, colours: &[u32]) -> Result<(), HeadFault>
        requires { IsOnPicture (map.get self.old.pictures id) x y (length colours.now) }
        ensures told { IsMirrorTold (painted_picture id x y colours.now) self.old self.new result }
        ensures ok { IsOk result }
    {
        self.album.paint(id, x, y, colours);
        Ok(())
    }

    fn picture_row(&self, id: u32, y: u32) -> Option<&[u32]>
        ensures { option_copied result ≡ row_of_picture self.now.pictures id y }
    {
        self.album.row(id, y)
    }
}
