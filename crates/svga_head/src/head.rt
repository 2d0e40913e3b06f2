//! What an output is told, and what contracts see of it.
ghost use Rattle.std.specs.Prelude.{◌≡◌, ◌<◌, ◌≤◌, All, length, IfSome, option_copied};
ghost use Rattle.svga_cmd.specs.Limits.{IsBetween};
ghost use Rattle.svga_cmd.specs.declared.constants.TheConstants.{COLOURS, MAX_SCREEN_ID, MAX_SCREEN_SIDE};
ghost use Rattle.svga_model.specs.Pictures.{picture_row as row_of_picture};
ghost use Rattle.svga_head.specs.Changes.{painted_picture, with_picture, without_picture};
ghost use Rattle.svga_head.specs.HeadStates.{HeadState};
ghost use Rattle.svga_head.specs.Telling.{IsTold, MayHide, MayPaint};

use crate::fault::HeadFault;

/// An output of a display. After a fault `Heads` tells it nothing more.
pub trait Head: Drop {
    /// The pictures that the head shows, where it tells them, how often it has failed, and how often it was
    /// refused memory so far.
    ghost state: { Self → HeadState };

    /// Shows a black picture, which replaces any older one of the same id.
    fn show(&mut self, id: u32, width: u32, height: u32) -> Result<(), HeadFault>
        requires id { id ≤ MAX_SCREEN_ID }
        requires width { IsBetween 1 MAX_SCREEN_SIDE width }
        requires height { IsBetween 1 MAX_SCREEN_SIDE height }
        ensures { IsTold (with_picture id width height) (state self.old) (state self.new) result };

    /// Removes a picture.
    fn hide(&mut self, id: u32) -> Result<(), HeadFault>
        requires { MayHide id (state self.old) }
        ensures { IsTold (without_picture id) (state self.old) (state self.new) result };

    /// Paints a part of row `y`, from `x` on.
    fn paint(&mut self, id: u32, x: u32, y: u32, colours: &[u32]) -> Result<(), HeadFault>
        requires in_range { All (λ c. c < COLOURS) colours.now }
        requires there { MayPaint id x y (length colours.now) (state self.old) }
        ensures { IsTold (painted_picture id x y colours.now) (state self.old) (state self.new) result };

    /// Row `y` of a picture. Of a head that doesn't tell its pictures nothing is known of the answer.
    fn picture_row(&self, id: u32, y: u32) -> Option<&[u32]>
        ensures { IfSome (state self.now).pictures
            (λ pictures. option_copied result ≡ row_of_picture pictures id y) };
}
