//! Heads in plugs, all of which are told what a device shows.
ghost use Rattle.std.specs.Prelude.{◌≡◌, ◌<◌, ◌≤◌, All, length, option_copied, slice_get};
ghost use Rattle.std.specs.List.{AllZip};
ghost use Rattle.svga_cmd.specs.Limits.{IsBetween};
ghost use Rattle.svga_cmd.specs.declared.constants.TheConstants.{COLOURS, MAX_SCREEN_ID, MAX_SCREEN_SIDE};
ghost use Rattle.svga_head.specs.Changes.{painted_picture, with_picture, without_picture};
ghost use Rattle.svga_head.specs.Plugs.{IfPlugged, IsPlugTold};
ghost use Rattle.svga_head.specs.Telling.{MayHide, MayPaint};

use crate::change::Change;
use crate::head::Head;
use crate::plug::PlugOf;
use crate::telling::tell_all;
use std::marker::Model;

/// Heads of one type, each in its plug. Contracts see the list of plugs.
#[derive(Drop)]
pub struct HeadsOf<B> {
    plugs: Vec<PlugOf<B>>,
}

impl<B> Model for HeadsOf<B> {
    ghost use Rattle.std.specs.Prelude.{List};
    ghost use Rattle.svga_head.specs.declared.plug.PlugOf.{PlugOf as PlugValue};

    ghost Value = { List (PlugValue B) };

    ghost view = { λ h. h.plugs.items };
}

/// Heads of any types, each in a box.
pub type Heads = HeadsOf<Box<dyn Head + Send>>;

impl<B: Head> HeadsOf<B> {
    pub fn new(plugs: Vec<PlugOf<B>>) -> HeadsOf<B>
        ensures { result ≡ plugs.items }
    {
        HeadsOf { plugs }
    }

    /// The plug with this number, from 0 on.
    pub fn plug(&self, k: usize) -> Option<&PlugOf<B>>
        ensures { option_copied result ≡ slice_get self.now k }
    {
        self.plugs.get(k)
    }

    /// Tells each plugged head that a black picture is shown, which replaces any older one of the same id.
    pub fn show(&mut self, id: u32, width: u32, height: u32)
        requires id { id ≤ MAX_SCREEN_ID }
        requires width { IsBetween 1 MAX_SCREEN_SIDE width }
        requires height { IsBetween 1 MAX_SCREEN_SIDE height }
        ensures { AllZip (IsPlugTold B.state (with_picture id width height)) self.old self.new }
    {
        tell_all(&mut self.plugs, &Change::Show { id, width, height });
    }

    /// Tells each plugged head that a picture is gone.
    pub fn hide(&mut self, id: u32)
        requires { All (IfPlugged B.state (MayHide id)) self.old }
        ensures { AllZip (IsPlugTold B.state (without_picture id)) self.old self.new }
    {
        tell_all(&mut self.plugs, &Change::Hide { id });
    }

    /// Tells each plugged head that a part of row `y` is painted, from `x` on.
    pub fn paint(&mut self, id: u32, x: u32, y: u32, colours: &[u32])
        requires in_range { All (λ c. c < COLOURS) colours.now }
        requires there { All (IfPlugged B.state (MayPaint id x y (length colours.now))) self.old }
        ensures { AllZip (IsPlugTold B.state (painted_picture id x y colours.now)) self.old self.new }
    {
        tell_all(&mut self.plugs, &Change::Paint { id, x, y, colours });
    }
}
