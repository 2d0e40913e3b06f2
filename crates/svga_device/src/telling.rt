//! Heads are told what a command changed.
ghost use Rattle.std.specs.List.{AllZip};
ghost use Rattle.std.specs.Prelude.{◌≡◌, All, IfSome, IsSome};
ghost use Rattle.svga_device.specs.Telling.{AreRepaintedIn, HasMade, IsQuiet, IsRepaintedIn, ShowNext, SomeShow, part_of, with_area};
ghost use Rattle.svga_head.specs.Changes.{painted_picture, with_picture};
ghost use Rattle.svga_head.specs.Plugs.{IfPlugged, IsPlugTold, plug_states};
ghost use Rattle.svga_head.specs.Showing.{AllShow};
ghost use Rattle.svga_head.specs.Telling.{MayPaint};
ghost use Rattle.svga_model.specs.Pictures.{pictures_of};
ghost use Rattle.svga_model.specs.Screens.{IsOnScreen, Screens as ScreensValue, definitions_of};

use svga_head::{Head, HeadsOf};
use svga_machine::Effect;
use svga_screen::{Area, Screens};

/// Tells heads that show the screens before a command what it changed, where the screens are those after it
/// and the effect is its effect: a screen is shown anew, a screen is hidden, or each row of each area is
/// painted. Of a fence, and of nothing, no head is told.
pub fn tell<B: Head>(heads: &mut HeadsOf<B>, effect: &Effect, screens: &Screens)
    requires { (before : ScreensValue) × HasMade effect.now before screens.now.screens
        × SomeShow (pictures_of before) (plug_states B.state heads.old) }
    ensures shows { (before : ScreensValue) → HasMade effect.now before screens.now.screens
        → ShowNext (pictures_of before) (pictures_of screens.now.screens) (plug_states B.state heads.old)
        (plug_states B.state heads.new) }
    // A plug is dropped only where its head's count for the fault rose in this call.
    ensures dropped { AllShow (pictures_of screens.now.screens) (plug_states B.state heads.old)
        (plug_states B.state heads.new) }
    ensures quiet { IsQuiet effect.now → heads.new ≡ heads.old }
{
    match effect {
        Effect::Nothing => {}
        Effect::Fence(_) => {}
        Effect::Shown(id) => tell_shown(heads, *id, screens),
        Effect::Hidden(id) => heads.hide(*id),
        Effect::Painted(areas) => tell_areas(heads, areas.as_slice(), screens),
    }
}

/// Tells the heads of a screen that is defined anew.
fn tell_shown<B: Head>(heads: &mut HeadsOf<B>, id: u32, screens: &Screens)
    requires { IsSome (definitions_of screens.now.screens id) }
    ensures { IfSome (definitions_of screens.now.screens id)
        (λ def. AllZip (IsPlugTold B.state (with_picture id def.width def.height)) heads.old heads.new) }
{
    match screens.def(id) {
        Some(def) => heads.show(id, def.width, def.height),
        None => unreachable!(),
    }
}

/// Tells the heads of the areas that were painted.
fn tell_areas<B: Head>(heads: &mut HeadsOf<B>, areas: &[Area], screens: &Screens)
    requires { (before : ScreensValue) × AreRepaintedIn areas.now before screens.now.screens
        × SomeShow (pictures_of before) (plug_states B.state heads.old) }
    ensures { (before : ScreensValue) → AreRepaintedIn areas.now before screens.now.screens
        → ShowNext (pictures_of before) (pictures_of screens.now.screens) (plug_states B.state heads.old)
        (plug_states B.state heads.new) }
{
    for area in areas {
        tell_area(heads, *area, screens);
    }
}

/// Tells the heads of one area, row by row.
fn tell_area<B: Head>(heads: &mut HeadsOf<B>, area: Area, screens: &Screens)
    requires { (before : ScreensValue) × IsRepaintedIn area before screens.now.screens
        × SomeShow (pictures_of before) (plug_states B.state heads.old) }
    ensures { (before : ScreensValue) (repainted : IsRepaintedIn area before screens.now.screens)
        → ShowNext (pictures_of before) (pictures_of (with_area area before screens.now.screens repainted))
        (plug_states B.state heads.old) (plug_states B.state heads.new) }
{
    for y in area.top..area.top + area.height {
        tell_row(heads, area, y, screens);
    }
}

/// Tells the heads of one row of an area.
fn tell_row<B: Head>(heads: &mut HeadsOf<B>, area: Area, y: u32, screens: &Screens)
    requires on_screen { IsOnScreen (definitions_of screens.now.screens area.screen) area.left y area.width }
    requires there { All (IfPlugged B.state (MayPaint area.screen area.left y area.width)) heads.old }
    ensures { AllZip (IsPlugTold B.state
        (painted_picture area.screen area.left y (part_of screens.now.screens area y))) heads.old heads.new }
{
    match screens.row(area.screen, y) {
        Some(row) => {
            let left = area.left as usize;
            let part = &row[left..left + area.width as usize];
            heads.paint(area.screen, area.left, y, part);
        }
        None => unreachable!(),
    }
}
