//! Laws of what heads show. The functions do nothing: their contracts are the laws.
ghost use Rattle.std.specs.FinMap as map;
ghost use Rattle.std.specs.Prelude.{◌≡◌, ℕ, IsSome, List};
ghost use Rattle.svga_cmd.specs.declared.screen.ScreenDef.{ScreenDef};
ghost use Rattle.svga_model.specs.Pictures.{Pictures, picture_row, pictures_of};
ghost use Rattle.svga_model.specs.Screens.{AreScreens, IsOnScreen, Screens, definitions_of, painted, row_of, with_screen, without_screen};
ghost use Rattle.svga_head.specs.Changes.{IsOnPicture, painted_picture, with_picture, without_picture};
ghost use Rattle.svga_head.specs.PlugStates.{PlugState};
ghost use Rattle.svga_head.specs.Showing.{AllMay, AllShow, KeepsShowing};
ghost use Rattle.svga_head.specs.Telling.{MayHide, MayPaint};

use crate::head::Head;

/// The pictures of a device's screens change as those of a head do, and what lies on a screen lies on its
/// picture.
pub fn pictures_of_screens()
    ensures none { pictures_of map.empty ≡ map.empty }
    ensures row { (screens : Screens) (id y : ℕ)
        → picture_row (pictures_of screens) id y ≡ row_of screens id y }

    ensures defined { (screens : Screens) (def : ScreenDef)
        → pictures_of (with_screen screens def)
        ≡ with_picture def.id def.width def.height (pictures_of screens) }
    ensures destroyed { (screens : Screens) (id : ℕ)
        → pictures_of (without_screen screens id) ≡ without_picture id (pictures_of screens) }
    ensures painted { (screens : Screens) (id x y : ℕ) (colours : List ℕ)
        → pictures_of (painted screens id x y colours)
        ≡ painted_picture id x y colours (pictures_of screens) }

    ensures there { (screens : Screens) (id : ℕ) → IsSome (definitions_of screens id)
        → IsSome (map.get (pictures_of screens) id) }
    ensures on_picture { (budget : ℕ) (screens : Screens) (id x y len : ℕ) → AreScreens budget screens
        → IsOnScreen (definitions_of screens id) x y len
        → IsOnPicture (map.get (pictures_of screens) id) x y len }
{}

/// Heads that are told of each change of a device's pictures show them, and may be told of the next change.
/// Before the first change they show them as they were handed in, since the device has no picture yet.
pub fn heads_keep_showing<B: Head>()
    ensures handed_in { (plugs : List PlugState) → AllShow map.empty plugs plugs }

    ensures show { (pictures : Pictures) (id width height : ℕ)
        → KeepsShowing B.state (with_picture id width height) pictures }
    ensures hide { (pictures : Pictures) (id : ℕ) → KeepsShowing B.state (without_picture id) pictures }
    ensures paint { (pictures : Pictures) (id x y : ℕ) (colours : List ℕ) → IsSome (map.get pictures id)
        → KeepsShowing B.state (painted_picture id x y colours) pictures }

    ensures may_hide { (pictures : Pictures) (id : ℕ) → IsSome (map.get pictures id)
        → AllMay B.state (MayHide id) pictures }
    ensures may_paint { (pictures : Pictures) (id x y len : ℕ) → IsOnPicture (map.get pictures id) x y len
        → AllMay B.state (MayPaint id x y len) pictures }
{}
