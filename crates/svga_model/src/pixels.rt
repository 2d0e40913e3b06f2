//! What holds of colours and of a blit's pixels. The functions do nothing: their contracts are the laws.
ghost use Rattle.std.specs.Prelude.{◌≡◌, ◌≢◌, ℕ, ◌<◌, ◌≤◌, pos, negsuc, unsigned_abs, List, [], ◌∷◌, All, length, Bool, true, Option, None, Some};
ghost use Rattle.svga_cmd.specs.declared.blit.Blit.{Blit};
ghost use Rattle.svga_cmd.specs.declared.format.Format.{Format};
ghost use Rattle.svga_cmd.specs.declared.gmrfb.Gmrfb.{Gmrfb};
ghost use Rattle.svga_cmd.specs.declared.screen.ScreenDef.{ScreenDef};
ghost use Rattle.svga_model.specs.BlitEffects.{blit_colour, colour_at};
ghost use Rattle.svga_model.specs.BlitExamples.{corner_blit, far_blit, far_screen, gmrfb, narrow_gmrfb, one_screen, two_screens, virtual_blit};
ghost use Rattle.svga_model.specs.BlitFaults.{is_negative};
ghost use Rattle.svga_model.specs.BlitPixels.{BlitPixel, ScreenPixel, blit_pixels, covers};
ghost use Rattle.svga_model.specs.Colours.{bytes_of, colour_of, pixel_length, with_unused_zero};
ghost use Rattle.svga_model.specs.Members.{IsIn};

use svga_cmd::constants::{MAX_SCREEN_ID, SCREEN_IDS, SVGA_ID_INVALID};

/// A pixel that is widened and narrowed again is as it was, but for the bits that it doesn't use.
pub fn narrowed_colour()
    ensures { (f : Format) (bs : List ℕ) → length bs ≡ pixel_length f → All (λ b. b < 256) bs
        → bytes_of f (colour_of f bs) ≡ with_unused_zero f bs }
{}

/// A blit whose rectangle begins one pixel outside a screen of 4 by 4
/// pixels has the four pixels that lie on it.
pub fn pixels_at_a_corner()
    // The first is pixel (1, 1) of the GMRFB.
    ensures { blit_pixels one_screen gmrfb corner_blit ≡
        record { x = pos 0; y = pos 0; offset = pos 104 }
        ∷ record { x = pos 1; y = pos 0; offset = pos 108 }
        ∷ record { x = pos 0; y = pos 1; offset = pos 204 }
        ∷ record { x = pos 1; y = pos 1; offset = pos 208 } ∷ [] }
{}

/// A blit in virtual coordinates over two screens that share a point.
pub fn pixels_of_two_screens()
    ensures pixels { blit_pixels two_screens gmrfb virtual_blit ≡
        record { x = pos 0; y = pos 0; offset = pos 0 }
        ∷ record { x = pos 1; y = pos 0; offset = pos 4 }
        ∷ record { x = pos 2; y = pos 0; offset = pos 8 } ∷ [] }

    // The shared point is a pixel of both, and the lower id comes first.
    ensures shared { covers two_screens SVGA_ID_INVALID (pos 1) (pos 0)
        ≡ record { screen = 0; x = 1; y = 0 } ∷ record { screen = 1; x = 0; y = 0 } ∷ [] }
    ensures alone { covers two_screens 1 (pos 1) (pos 0) ≡ record { screen = 1; x = 1; y = 0 } ∷ [] }
{}

/// A blit in virtual coordinates to a screen away from the origin, of pixels of
/// three bytes that don't begin at byte 0.
pub fn pixels_of_a_far_screen()
    // The first is pixel (3, 4) of the GMRFB.
    ensures pixels { blit_pixels far_screen narrow_gmrfb far_blit ≡
        record { x = negsuc 4; y = pos 7; offset = pos 275 }
        ∷ record { x = negsuc 3; y = pos 7; offset = pos 278 } ∷ [] }
    ensures covered { covers far_screen SVGA_ID_INVALID (negsuc 3) (pos 7)
        ≡ record { screen = 2; x = 1; y = 0 } ∷ [] }
    ensures lower { covers far_screen SVGA_ID_INVALID (negsuc 4) (pos 8)
        ≡ record { screen = 2; x = 0; y = 1 } ∷ [] }
{}

/// The pixels of screens that a blit paints are those that its pixels cover, each
/// with the colour of that pixel's bytes.
pub fn painted_pixels()
    // A pixel of a screen that some pixel of the blit covers.
    ensures painted { (definitions : ℕ → Option ScreenDef) (bytes : ℕ → ℕ) (g : Gmrfb) (b : Blit)
        (p : BlitPixel) (q : ScreenPixel) (d : ScreenDef) → IsIn p (blit_pixels definitions g b)
        → IsIn q (covers definitions b.screen p.x p.y) → definitions q.screen ≡ Some d
        → blit_colour bytes g b q.screen d q.x q.y ≡ Some (colour_at bytes g.format (unsigned_abs p.offset)) }

    // Every pixel that is painted is one of those.
    ensures covered { (definitions : ℕ → Option ScreenDef) (bytes : ℕ → ℕ) (g : Gmrfb) (b : Blit)
        (q : ScreenPixel) (d : ScreenDef) (colour : ℕ) → q.screen < SCREEN_IDS → definitions q.screen ≡ Some d
        → q.x < d.width → q.y < d.height → blit_colour bytes g b q.screen d q.x q.y ≡ Some colour
        → (p : BlitPixel) × IsIn p (blit_pixels definitions g b)
        × IsIn q (covers definitions b.screen p.x p.y) }

    // Each pixel of the blit covers some, and the first, which a blit back reads,
    // is of the screen with the least id.
    ensures least { (definitions : ℕ → Option ScreenDef) (g : Gmrfb) (b : Blit) (p : BlitPixel)
        → IsIn p (blit_pixels definitions g b)
        → (q : ScreenPixel) × (others : List ScreenPixel) × (covers definitions b.screen p.x p.y ≡ q ∷ others)
        × All (λ r. q.screen < r.screen) others }

    // A blit to one screen covers pixels of that screen alone, at its own points.
    ensures alone { (definitions : ℕ → Option ScreenDef) (b : Blit) (p : BlitPixel) (q : ScreenPixel)
        → b.screen < SCREEN_IDS → IsIn q (covers definitions b.screen p.x p.y)
        → (q.screen ≡ b.screen) × (pos q.x ≡ p.x) × (pos q.y ≡ p.y) }
{}

/// A blit that is refused for its screen or its rectangle has no pixels, so no byte of it is judged.
pub fn no_pixels()
    ensures negative { (definitions : ℕ → Option ScreenDef) (g : Gmrfb) (b : Blit) → is_negative b.rect ≡ true
        → blit_pixels definitions g b ≡ [] }
    ensures no_screen { (definitions : ℕ → Option ScreenDef) (g : Gmrfb) (b : Blit) → b.screen ≤ MAX_SCREEN_ID
        → definitions b.screen ≡ None → blit_pixels definitions g b ≡ [] }
    ensures screen_id { (definitions : ℕ → Option ScreenDef) (g : Gmrfb) (b : Blit) → MAX_SCREEN_ID < b.screen
        → b.screen ≢ SVGA_ID_INVALID → blit_pixels definitions g b ≡ [] }
{}
