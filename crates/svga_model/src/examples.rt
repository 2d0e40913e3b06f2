//! Worked examples of the machine. The functions do nothing: their contracts are the laws.
ghost use Rattle.std.specs.FinMap as map;
ghost use Rattle.std.specs.Prelude.{◌≡◌, ◌≢◌, ◌⊎◌, ℕ, ◌+◌, ◌*◌, ◌^◌, ◌<◌, ◌≤◌, List, [], ◌∷◌, slice_index, Option, Some, None};
ghost use Rattle.svga_cmd.specs.Pages.{page_at};
ghost use Rattle.svga_cmd.specs.declared.command.Command.TheVariants.{BlitToGmrfb, BlitToScreen, DefineGmr2, Update};
ghost use Rattle.svga_cmd.specs.declared.format.Format.TheVariants.{Bgrx32};
ghost use Rattle.svga_cmd.specs.declared.page.PageKey.{PageKey};
ghost use Rattle.svga_cmd.specs.declared.page.PageKey.TheVariants.{Frame, Guest};
ghost use Rattle.svga_model.specs.Acts.{Do};
ghost use Rattle.svga_model.specs.BlitEffects.{blit_writes};
ghost use Rattle.svga_model.specs.BlitExamples.{corner_blit, gmrfb, one_screen, virtual_blit};
ghost use Rattle.svga_model.specs.Colours.{row_bytes};
ghost use Rattle.svga_model.specs.Faults.{IsAdmissible};
ghost use Rattle.svga_model.specs.Memories.{region_byte, writes_from, written};
ghost use Rattle.svga_model.specs.Regions.{Places, place_count};
ghost use Rattle.svga_model.specs.Runs.{done};
ghost use Rattle.svga_model.specs.Screens.{definitions_of, row_of};
ghost use Rattle.svga_model.specs.States.{State, with_regions, with_screens};
ghost use Rattle.svga_model.specs.Worked.{AreOverlapping, AreRows, AreShown, BeginsWith, IsSetUp, IsSmall, IsSplit};
ghost use Rattle.svga_model.specs.Worked.{after, after_back, after_both, after_corner, after_inner, after_remap, after_update};
ghost use Rattle.svga_model.specs.Worked.{colour_from, define_two, inner_blit, lower_blit, pixel_blit};
ghost use Rattle.svga_model.specs.Worked.{remap_both, remap_by_own, remap_by_own_64, shown_at, small_screen};

use svga_cmd::constants::{MAX_PLACES, MAX_REGION_ID};

/// A DEFINE_GMR2 of no pages where nothing is defined: it may be done, and does nothing.
pub fn empty_region()
    ensures admissible { (s : State) (region : ℕ) → region ≤ MAX_REGION_ID
        → place_count s.kept.regions ≤ MAX_PLACES → IsAdmissible s (Do (DefineGmr2 region 0)) }
    ensures same { (s : State) (region : ℕ) → map.get s.kept.regions region ≡ None
        → after s (DefineGmr2 region 0) ≡ s }
{}

/// A blit whose rectangle begins one pixel outside a screen of 4 by 4 pixels.
pub fn blit_at_a_corner()
    // Pixel (0, 0) of the screen has then the colour of the GMRFB's pixel (1, 1).
    ensures first { (s : State) (places : Places) → IsSetUp s gmrfb places one_screen →
        shown_at (after_corner s) 0 0 0 ≡ colour_from (region_byte s.memory places) 104 }

    // Four pixels are painted, each with the colour of the GMRFB's pixel one further
    // to the right and one further down.
    ensures painted { (s : State) (places : Places) (x y : ℕ) → IsSetUp s gmrfb places one_screen → x < 2
        → y < 2 → shown_at (after_corner s) 0 x y
        ≡ colour_from (region_byte s.memory places) (100 * (y + 1) + 4 * (x + 1)) }

    // The others keep their colours.
    ensures others { (s : State) (places : Places) (x y : ℕ) → IsSetUp s gmrfb places one_screen →
        x < 4 → y < 4 → (2 ≤ x) ⊎ (2 ≤ y) → shown_at (after_corner s) 0 x y ≡ shown_at s 0 x y }

    // Nothing but the picture changes.
    ensures definitions { (s : State) (places : Places) → IsSetUp s gmrfb places one_screen →
        definitions_of (after_corner s).kept.screens ≡ one_screen }
    ensures rest { (s : State) (places : Places) → IsSetUp s gmrfb places one_screen →
        after_corner s ≡ with_screens s (after_corner s).kept.screens }

    // It may be done where the region's first place is a page.
    ensures admissible { (s : State) (key : PageKey) (places : Places) →
        IsSetUp s gmrfb (Some key ∷ places) one_screen → IsAdmissible s (Do (BlitToScreen corner_blit)) }
{}

/// Blits to two screens that share a point, and one back from there.
pub fn overlapping_screens()
    // In virtual coordinates the shared point is painted on both screens.
    ensures both { (s : State) (places : Places) (a b c d : ℕ) → AreOverlapping s places a b c d →
        AreShown (after_both s) (a ∷ b ∷ []) (b ∷ c ∷ []) }

    // In the coordinates of screen 1 it is painted there alone.
    ensures inner { (s : State) (places : Places) (a b c d : ℕ) → AreOverlapping s places a b c d →
        AreShown (after_inner s) (a ∷ b ∷ []) (d ∷ c ∷ []) }

    // Back in virtual coordinates it is read from screen 0. Row 1 of the GMRFB begins at byte 100.
    ensures back { (s : State) (places : Places) (a b c d : ℕ) → AreOverlapping s places a b c d →
        blit_writes (after_inner s).kept.screens gmrfb lower_blit
        ≡ writes_from 100 (row_bytes Bgrx32 (a ∷ b ∷ c ∷ [])) }
    ensures memory { (s : State) (places : Places) (a b c d : ℕ) → AreOverlapping s places a b c d
        → (after_back s).memory ≡ written places s.memory
        (writes_from 100 (row_bytes Bgrx32 (a ∷ b ∷ c ∷ []))) }
    ensures rest { (s : State) (places : Places) (a b c d : ℕ) → AreOverlapping s places a b c d →
        (after_back s).kept ≡ (after_inner s).kept }

    // The three may be done where the region's first place is a page.
    ensures admissible { (s : State) (key : PageKey) (places : Places) (a b c d : ℕ)
        → AreOverlapping s (Some key ∷ places) a b c d
        → done s (Do (BlitToScreen virtual_blit) ∷ Do (BlitToScreen inner_blit) ∷ Do (BlitToGmrfb lower_blit)
        ∷ []) ≡ 3 }
{}

/// A remap of a region's two places to the pages whose numbers stand in the region itself.
pub fn remap_of_its_own_numbers()
    // Both numbers are those that stood there before.
    ensures places { (s : State) (p q : Option PageKey) (m n : ℕ) → BeginsWith s (p ∷ q ∷ []) (m ∷ n ∷ []) →
        map.get (after s remap_by_own).kept.regions 1 ≡ Some (Some (Guest m) ∷ Some (Guest n) ∷ []) }

    // A number of 64 bits is two words, the low one first.
    ensures wide_places { (s : State) (p q : Option PageKey) (m high_m n high_n : ℕ) →
        BeginsWith s (p ∷ q ∷ []) (m ∷ high_m ∷ n ∷ high_n ∷ []) →
        map.get (after s remap_by_own_64).kept.regions 1
        ≡ Some (Some (Guest (m + 2 ^ 32 * high_m)) ∷ Some (Guest (n + 2 ^ 32 * high_n)) ∷ []) }

    // Nothing but this region changes.
    ensures others { (s : State) (id : ℕ) → id ≢ 1 →
        map.get (after s remap_by_own).kept.regions id ≡ map.get s.kept.regions id }
    ensures rest { (s : State) → after s remap_by_own ≡ with_regions s (after s remap_by_own).kept.regions }

    // It may be done where the first place is a page, whatever the second is,
    // and both numbers are guest pages'.
    ensures admissible { (s : State) (key : PageKey) (q : Option PageKey) (m n : ℕ) →
        BeginsWith s (Some key ∷ q ∷ []) (m ∷ n ∷ []) → m < s.kept.limits.pages → n < s.kept.limits.pages →
        IsAdmissible s (Do remap_by_own) }
{}

/// A pixel of three bytes that lies across a region's two places, both of which are page 4.
pub fn pixel_over_two_places()
    // The region as it is defined and remapped.
    ensures places { (s : State) →
        map.get (after_remap s).kept.regions 1 ≡ Some (Some (Guest 4) ∷ Some (Guest 4) ∷ []) }

    // Its byte 4,095 is the page's last, and the two behind it are the page's first.
    ensures colour { (s : State) (bytes : List ℕ) → IsSplit s → page_at s.memory (Guest 4) ≡ Some bytes →
        row_of (after (after_remap s) (BlitToScreen pixel_blit)).kept.screens 0 0
        ≡ Some ((65536 * slice_index bytes 1 + 256 * slice_index bytes 0 + slice_index bytes 4095) ∷ []) }

    // The three may be done where there is room for two places and page 4 is a guest page.
    ensures admissible { (s : State) → IsSplit s → place_count s.kept.regions + 2 ≤ MAX_PLACES
        → 4 < s.kept.limits.pages → done s (Do define_two ∷ Do remap_both ∷ Do (BlitToScreen pixel_blit) ∷ [])
        ≡ 3 }
{}

/// An UPDATE that goes past the edges of the framebuffer and of a screen, both of 2 by 2 pixels.
pub fn update_past_the_edge()
    // The right column has then the framebuffer's colours, and the left one keeps its own.
    ensures rows { (s : State) (bytes : List ℕ) → IsSmall s → page_at s.memory (Frame 0) ≡ Some bytes →
        AreRows (after_update s)
        (shown_at s 0 0 0 ∷ colour_from (slice_index bytes) 4 ∷ [])
        (shown_at s 0 0 1 ∷ colour_from (slice_index bytes) 12 ∷ []) }

    // Nothing but the picture changes.
    ensures definitions { (s : State) → IsSmall s
        → definitions_of (after_update s).kept.screens ≡ small_screen }
    ensures rest { (s : State) → after_update s ≡ with_screens s (after_update s).kept.screens }
    ensures admissible { (s : State) → IsAdmissible s (Do (Update 1 0 9 9)) }
{}
