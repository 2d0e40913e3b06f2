//! Worked examples of captures. The function does nothing: its contract is the law.
ghost use Rattle.std.specs.FinMap as map;
ghost use Rattle.std.specs.Prelude.{◌≡◌, ◌++◌, ◌==◌, [], ◌∷◌, take, None, Some};
ghost use Rattle.svga_cmd.specs.declared.capture_cause.CaptureCause.TheVariants.{Long, Magic, Number, Order, Short, Version};
ghost use Rattle.svga_cmd.specs.declared.page.PageKey.TheVariants.{Guest};
ghost use Rattle.svga_model.specs.CaptureExamples.{bytes_from, small, small_page, small_regions, small_with, with_least, wrapped};
ghost use Rattle.svga_model.specs.CaptureFields.{ordered_field};
ghost use Rattle.svga_model.specs.Captures.{flaw_in, held};

/// A capture of 56 bytes, and what is wrong where one of its words is another.
pub fn small_captures()
    ensures good { flaw_in (bytes_from small) ≡ None }
    ensures short { flaw_in (take 3 (bytes_from small)) ≡ Some (3, Short) }
    ensures shorter { flaw_in (take 55 (bytes_from small)) ≡ Some (55, Short) }
    ensures magic { flaw_in (small_with 0 0x00475653) ≡ Some (0, Magic) }
    ensures version { flaw_in (small_with 1 2) ≡ Some (4, Version) }
    ensures ring_end { flaw_in (small_with 2 18) ≡ Some (8, Number) }
    ensures ring_end_again { flaw_in (small_with 10 24) ≡ Some (40, Number) }
    ensures next { flaw_in (small_with 11 20) ≡ Some (44, Number) }
    ensures long { flaw_in (bytes_from small ++ 0 ∷ []) ≡ Some (56, Long) }
    ensures no_place { flaw_in (small_regions 1 (5 ∷ 0 ∷ [])) ≡ Some (60, Number) }
    ensures order { flaw_in (small_regions 2 (5 ∷ 1 ∷ 0 ∷ 5 ∷ 1 ∷ 0 ∷ [])) ≡ Some (68, Order) }
    ensures regions { flaw_in (small_regions 2 (5 ∷ 1 ∷ 0 ∷ 6 ∷ 1 ∷ 0xFFFFFFFF ∷ [])) ≡ None }
    ensures no_page { flaw_in (small_regions 1 (5 ∷ 1 ∷ 1 ∷ [])) ≡ Some (64, Number) }
    ensures count_cut { flaw_in (take 62 (small_regions 1 (5 ∷ 1 ∷ 0 ∷ []))) ≡ Some (62, Short) }
    ensures too_many { flaw_in (small_regions 1 (5 ∷ 65537 ∷ [])) ≡ Some (60, Number) }

    // A number that is wrong is told though the bytes end soon behind it.
    ensures ring_end_first { flaw_in (take 40 (small_with 9 18)) ≡ Some (36, Number) }

    // Keys: page 0 of the guest and of the framebuffer, and pages that there aren't.
    ensures guest_key { flaw_in (small_page 0) ≡ Some (60, Short) }
    ensures frame_key { flaw_in (small_page 0x80000000) ≡ Some (60, Short) }
    ensures no_guest_key { flaw_in (small_page 1) ≡ Some (56, Number) }
    ensures no_frame_key { flaw_in (small_page 0x80000001) ≡ Some (56, Number) }
    // A key that is no page's and isn't above the last one breaks the rule on its number.
    ensures number_first { (ordered_field (bytes_from (1 ∷ [])) 0 (Some 0x80000000) (λ w. w == 0)).breaks
        ≡ Some Number }
    ensures then_order { (ordered_field (bytes_from (0 ∷ [])) 0 (Some 0x80000000) (λ w. w == 0)).breaks
        ≡ Some Order }
{}

/// Words that wait round the ring's end, regions' places, and fences that are there or not.
pub fn words_of_captures()
    ensures empty { (held (bytes_from small)).words ≡ [] }
    ensures whole { flaw_in wrapped ≡ None }
    ensures round { (held wrapped).words ≡ 9 ∷ 7 ∷ [] }
    ensures places { map.get
        (held (small_regions 2 (5 ∷ 1 ∷ 0 ∷ 6 ∷ 1 ∷ 0xFFFFFFFF ∷ []))).opening.kept.regions 5
        ≡ Some (Some (Guest 0) ∷ []) }
    ensures unmapped { map.get
        (held (small_regions 2 (5 ∷ 1 ∷ 0 ∷ 6 ∷ 1 ∷ 0xFFFFFFFF ∷ []))).opening.kept.regions 6
        ≡ Some (None ∷ []) }
    ensures fence { (held (with_least 28)).opening.kept.fence ≡ 5 }
    ensures no_fence { (held (with_least 24)).opening.kept.fence ≡ 0 }
{}
