//! Laws of the pages that are with the driver. The functions do nothing: their contracts are the laws.
ghost use Rattle.std.specs.FinMap as map;
ghost use Rattle.std.specs.Prelude.{◌≡◌, ℕ, List, IsSome, None, Some};
ghost use Rattle.svga_client.specs.OwnPages.{IsWithPages};
ghost use Rattle.svga_cmd.specs.Pages.{HasPage, Memory, page_at};
ghost use Rattle.svga_cmd.specs.declared.page.PageKey.{PageKey};
ghost use Rattle.svga_model.specs.Acts.{Act, Put};
ghost use Rattle.svga_model.specs.Faults.{fault_of};
ghost use Rattle.svga_model.specs.States.{State};
ghost use Rattle.svga_model.specs.Steps.{step};
ghost use Rattle.svga_model.specs.Touches.{IsPut, Touches};

/// What acts leave of pages that are with the driver.
pub fn own_pages()
    // An act that touches none of them.
    ensures fault { (own : Memory) (s t : State) (act : Act) → IsWithPages own s t
        → ((key : PageKey) → Touches t act key → ¬ (IsSome (page_at own key)))
        → fault_of t act ≡ fault_of s act }
    ensures act { (own : Memory) (s t : State) (act : Act) → IsWithPages own s t → ¬ (IsPut act)
        → ((key : PageKey) → Touches t act key → ¬ (IsSome (page_at own key)))
        → IsWithPages own (step s act) (step t act) }

    // A page that is written, that is lent, and that is taken back.
    ensures written { (own : Memory) (s t : State) (key : PageKey) (bytes : List ℕ) → IsWithPages own s t
        → IsSome (page_at own key)
        → IsWithPages (map.insert own key bytes) s (step t (Put key bytes)) }
    ensures lent { (own : Memory) (s t : State) (key : PageKey) (bytes : List ℕ) → IsWithPages own s t
        → page_at own key ≡ Some bytes → HasPage s.memory key
        → IsWithPages (map.remove own key) (step s (Put key bytes)) t }
    ensures taken { (own : Memory) (s t : State) (key : PageKey) (bytes : List ℕ) → IsWithPages own s t
        → page_at own key ≡ None → page_at s.memory key ≡ Some bytes
        → IsWithPages (map.insert own key bytes) s t }
{}
