//! What acts have to do with pages. The functions do nothing: their contracts are the laws.
ghost use Rattle.std.specs.Prelude.{◌≡◌, ℕ, List};
ghost use Rattle.svga_cmd.specs.Pages.{page_at};
ghost use Rattle.svga_cmd.specs.declared.page.PageKey.{PageKey};
ghost use Rattle.svga_model.specs.Acts.{Act, Put};
ghost use Rattle.svga_model.specs.Faults.{fault_of};
ghost use Rattle.svga_model.specs.States.{Kept, State};
ghost use Rattle.svga_model.specs.Steps.{step};
ghost use Rattle.svga_model.specs.Touches.{AgreeOn, IsPut, Touches, touches};

/// An act other than a Put reads and writes the pages that it touches alone. Here are two states that differ
/// in their memories, which have the same on the pages that the act touches in the first.
pub fn touched_pages()
    ensures fault { (s t : State) (act : Act) → s.kept ≡ t.kept → AgreeOn s t act
        → fault_of s act ≡ fault_of t act }
    ensures touched { (s t : State) (act : Act) (key : PageKey) → s.kept ≡ t.kept → AgreeOn s t act
        → touches s act key ≡ touches t act key }
    ensures kept { (s t : State) (act : Act) → s.kept ≡ t.kept → AgreeOn s t act
        → (step s act).kept ≡ (step t act).kept }
    ensures pages { (s t : State) (act : Act) (key : PageKey) → s.kept ≡ t.kept → AgreeOn s t act
        → Touches s act key → page_at (step s act).memory key ≡ page_at (step t act).memory key }
    ensures others { (s : State) (act : Act) (key : PageKey) → ¬ (IsPut act) → ¬ (Touches s act key)
        → page_at (step s act).memory key ≡ page_at s.memory key }
{}

/// A Put of a page that an act doesn't touch may come before the act or behind
/// it, and gives it nothing new to touch.
pub fn puts_commute()
    ensures fault { (s : State) (act : Act) (key : PageKey) (bytes : List ℕ) → ¬ (Touches s act key)
        → fault_of (step s (Put key bytes)) act ≡ fault_of s act }
    ensures touched { (s : State) (act : Act) (key other : PageKey) (bytes : List ℕ) → ¬ (Touches s act key)
        → touches (step s (Put key bytes)) act other ≡ touches s act other }
    ensures step { (s : State) (act : Act) (key : PageKey) (bytes : List ℕ) → ¬ (IsPut act)
        → ¬ (Touches s act key) → step (step s (Put key bytes)) act ≡ step (step s act) (Put key bytes) }
{}
