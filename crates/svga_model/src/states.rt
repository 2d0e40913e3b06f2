//! What holds of every state, and of Puts. The functions do nothing: their contracts are the laws.
ghost use Rattle.std.specs.Prelude.{◌≡◌, ◌≢◌, ℕ, All, List, Some};
ghost use Rattle.svga_cmd.specs.Limits.{AreLimits};
ghost use Rattle.svga_cmd.specs.Pages.{HasPage, IsKey, page_at};
ghost use Rattle.svga_cmd.specs.declared.limits.Limits.{Limits};
ghost use Rattle.svga_cmd.specs.declared.page.PageKey.{PageKey};
ghost use Rattle.svga_model.specs.Acts.{Act, IsAct, Put};
ghost use Rattle.svga_model.specs.Faults.{IsAdmissible};
ghost use Rattle.svga_model.specs.Runs.{run};
ghost use Rattle.svga_model.specs.States.{State, opening_state};
ghost use Rattle.svga_model.specs.Steps.{step};
ghost use Rattle.svga_model.specs.ValidStates.{IsState};

/// Every state that acts lead to from the opening one is valid, with as many pages as it had.
pub fn valid_states()
    ensures opening { (l : Limits) (first : ℕ) → AreLimits l → IsState (opening_state l first) }

    // At first each page of the device is there.
    ensures all_pages { (l : Limits) (first : ℕ) (key : PageKey) → IsKey l key
        → HasPage (opening_state l first).memory key }
    ensures step { (s : State) (act : Act) → IsState s → IsAct s.kept.limits act → IsAdmissible s act
        → IsState (step s act) }
    ensures run { (s : State) (acts : List Act) → IsState s → All (IsAct s.kept.limits) acts
        → IsState (run s acts) }
    ensures limits { (s : State) (act : Act) → (step s act).kept.limits ≡ s.kept.limits }
    ensures keys { (s : State) (act : Act) (key : PageKey)
        → (HasPage s.memory key → HasPage (step s act).memory key)
        × (HasPage (step s act).memory key → HasPage s.memory key) }
{}

/// A page that is put has its new bytes if it is there, and nothing else changes.
pub fn put_alone()
    ensures page { (s : State) (key : PageKey) (bytes : List ℕ) → HasPage s.memory key
        → page_at (step s (Put key bytes)).memory key ≡ Some bytes }
    ensures lacking { (s : State) (key : PageKey) (bytes : List ℕ) → ¬ (HasPage s.memory key)
        → step s (Put key bytes) ≡ s }
    ensures others { (s : State) (key other : PageKey) (bytes : List ℕ) → other ≢ key
        → page_at (step s (Put key bytes)).memory other ≡ page_at s.memory other }
    ensures kept { (s : State) (key : PageKey) (bytes : List ℕ) → (step s (Put key bytes)).kept ≡ s.kept }
    ensures admissible { (s : State) (key : PageKey) (bytes : List ℕ) → IsAdmissible s (Put key bytes) }
{}
