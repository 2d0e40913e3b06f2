//! What holds of the largest runs of equal neighbours. The function does nothing: its contract is the law.
ghost use Rattle.std.specs.List.{flat_map};
ghost use Rattle.std.specs.Prelude.{◌≡◌, ◌==◌, ◌<◌, ◌≢◌, ℕ, List, All, replicate};
ghost use Rattle.svga_text.specs.Pictures.{same_row};
ghost use Rattle.svga_text.specs.Runs.{AreApart, Run, largest_runs};

/// Behind one another they are the list; none is empty, and neighbours differ. So they are runs, and none
/// could be longer.
pub fn runs_are_largest()
    ensures whole { (xs : List ℕ) → flat_map (λ (r : Run ℕ). replicate r.0 r.1)
        (largest_runs (◌==◌) xs) ≡ xs }
    ensures some { (xs : List ℕ) → All (λ (r : Run ℕ). 0 < r.0) (largest_runs (◌==◌) xs) }
    ensures apart { (xs : List ℕ) → AreApart (largest_runs (◌==◌) xs) }

    // So it is with groups of equal rows.
    ensures whole_rows { (rows : List (List ℕ))
        → flat_map (λ (r : Run (List ℕ)). replicate r.0 r.1) (largest_runs same_row rows) ≡ rows }
    ensures some_rows { (rows : List (List ℕ))
        → All (λ (r : Run (List ℕ)). 0 < r.0) (largest_runs same_row rows) }
    ensures apart_rows { (rows : List (List ℕ)) → AreApart (largest_runs same_row rows) }
{}
