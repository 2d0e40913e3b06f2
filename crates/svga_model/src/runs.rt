//! What holds of runs. The functions do nothing: their contracts are the laws.
ghost use Rattle.std.specs.Prelude.{◌≡◌, ◌⊎◌, ◌+◌, ◌<◌, ◌≤◌, ◌++◌, ℕ, List, [], ◌∷◌, length, take, Bool, true, false};
ghost use Rattle.svga_cmd.specs.Pages.{page_at};
ghost use Rattle.svga_cmd.specs.declared.command.Command.{Command};
ghost use Rattle.svga_cmd.specs.declared.ending.Ending.{Ending};
ghost use Rattle.svga_cmd.specs.declared.page.PageKey.{PageKey};
ghost use Rattle.svga_model.specs.Acts.{Act};
ghost use Rattle.svga_model.specs.Faults.{IsAdmissible, fault_of};
ghost use Rattle.svga_model.specs.Replays.{IsWithinRegions};
ghost use Rattle.svga_model.specs.Runs.{done, in_regions, is_met, on_walk, only, puts, run};
ghost use Rattle.svga_model.specs.States.{State};
ghost use Rattle.svga_model.specs.Touches.{Touches};

/// A run goes act by act, and ends before the first act that isn't admissible.
pub fn run_in_parts()
    // A first part that is run whole is followed by the second part.
    ensures whole { (s : State) (xs ys : List Act) → done s xs ≡ length xs
        → (run s (xs ++ ys) ≡ run (run s xs) ys) × (done s (xs ++ ys) ≡ done s xs + done (run s xs) ys) }

    // A first part that isn't is followed by nothing.
    ensures ended { (s : State) (xs ys : List Act) → done s xs < length xs
        → (run s (xs ++ ys) ≡ run s xs) × (done s (xs ++ ys) ≡ done s xs) }
    ensures most { (s : State) (xs : List Act) → done s xs ≤ length xs }

    // What a run leaves is what the acts leave that it ran, all of them.
    ensures front { (s : State) (xs : List Act)
        → (run s (take (done s xs) xs) ≡ run s xs) × (done s (take (done s xs) xs) ≡ done s xs) }
    ensures refused { (s : State) (xs ys : List Act) (act : Act) → xs ≡ take (done s xs) xs ++ act ∷ ys
        → ¬ (IsAdmissible (run s xs) act) }
{}

/// A run reads and writes no page outside every region and every chain that it walks: with
/// those pages alone it is the same run.
pub fn run_over_only()
    // Each page that an act touches stands in a region or on the act's walk.
    ensures somewhere { (s : State) (act : Act) (key : PageKey) → Touches s act key
        → (in_regions s.kept key ≡ true) ⊎ (on_walk s act key ≡ true) }

    // The run over the cut state ends at the same act, with the same fault, and keeps the same.
    ensures done { (s : State) (acts : List Act) → done (only s acts) acts ≡ done s acts }
    ensures fault { (s : State) (acts ys : List Act) (act : Act) → acts ≡ take (done s acts) acts ++ act ∷ ys
        → fault_of (run (only s acts) acts) act ≡ fault_of (run s acts) act }
    ensures kept { (s : State) (acts : List Act) → (run (only s acts) acts).kept ≡ (run s acts).kept }

    // The pages that are kept end with the same bytes. All others change by the run's Puts alone.
    ensures pages { (s : State) (acts : List Act) (key : PageKey) → is_met s acts key ≡ true
        → page_at (run (only s acts) acts).memory key ≡ page_at (run s acts).memory key }
    ensures others { (s : State) (acts : List Act) (key : PageKey) → is_met s acts key ≡ false
        → page_at (run s acts).memory key ≡ page_at (puts s.memory (take (done s acts) acts)) key }
{}

/// Neither does a replay.
pub fn replay_within_regions()
    ensures { (s : State) (cs : List Command) (end : Ending) → IsWithinRegions s cs end }
{}
