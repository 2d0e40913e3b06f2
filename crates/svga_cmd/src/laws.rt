//! What holds of spellings. The functions do nothing: their contracts are the laws.
ghost use Rattle.std.specs.Prelude.{◌≡◌, ℕ, List, ◌++◌, []};
ghost use Rattle.svga_cmd.specs.Spelling.{Spells};
ghost use Rattle.svga_cmd.specs.WellFormed.{IsWellFormed};
ghost use Rattle.svga_cmd.specs.declared.command.Command.{Command};

/// A command and its words determine one another, so words can be read in one way alone.
pub fn unique_spelling()
    // A well-formed command has a spelling, and no second one.
    ensures spelled { (c : Command) → IsWellFormed c → (ws : List ℕ) × Spells c ws }
    ensures one_spelling { (c : Command) (ws vs : List ℕ) → Spells c ws → Spells c vs → ws ≡ vs }

    // A list of words spells at most one command.
    ensures one_command { (c d : Command) (ws : List ℕ) → Spells c ws → Spells d ws → c ≡ d }

    // No spelling is the beginning of a longer one.
    ensures no_proper_prefix { (c d : Command) (ws rest : List ℕ) → Spells c ws → Spells d (ws ++ rest)
        → rest ≡ [] }
{}
