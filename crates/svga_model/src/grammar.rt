//! What holds of sentences, bad words and endings. The functions do nothing: their contracts are the laws.
ghost use Rattle.std.specs.Prelude.{◌≡◌, ◌<◌, ◌↔◌, ◌++◌, ℕ, List, length, take};
ghost use Rattle.svga_cmd.specs.declared.cause.Cause.{Cause};
ghost use Rattle.svga_cmd.specs.declared.command.Command.{Command};
ghost use Rattle.svga_cmd.specs.declared.ending.Ending.{Ending};
ghost use Rattle.svga_model.specs.Accepted.{AreWords};
ghost use Rattle.svga_model.specs.Endings.{IsBadWord, IsEnding, IsFront, IsRefusedAs};
ghost use Rattle.svga_model.specs.Sentences.{IsViable};

/// The table of refused words names the bad words, and no other words.
pub fn refused_word()
    // Word k, behind words that begin a sentence: it is the bad word exactly where the table
    // refuses it. The cause is the table's.
    ensures refused { (ws : List ℕ) (cs : List Command) (k : ℕ) → AreWords ws → k < length ws
        → IsViable (take k ws) → IsFront (take k ws) cs
        → (IsBadWord ws k ↔ ((why : Cause) × IsRefusedAs ws cs k why)) }

    // There the whole commands before the word are those of the front of all words.
    ensures front { (ws : List ℕ) (cs : List Command) (k : ℕ) → IsBadWord ws k
        → (IsFront (take k ws) cs ↔ IsFront ws cs) }
    ensures one_bad_word { (ws : List ℕ) (j k : ℕ) → IsBadWord ws j → IsBadWord ws k → j ≡ k }
{}

/// Words of 32 bits end in one way.
pub fn one_ending()
    ensures some_ending { (ws : List ℕ) → AreWords ws
        → (cs : List Command) × (end : Ending) × IsEnding ws cs end }
    ensures one_front { (ws : List ℕ) (cs ds : List Command) → IsFront ws cs → IsFront ws ds → cs ≡ ds }
    ensures one_ending { (ws : List ℕ) (cs ds : List Command) (end other : Ending) → IsEnding ws cs end
        → IsEnding ws ds other → (cs ≡ ds) × (end ≡ other) }
{}

/// Which words begin a sentence.
pub fn viable_words()
    ensures beginning { (ws rest : List ℕ) → IsViable (ws ++ rest) → IsViable ws }
    ensures no_bad_word { (ws : List ℕ) → AreWords ws → ((k : ℕ) → IsBadWord ws k → ⊥) → IsViable ws }
{}
