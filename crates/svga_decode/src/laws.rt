//! What holds of the answers to words. The function does nothing: its contract is the law.
ghost use Rattle.std.specs.Prelude.{◌≡◌, ◌∷◌, ◌++◌, ℕ, List};
ghost use Rattle.svga_cmd.specs.Spelling.{Spells};
ghost use Rattle.svga_cmd.specs.declared.command.Command.{Command};
ghost use Rattle.svga_decode.specs.Answers.{IsFedAnswer};
ghost use Rattle.svga_decode.specs.declared.answer.Fed.{Fed};

use crate::answer::Fed;

/// The words of a command so far have one right answer, so `feed` gives it exactly where it is right.
pub fn one_answer()
    ensures one_answer { (ws : List ℕ) (fed other : Fed) → IsFedAnswer fed ws → IsFedAnswer other ws
        → fed ≡ other }

    // The words of a command's spelling, fed from its id on, are answered More up to the last one, and there
    // Whole, whatever follows.
    ensures before_last { (command : Command) (ws rest : List ℕ) (next : ℕ) (fed : Fed)
        → Spells command (ws ++ next ∷ rest) → IsFedAnswer fed ws → fed ≡ Fed.More }
    ensures at_last { (command : Command) (ws : List ℕ) (fed : Fed) → Spells command ws → IsFedAnswer fed ws
        → fed ≡ Fed.Whole }
{}
