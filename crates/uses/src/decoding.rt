//! Callers of the decoder.
ghost use Rattle.std.specs.Prelude.{◌≡◌, ◌≤◌, ◌∷◌, ◌++◌, ◌↔◌, [], List, None, length, IfSome, IsSome};
ghost use Rattle.svga_cmd.specs.Lent.{command_of};
ghost use Rattle.svga_cmd.specs.Spelling.{Spells};
ghost use Rattle.svga_cmd.specs.declared.command.Command.{Command};
ghost use Rattle.svga_decode.specs.DecoderStates.{IsLive, IsReady, begun_words};
ghost use Rattle.svga_model.specs.Sentences.{IsSentence, SpellsSome};

use svga_cmd::CommandRef;
use svga_cmd::constants::MAX_INPUT_WORDS;
use svga_decode::{Decoder, Ending, Fed, one_answer, scan};
use svga_model::viable_words;

/// Feeds a word, and shows the command that is whole with it. Where there is none, a command goes on, or
/// the word was refused.
pub fn next_command(decoder: &mut Decoder, word: u32) -> Option<CommandRef<'_>>
    requires { IsLive decoder.old.last }
    ensures some { IsSome result ↔ SpellsSome (begun_words decoder.old ++ word ∷ []) }
    ensures command { IfSome result (λ command. Spells (command_of command)
        (begun_words decoder.old ++ word ∷ [])) }
{
    // The law says that words have one right answer, so Whole comes wherever they spell a command.
    one_answer();
    match decoder.feed(word) {
        Fed::Whole => decoder.command(),
        _ => None,
    }
}

/// How many commands the words are, where they are whole commands. Where they aren't, the decoder is inside
/// one, or refuses for good.
pub fn command_count(decoder: &mut Decoder, words: &[u32]) -> Option<u32>
    requires ready { IsReady decoder.old }
    requires few { length words.now ≤ MAX_INPUT_WORDS }
    ensures some { IfSome result (λ count. (cs : List Command)
        × IsSentence cs words.now × (count ≡ length cs)) }
    ensures ready { IsSome result → IsReady decoder.new }
    ensures none { result ≡ None → (cs : List Command) → IsSentence cs words.now → ⊥ }
{
    // The law says that the beginning of a sentence has no bad place.
    viable_words();
    let scanned = scan(decoder, words);
    match scanned.ending {
        Ending::Whole => Some(scanned.commands),
        _ => None,
    }
}
