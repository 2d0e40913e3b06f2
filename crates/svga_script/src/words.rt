//! The words of a line, from left to right.
ghost use Rattle.std.specs.Prelude.{◌≡◌, ◌≢◌, ℕ, ◌<◌, ◌≤◌, ◌+◌, ◌∷◌, [], length, slice_index, MatchOption};
ghost use Rattle.svga_cmd.specs.declared.script_cause.ScriptCause.TheVariants.{Missing};
ghost use Rattle.svga_model.specs.ScriptLines.{first_broken, flaw_at};
ghost use Rattle.svga_script.specs.Faults.{IsJudged, flaw_of};
ghost use Rattle.svga_script.specs.Left.{words_left};
ghost use Rattle.svga_script.specs.Taken.{IsNext, word_of};

use crate::fault::LineFault;
use svga_cmd::ScriptCause;
use svga_cmd::constants::MAX_INPUT_BYTES;

/// A word of a line: its column, its letters, and where the next one begins.
#[derive(Clone, Copy)]
pub(crate) struct Taken<'a> {
    pub(crate) column: u32,
    pub(crate) letters: &'a [u8],
    pub(crate) next: usize,
}

impl Taken<'_> {
    /// That this is wrong with the word.
    pub(crate) fn wrong(&self, cause: ScriptCause) -> LineFault
        ensures { flaw_of result ≡ flaw_at self.now.column cause }
    {
        LineFault {
            column: self.column,
            cause,
        }
    }
}

/// The word that begins at an offset, if the line doesn't end before it.
pub(crate) fn word_at(line: &[u8], at: usize) -> Option<Taken<'_>>
    requires { length line.now ≤ MAX_INPUT_BYTES }
    ensures { MatchOption
        result (words_left line.now at ≡ [])
        (λ w. words_left line.now at ≡ word_of w ∷ words_left line.now w.next) }
{
    if at > line.len() {
        return None;
    }
    let end = word_end(line, at);
    Some(Taken {
        column: at as u32 + 1,
        letters: &line[at..end],
        next: end + 1,
    })
}

/// Where the word that begins at an offset ends.
fn word_end(line: &[u8], at: usize) -> usize
    requires { at ≤ length line.now }
    ensures low { at ≤ result }
    ensures high { result ≤ length line.now }
    ensures letters { (k : ℕ) → at ≤ k → k < result → slice_index line.now k ≢ 32 }
    ensures space { result < length line.now → slice_index line.now result ≡ 32 }
{
    for i in at..line.len() {
        if line[i] == b' ' {
            return i;
        }
    }
    line.len()
}

/// The word at `at`, which is then where the next one begins.
pub(crate) fn take_word<'a>(line: &'a [u8], at: &mut usize) -> Result<Taken<'a>, LineFault>
    requires { length line.now ≤ MAX_INPUT_BYTES }
    ensures { IsNext (length line.now + 1) (words_left line.now at.old) result (words_left line.now at.new) }
{
    match word_at(line, *at) {
        None => Err(missing(line)),
        Some(word) => {
            *at = word.next;
            Ok(word)
        }
    }
}

/// No word stands at an offset.
pub(crate) fn end(line: &[u8], at: usize) -> Result<(), LineFault>
    requires { length line.now ≤ MAX_INPUT_BYTES }
    ensures { IsJudged (first_broken (length line.now + 1) [] (words_left line.now at)) tt result }
{
    match word_at(line, at) {
        None => Ok(()),
        Some(word) => Err(word.wrong(ScriptCause::Extra)),
    }
}

/// That the line ends too early.
pub(crate) fn missing(line: &[u8]) -> LineFault
    requires { length line.now ≤ MAX_INPUT_BYTES }
    ensures { flaw_of result ≡ flaw_at (length line.now + 1) Missing }
{
    LineFault {
        column: line.len() as u32 + 1,
        cause: ScriptCause::Missing,
    }
}
