//! The command that begins at a word.
ghost use Rattle.std.specs.Prelude.{◌≡◌, ◌+◌, ◌-◌, ◌<◌, ◌≤◌, drop, length, slice_index, IfNone, IfSome};
ghost use Rattle.svga_decode.specs.Nexts.{AreFirstAccepted, IsNext, IsRefusedIn};
ghost use Rattle.svga_model.specs.Lengths.{whole_length};

use crate::length::length_of;
use crate::refusal::word_refusal;
use crate::words::Words;
use svga_cmd::Cause;

/// What begins at a word between two commands.
#[derive(Clone, Copy, Debug, PartialEq, Eq)]
pub(crate) enum Next {
    /// A whole command, up to word `end`.
    Whole { end: u32 },
    /// A command that doesn't go on with word `word`, or nothing that could be one.
    Refused { word: u32, cause: Cause },
    /// A command in which the words end.
    Torn,
}

/// Looks at what begins at word `first`.
pub(crate) fn next_command<W: Words>(words: &W, first: u32) -> Next
    requires { first < length (W.words words.now) }
    ensures { IsNext result (W.words words.now) first }
{
    let left = words.count() - first;
    // No word behind these is refused.
    match first_refused(words, first, first + left.min(5)) {
        Some((word, cause)) => Next::Refused { word, cause },
        None => {
            let length = length_at(words, first, left);
            if length <= left as usize {
                Next::Whole {
                    end: first + length as u32,
                }
            } else {
                Next::Torn
            }
        }
    }
}

/// The first word up to word `end` with which the command that begins at word `first` doesn't go on.
fn first_refused<W: Words>(words: &W, first: u32, end: u32) -> Option<(u32, Cause)>
    requires some { first < end }
    requires within { end ≤ length (W.words words.now) }
    ensures none { IfNone result (AreFirstAccepted (end - first) (drop first (W.words words.now))) }
    ensures word { IfSome result (λ refused. (first ≤ refused.0) × (refused.0 < end)) }
    ensures before { IfSome result (λ refused.
        AreFirstAccepted (refused.0 - first) (drop first (W.words words.now))) }
    ensures cause { IfSome result (λ refused. IsRefusedIn refused.0 refused.1 first (W.words words.now)) }
{
    let id = words.word(first);
    for i in first..end {
        if let Some(cause) = word_refusal((i - first) as usize, id, words.word(i)) {
            return Some((i, cause));
        }
    }
    None
}

/// The length of the command that begins at word `first`, of which `left` words are there.
fn length_at<W: Words>(words: &W, first: u32, left: u32) -> usize
    requires some { 0 < left }
    requires left { first + left ≡ length (W.words words.now) }
    ensures { result ≡ whole_length (drop first (W.words words.now)) }
{
    // It is told by the first five words.
    match words.lent(first, left.min(5)) {
        Some(head) => length_of(head),
        None => length_of(&[
            words.word(first),
            word_or_zero(words, first, 1),
            word_or_zero(words, first, 2),
            word_or_zero(words, first, 3),
            word_or_zero(words, first, 4),
        ]),
    }
}

/// Word `i` from word `first` on, or 0 past the end.
fn word_or_zero<W: Words>(words: &W, first: u32, i: u32) -> u32
    requires { first < length (W.words words.now) }
    ensures { result ≡ slice_index (drop first (W.words words.now)) i }
{
    if i < words.count() - first {
        words.word(first + i)
    } else {
        0
    }
}
