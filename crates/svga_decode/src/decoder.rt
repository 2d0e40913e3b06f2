//! The decoder.
ghost use Rattle.std.specs.Prelude.{◌≡◌, ◌+◌, ◌-◌, ◌<◌, ◌≤◌, ◌∷◌, ◌++◌, ◌↔◌, [], length, take, IfOk, IfSome, IsSome, IsTrue};
ghost use Rattle.svga_cmd.specs.Lent.{command_of};
ghost use Rattle.svga_cmd.specs.Spelling.{Spells};
ghost use Rattle.svga_decode.specs.Answers.{IsFedAnswer};
ghost use Rattle.svga_decode.specs.Kept.{IsKept};
ghost use Rattle.svga_decode.specs.DecoderStates.{begun_words, fresh, IsLive, IsReady, IsRefusal};
ghost use Rattle.svga_model.specs.Accepted.{IsCommandPart};

use crate::answer::Fed;
use crate::length::length_of;
use crate::parse::spelled;
use crate::refusal::word_refusal;
use std::alloc::{AllocError, Global};
use std::marker::Model;
use svga_cmd::CommandRef;
use svga_cmd::constants::MAX_COMMAND_WORDS;

/// Reads commands word by word.
///
/// Contracts see the words of the command in progress, or of the one that has just ended, and the last
/// answer.
#[derive(Debug, Drop)]
pub struct Decoder {
    buffer: Vec<u32>,
    len: usize,
    last: Fed,
}

impl Model for Decoder {
    ghost use Rattle.std.specs.Prelude.{◌≡◌, ◌≤◌, length, take};
    ghost use Rattle.svga_cmd.specs.declared.constants.TheConstants.{MAX_COMMAND_WORDS};
    ghost use Rattle.svga_decode.specs.DecoderStates.{DecoderState};
    ghost use Rattle.svga_decode.specs.Kept.{IsKept};

    ghost Value = { DecoderState };

    ghost view = { λ a. record { words = take a.len a.buffer.items; last = a.last } };

    ghost invariant = { λ a. IsKept a.last (take a.len a.buffer.items)
        × (length a.buffer.items ≡ MAX_COMMAND_WORDS) × (a.len ≤ MAX_COMMAND_WORDS) };
}

impl Decoder {
    /// A decoder that has read nothing, with room for the longest command: the only memory that it takes.
    pub fn new(alloc: Global) -> Result<Decoder, AllocError>
        ensures { IfOk result (λ decoder. decoder ≡ fresh) }
    {
        let buffer = vec![in alloc; 0; MAX_COMMAND_WORDS as usize]?;
        Ok(Decoder {
            buffer,
            len: 0,
            last: Fed::More,
        })
    }

    /// Takes the next word.
    pub fn feed(&mut self, word: u32) -> Fed
        ensures answer { IsLive self.old.last → IsFedAnswer result (begun_words self.old ++ word ∷ []) }
        ensures read { IsLive self.old.last → self.new
            ≡ record { words = begun_words self.old ++ word ∷ []; last = result } }

        // After a refusal nothing changes any more.
        ensures refused { IsRefusal self.old.last → (result ≡ self.old.last) × (self.new ≡ self.old) }
    {
        match self.last {
            Fed::More => self.append(word),
            Fed::Whole => {
                self.len = 0;
                self.last = Fed::More;
                self.append(word)
            }
            Fed::Refused { cause } => Fed::Refused { cause },
        }
    }

    /// The command, where the last answer was `Whole`. Listed entries are lent from the decoder.
    pub fn command(&self) -> Option<CommandRef<'_>>
        ensures some { IsSome result ↔ (self.now.last ≡ Fed.Whole) }
        ensures command { IfSome result (λ command. Spells (command_of command) self.now.words) }
    {
        match self.last {
            Fed::Whole => Some(spelled(&self.buffer[..self.len])),
            _ => None,
        }
    }

    /// Keeps these words in the place of those that it has, with the answer to the last of them.
    pub(crate) fn keep(&mut self, words: &[u32], last: Fed)
        requires few { length words.now ≤ MAX_COMMAND_WORDS }
        requires kept { IsKept last words.now }
        ensures { self.new ≡ record { words = words.now; last = last } }
    {
        put_front(&mut self.buffer, words);
        self.len = words.len();
        self.last = last;
    }

    fn append(&mut self, word: u32) -> Fed
        requires { self.old.last ≡ Fed.More }
        ensures answer { IsFedAnswer result (self.old.words ++ word ∷ []) }
        ensures read { self.new ≡ record { words = self.old.words ++ word ∷ []; last = result } }
    {
        let fed = next_word(&mut self.buffer, self.len, word);
        self.len += 1;
        self.last = fed;
        fed
    }
}

/// Puts the words at the front of the buffer.
fn put_front(buffer: &mut [u32], words: &[u32])
    requires { length words.now ≤ length buffer.old }
    ensures { take (length words.now) buffer.new ≡ words.now }
{
    buffer[..words.len()].copy_from_slice(words);
}

/// Puts the word behind the first `len` of the buffer, and judges it.
fn next_word(buffer: &mut [u32], len: usize, word: u32) -> Fed
    requires room { len < length buffer.old }
    requires part { IsCommandPart (take len buffer.old) }
    ensures words { take (len + 1) buffer.new ≡ take len buffer.old ++ word ∷ [] }
    ensures answer { IsFedAnswer result (take len buffer.old ++ word ∷ []) }
    ensures kept { IsKept result (take len buffer.old ++ word ∷ []) }
{
    buffer[len] = word;
    judge(&buffer[..len + 1])
}

/// Judges the last of the words. Those before it were accepted.
fn judge(words: &[u32]) -> Fed
    requires some { 0 < length words.now }
    requires part { IsCommandPart (take (length words.now - 1) words.now) }
    ensures answer { IsFedAnswer result words.now }
    ensures kept { IsKept result words.now }
{
    let last = words.len() - 1;
    match word_refusal(last, words[0], words[last]) {
        Some(cause) => Fed::Refused { cause },
        None => {
            if words.len() == length_of(words) {
                Fed::Whole
            } else {
                Fed::More
            }
        }
    }
}
