//! Captures, and how they are read.
ghost use Rattle.std.specs.Prelude.{IfOk, ◌≡◌, ℕ, ◌+◌, ◌<◌, ◌≤◌, List, None, Ok, length, slice_index};
ghost use Rattle.svga_capture.specs.Answers.{IsAnswer};
ghost use Rattle.svga_machine.specs.Displays.{IsWholeState};
ghost use Rattle.svga_machine.specs.MachineSet.{state_with};
ghost use Rattle.svga_model.specs.Accepted.{AreWords};
ghost use Rattle.svga_model.specs.Captures.{capture_of, waiting_words};

use crate::fault::CaptureFault;
use crate::field::word;
use crate::fields::{Fields, read_fields};
use crate::opening::opening_of;
use std::alloc::{AllocError, Global};
use std::marker::Model;
use svga_cmd::MemPages;
use svga_cmd::capture_layout::FIFO_AT;
use svga_cmd::constants::MAX_INPUT_BYTES;
use svga_decode::Words;
use svga_machine::Machine;

/// A capture that was read: what its fields say, and the bytes, in which the words, places and pages stand.
#[derive(Drop)]
pub struct Capture<'a> {
    bytes: &'a [u8],
    fields: Fields,
}

impl<'a> Model for Capture<'a> {
    ghost use Rattle.svga_capture.specs.Fields.{AreFields};
    ghost use Rattle.svga_capture.specs.Held.{coded_capture};
    ghost use Rattle.svga_model.specs.Captures.{Capture as Held, held};

    ghost Value = { Held };

    ghost coded = { coded_capture };

    ghost view = { λ c. held c.bytes.now };

    ghost invariant = { λ c. AreFields c.bytes.now c.fields };
}

/// Reads a capture: what the bytes hold, or the first field that is wrong, or where bytes follow the last.
/// The answer is never `Memory`: a capture borrows its bytes.
pub fn read_capture(bytes: &[u8]) -> Result<Capture<'_>, CaptureFault>
    requires { length bytes.now ≤ MAX_INPUT_BYTES }
    ensures { IsAnswer (capture_of bytes.now) result }
{
    match read_fields(bytes) {
        Ok(fields) => Ok(Capture { bytes, fields }),
        Err((place, cause)) => Err(CaptureFault::Byte { place, cause }),
    }
}

/// The words that wait are of 32 bits, since a slice's bytes are of 8.
fn words_fit(bytes: &[u8])
    ensures { AreWords (waiting_words bytes.now) }
{}

impl<'a> Capture<'a> {
    /// A machine and pages in the state before the words.
    pub fn opening(&self, alloc: Global) -> Result<(Machine, MemPages), AllocError>
        ensures opened { IfOk result (λ opened. state_with opened.0 opened.1 ≡ self.now.opening) }
        ensures whole { IfOk result (λ opened. IsWholeState self.now.limits (state_with opened.0 opened.1)) }
        // Whoever opens it learns that its words are of 32 bits.
        ensures numbers { IfOk result (λ _. AreWords self.now.words) }
        // No chain is begun on the machine.
        ensures chain { IfOk result (λ opened. opened.0.chain ≡ None) }
    {
        opening_of(alloc, self.bytes, &self.fields)
    }

    /// How many words wait from STOP to NEXT_CMD.
    pub fn word_count(&self) -> u32
        ensures count { result ≡ length self.now.words }
        ensures numbers { AreWords self.now.words }
        // Whoever asks for the words learns that they are those of a capture.
        ensures held { (bytes : List ℕ) × (capture_of bytes ≡ Ok self.now) }
    {
        words_fit(self.bytes);
        self.fields.ring.word_count()
    }

    /// Word `i` of them, round the ring.
    pub fn word(&self, i: u32) -> u32
        requires { i < length self.now.words }
        ensures { result ≡ slice_index self.now.words i }
    {
        word(self.bytes, FIFO_AT + self.fields.ring.offset(i))
    }

    /// The fence before the words.
    pub fn fence(&self) -> u32
        ensures { result ≡ self.now.opening.kept.fence }
    {
        self.fields.fence
    }

    /// How many pixels all screens may have.
    pub fn budget(&self) -> u32
        ensures { result ≡ self.now.limits.budget }
    {
        self.fields.limits.budget
    }
}

/// The words that wait, read where they stand. They may go round the ring, so a command's are gathered.
impl Words for Capture<'_> {
    ghost use Rattle.svga_cmd.specs.declared.constants.TheConstants.{MAX_COMMAND_WORDS};

    ghost words = { λ capture. capture.words };

    ghost wanted = { MAX_COMMAND_WORDS };

    fn count(&self) -> u32 {
        self.word_count()
    }

    fn word(&self, i: u32) -> u32 {
        Capture::word(self, i)
    }

    fn lent(&self, _first: u32, _count: u32) -> Option<&[u32]> {
        None
    }

    fn gather(&self, first: u32, count: u32, room: &mut [u32]) {
        // Its contract says that the words are fewer than 2^32, so that their numbers are of 32 bits.
        let _ = self.word_count();
        for k in 0..count {
            room[k as usize] = Capture::word(self, first + k);
        }
    }
}
