//! Where words come from.
ghost use Rattle.std.specs.Prelude.{◌≡◌, ℕ, ◌+◌, ◌^◌, ◌<◌, ◌≤◌, List, drop, length, slice_index, take, IfSome, IsNone};
ghost use Rattle.svga_model.specs.Accepted.{AreWords};

use svga_cmd::constants::MAX_COMMAND_WORDS;

/// Words that commands are read from, in any form.
///
/// A source whose words stand one behind another lends them. Another has them gathered into a room.
pub trait Words {
    /// The words, in order.
    ghost words: { Self → List ℕ };

    /// How many words of room a command may want.
    ghost wanted: { ℕ };

    /// How many words there are.
    fn count(&self) -> u32
        ensures count { result ≡ length (words self.now) }
        // Whoever counts them learns that they are of 32 bits.
        ensures numbers { AreWords (words self.now) };

    /// Word number `i`.
    fn word(&self, i: u32) -> u32
        requires { i < length (words self.now) }
        ensures { result ≡ slice_index (words self.now) i };

    /// `count` words from word `first` on where they stand, or `None` where they have to be gathered.
    fn lent(&self, first: u32, count: u32) -> Option<&[u32]>
        requires { first + count ≤ length (words self.now) }
        ensures lent { IfSome result (λ list. list.now ≡ take count (drop first (words self.now))) }
        ensures room { IsNone result → MAX_COMMAND_WORDS ≤ wanted };

    /// Puts `count` words from word `first` on at the front of the room.
    fn gather(&self, first: u32, count: u32, room: &mut [u32])
        requires within { first + count ≤ length (words self.now) }
        requires room { count ≤ length room.old }
        ensures { take count room.new ≡ take count (drop first (words self.now)) };
}

/// The words of a slice. They are lent, so no room is wanted.
#[derive(Clone, Copy, Debug)]
pub struct SliceWords<'a> {
    words: &'a [u32],
    ghost few: { length words.now < 2 ^ 32 },
    ghost numbers: { AreWords words.now },
}

impl<'a> SliceWords<'a> {
    /// The words of this slice.
    pub fn new(words: &'a [u32]) -> SliceWords<'a>
        requires { length words.now < 2 ^ 32 }
        ensures { result.words.now ≡ words.now }
    {
        SliceWords { words }
    }
}

impl Words for SliceWords<'_> {
    ghost words = { λ source. source.words.now };

    ghost wanted = { 0 };

    fn count(&self) -> u32 {
        self.words.len() as u32
    }

    fn word(&self, i: u32) -> u32 {
        self.words[i as usize]
    }

    fn lent(&self, first: u32, count: u32) -> Option<&[u32]> {
        let first = first as usize;
        Some(&self.words[first..first + count as usize])
    }

    fn gather(&self, first: u32, count: u32, room: &mut [u32]) {
        let first = first as usize;
        let count = count as usize;
        room[..count].copy_from_slice(&self.words[first..first + count]);
    }
}
