//! The words of a remap that lists its pages.
ghost use Rattle.std.specs.Prelude.{◌≡◌, ℕ, List};

use std::marker::Model;

/// The words of a listed remap, in order: page numbers of 32 bits, or low and high words in turn.
#[derive(Debug, Drop)]
pub struct PageList {
    numbers: Vec<u32>,
}

impl Model for PageList {
    ghost Value = { List ℕ };

    ghost view = { λ list. list.numbers.items };
}

impl PageList {
    /// The list of these words.
    pub fn new(words: Vec<u32>) -> PageList
        ensures { result ≡ words.items }
    {
        PageList { numbers: words }
    }

    /// Gives the words back, and takes no memory.
    pub fn into_words(self) -> Vec<u32>
        ensures { result.items ≡ self }
    {
        self.numbers
    }

    /// The words.
    pub fn words(&self) -> &[u32]
        ensures { result.now ≡ self.now }
    {
        &self.numbers
    }
}
