//! The lists that acts hold.
ghost use Rattle.std.specs.Prelude.{◌≡◌, ℕ, List};

use std::marker::Model;

/// So many pages from one on.
#[derive(Clone, Copy, Debug, PartialEq, Eq)]
pub struct Run {
    pub first: u32,
    pub count: u32,
}

/// Runs of pages, in order.
#[derive(Debug, Drop)]
pub struct RunList {
    items: Vec<Run>,
}

impl Model for RunList {
    ghost use Rattle.std.specs.Prelude.{List};
    ghost use Rattle.svga_script.specs.declared.list.Run.{Run};

    ghost Value = { List Run };

    ghost view = { λ list. list.items.items };
}

impl RunList {
    /// The list of these runs.
    pub fn new(runs: Vec<Run>) -> RunList
        ensures { result ≡ runs.items }
    {
        RunList { items: runs }
    }

    /// The runs.
    pub fn runs(&self) -> &[Run]
        ensures { result.now ≡ self.now }
    {
        &self.items
    }

    /// Gives the runs back, and takes no memory.
    pub fn into_runs(self) -> Vec<Run>
        ensures { result.items ≡ self }
    {
        self.items
    }
}

/// Bytes that are written to a page.
#[derive(Debug, Drop)]
pub struct ByteList {
    items: Vec<u8>,
}

impl Model for ByteList {
    ghost Value = { List ℕ };

    ghost view = { λ list. list.items.items };
}

impl ByteList {
    /// The list of these bytes.
    pub fn new(bytes: Vec<u8>) -> ByteList
        ensures { result ≡ bytes.items }
    {
        ByteList { items: bytes }
    }

    /// The bytes.
    pub fn bytes(&self) -> &[u8]
        ensures { result.now ≡ self.now }
    {
        &self.items
    }

    /// Gives the bytes back, and takes no memory.
    pub fn into_bytes(self) -> Vec<u8>
        ensures { result.items ≡ self }
    {
        self.items
    }
}
