//! Pages of 4,096 bytes, and the keys that tell them apart.
ghost use Rattle.std.specs.Prelude.{◌≡◌, ℕ, List, IfOk, length, replicate};
ghost use Rattle.std.specs.Borrow.{sem, Lends, Array, u8 as byte};
ghost use Rattle.svga_cmd.specs.contracts.page.Page.{the_row};

use crate::constants::PAGE_SIZE;
use std::alloc::{AllocError, Global};
use std::marker::Model;

/// A page of guest memory, or one of the guest framebuffer's.
#[derive(Clone, Copy, Debug, PartialEq, Eq)]
pub enum PageKey {
    Guest(u32),
    Frame(u32),
}

/// The bytes of a page. It lies on the heap, so that moving it moves no byte.
#[derive(Debug, Drop)]
pub struct Page {
    bytes: Box<[u8; PAGE_SIZE]>,
}

impl Model for Page {
    ghost use Rattle.std.specs.Prelude.{ℕ, List};

    ghost Value = { List ℕ };

    ghost view = { λ page. page.bytes.value };
}

impl Page {
    /// A page of zeros.
    pub fn new(alloc: Global) -> Result<Page, AllocError>
        ensures { IfOk result (λ page. page ≡ replicate PAGE_SIZE 0) }
    {
        let bytes = Box::new(alloc, [0; PAGE_SIZE])?;
        Ok(Page { bytes })
    }

    /// The bytes.
    pub fn bytes(&self) -> &[u8]
        ensures bytes { result.now ≡ self.now }
        ensures length { length result.now ≡ PAGE_SIZE }
    {
        &*self.bytes
    }

    /// The bytes, to be written.
    pub fn bytes_mut(&mut self) -> &mut [u8]
        // What is last written through the result is the page's bytes from then on.
        ensures* writes_back { sem 𝓛 (Lends the_row (Array byte 0) self.entry result (λ bytes. bytes)) }
        ensures bytes { result.now ≡ self.old }
        ensures length { length result.now ≡ PAGE_SIZE }
    {
        // Read once, so that the proof knows the length of what is lent.
        let _length = self.bytes().len();
        let bytes = &mut *self.bytes;
        bytes.as_mut_slice()
    }
}
