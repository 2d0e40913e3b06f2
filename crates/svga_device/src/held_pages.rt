//! The pages that are held for a command, in a list with room for all of them.
ghost use Rattle.std.specs.Option.{option_to_list};
ghost use Rattle.std.specs.Prelude.{◌≡◌, ◌↔◌, ◌<◌, ◌++◌, ◌∷◌, [], length, IfOk, IsSome};
ghost use Rattle.svga_cmd.specs.declared.constants.TheConstants.{MAX_PLACES};

use std::alloc::{AllocError, Global};
use std::marker::Model;
use svga_cmd::PageKey;
use svga_cmd::constants::MAX_PLACES;

/// A list of pages, with room for those of the longest region.
#[derive(Drop)]
pub(crate) struct HeldPages {
    keys: Vec<PageKey>,
}

impl Model for HeldPages {
    ghost use Rattle.std.specs.Prelude.{List, ◌≤◌, vec_capacity};
    ghost use Rattle.svga_cmd.specs.declared.constants.TheConstants.{MAX_PLACES};
    ghost use Rattle.svga_cmd.specs.declared.page.PageKey.{PageKey};

    ghost Value = { List PageKey };

    ghost view = { λ held. held.keys.items };

    ghost invariant = { λ held. MAX_PLACES ≤ vec_capacity held.keys };
}

impl HeldPages {
    /// No page yet, with all the memory that the other calls need.
    pub(crate) fn new(alloc: Global) -> Result<HeldPages, AllocError>
        ensures { IfOk result (λ held. held ≡ []) }
    {
        Ok(HeldPages {
            keys: Vec::with_capacity(alloc, MAX_PLACES as usize)?,
        })
    }

    /// How many they are.
    pub(crate) fn len(&self) -> usize
        ensures { result ≡ length self.now }
    {
        self.keys.len()
    }

    /// One more.
    pub(crate) fn push(&mut self, key: PageKey)
        requires { length self.old < MAX_PLACES }
        ensures { self.new ≡ self.old ++ key ∷ [] }
    {
        self.keys.push(key).unwrap();
    }

    /// Takes the last one out.
    pub(crate) fn pop(&mut self) -> Option<PageKey>
        ensures last { self.old ≡ self.new ++ option_to_list result }
        ensures some { IsSome result ↔ (0 < length self.old) }
    {
        self.keys.pop()
    }
}
