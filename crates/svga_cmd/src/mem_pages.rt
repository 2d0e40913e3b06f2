//! A store that has all pages of a device in memory.
ghost use Rattle.std.specs.Prelude.{◌≡◌, ℕ, List, Some, IfOk, IsSome, replicate};
ghost use Rattle.std.specs.FinMap as map;
ghost use Rattle.svga_cmd.specs.Limits.{AreLimits};
ghost use Rattle.svga_cmd.specs.Pages.{HasPage, IsZeroMemoryOf, Memory, page_at};
ghost use Rattle.svga_cmd.specs.Slots.{slot_of};
ghost use Rattle.svga_cmd.specs.declared.page.PageKey.{PageKey};

use crate::constants::PAGE_SIZE;
use crate::limits::Limits;
use crate::page::{Page, PageKey};
use crate::store::PageStore;
use std::alloc::{AllocError, Global};
use std::marker::Model;

/// All pages of a device in one row, those of guest memory first.
#[derive(Debug, Drop)]
pub struct MemPages {
    guest: u32,
    pages: Vec<Page>,
}

impl Model for MemPages {
    ghost use Rattle.std.specs.Coded.{coded_ℕ, coded_list};
    ghost use Rattle.std.specs.FinMap as map;
    ghost use Rattle.svga_cmd.specs.contracts.page.PageKey as key;
    ghost use Rattle.svga_cmd.specs.Pages.{Memory};
    ghost use Rattle.svga_cmd.specs.Slots.{memory_of};

    ghost Value = { Memory };

    ghost coded = { map.code key.the_row.coded (coded_list coded_ℕ) };

    ghost view = { λ store. memory_of store.guest store.pages.items };
}

impl MemPages {
    /// All pages of the device, each of them zeros. The error is want of memory.
    pub fn new(alloc: Global, limits: Limits) -> Result<MemPages, AllocError>
        requires { AreLimits limits }
        ensures { IfOk result (IsZeroMemoryOf limits) }
    {
        let count = limits.pages as usize + limits.frame_pages() as usize;
        let pages = zero_pages(alloc, count)?;
        Ok(MemPages {
            guest: limits.pages,
            pages,
        })
    }
}

impl PageStore for MemPages {
    type Rest = ();

    ghost use Rattle.std.specs.Prelude.{refl};

    ghost pages = { λ store. store };

    ghost rest = { λ _. tt };

    ghost with_page = { λ store key bytes. map.insert store key bytes };

    ghost pages_with = { λ store key bytes present. refl };

    ghost rest_with = { λ store key bytes. refl };

    fn page(&self, key: PageKey) -> &Page {
        let i = slot(self.guest, key);
        &self.pages[i]
    }

    fn page_mut(&mut self, key: PageKey) -> &mut Page {
        let i = slot(self.guest, key);
        &mut self.pages[i]
    }
}

fn zero_pages(alloc: Global, count: usize) -> Result<Vec<Page>, AllocError>
    ensures { IfOk result (λ pages. pages.items ≡ replicate count (replicate PAGE_SIZE 0)) }
{
    let mut pages = Vec::with_capacity(alloc, count)?;
    for _ in 0..count {
        pages.push(Page::new(alloc)?)?;
    }
    Ok(pages)
}

fn slot(guest: u32, key: PageKey) -> usize
    requires { IsSome (slot_of guest key) }
    ensures { slot_of guest key ≡ Some result }
{
    match key {
        PageKey::Guest(p) => p as usize,
        PageKey::Frame(g) => guest as usize + g as usize,
    }
}
