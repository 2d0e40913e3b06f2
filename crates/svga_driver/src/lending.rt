//! Which pages are lent, and which command of its lending touches each of them last.
ghost use Rattle.std.specs.FinMap as map;
ghost use Rattle.std.specs.Prelude.{◌≡◌, IfOk, IsSome, None, option_and_then, replicate};
ghost use Rattle.svga_cmd.specs.Limits.{AreLimits};
ghost use Rattle.svga_cmd.specs.Pages.{IsKey, is_key};
ghost use Rattle.svga_ring.specs.SharedTable.{page_count, slot_number};

use std::alloc::{AllocError, Global};
use std::marker::Model;
use svga_cmd::{Limits, PageKey};

/// What happened to a page since it was lent.
#[derive(Clone, Copy, Debug, PartialEq, Eq)]
pub(crate) enum Lending {
    /// No command touches it.
    Untouched,
    /// The last command that touches it has this number, and there are so many fences up to the first one
    /// behind that command, with that one.
    Touched { command: u64, fences: u64 },
}

/// A place for each page of the device: what happened to it, where it is lent.
#[derive(Drop)]
pub(crate) struct Lendings {
    limits: Limits,
    row: Vec<Option<Lending>>,
}

impl Model for Lendings {
    ghost use Rattle.std.specs.Coded.{codes};
    ghost use Rattle.std.specs.FinMap as map;
    ghost use Rattle.std.specs.Prelude.{◌≡◌, length};
    ghost use Rattle.svga_cmd.specs.Limits.{AreLimits};
    ghost use Rattle.svga_driver.specs.LendingSet.{LendingSet, commands_in, lendings_in};
    ghost use Rattle.svga_ring.specs.SharedTable.{page_count};

    ghost Value = { LendingSet };

    ghost coded = { Prim.hlevel (codes, map.code) };

    ghost view = { λ a. record {
      limits = a.limits;
      lent = lendings_in a.limits a.row.items;
      touched = commands_in a.limits a.row.items;
    } };

    ghost invariant = { λ a. AreLimits a.limits × (length a.row.items ≡ page_count a.limits) };
}

impl Lendings {
    ghost use Rattle.svga_driver.specs.LendingSet.{command_of, with_lent, with_touched, without};

    /// No page is lent. The error is want of memory.
    pub(crate) fn new(alloc: Global, limits: Limits) -> Result<Lendings, AllocError>
        requires { AreLimits limits }
        ensures { IfOk result (λ lendings. lendings
            ≡ record { limits = limits; lent = map.empty; touched = map.empty }) }
    {
        let pages = limits.pages as usize + limits.frame_pages() as usize;
        let row = no_lendings(alloc, pages)?;
        Ok(Lendings { limits, row })
    }

    /// Whether the device has a page of this key.
    pub(crate) fn is_key(&self, key: PageKey) -> bool
        ensures { result ≡ is_key self.now.limits key }
    {
        is_page(&self.limits, key)
    }

    /// What happened to a page, if it is lent.
    pub(crate) fn at(&self, key: PageKey) -> Option<Lending>
        ensures lent { result ≡ map.get self.now.lent key }
        ensures touched { map.get self.now.touched key ≡ option_and_then command_of result }
    {
        if is_page(&self.limits, key) {
            self.row[slot(&self.limits, key)]
        } else {
            None
        }
    }

    /// The page is lent.
    pub(crate) fn lend(&mut self, key: PageKey)
        requires { IsKey self.old.limits key }
        ensures { self.new ≡ with_lent self.old key }
    {
        let i = slot(&self.limits, key);
        self.row[i] = Some(Lending::Untouched);
    }

    /// The page is taken back.
    pub(crate) fn take(&mut self, key: PageKey)
        requires { IsKey self.old.limits key }
        ensures { self.new ≡ without self.old key }
    {
        let i = slot(&self.limits, key);
        self.row[i] = None;
    }

    /// A command touches the page, which is lent. With the first fence behind it there are so many.
    pub(crate) fn touch(&mut self, key: PageKey, command: u64, fences: u64)
        requires { IsSome (map.get self.old.lent key) }
        ensures { self.new ≡ with_touched self.old key command fences }
    {
        let i = slot(&self.limits, key);
        self.row[i] = Some(Lending::Touched { command, fences });
    }
}

// Whether the device has such a page.
fn is_page(limits: &Limits, key: PageKey) -> bool
    requires { AreLimits limits.now }
    ensures { result ≡ is_key limits.now key }
{
    match key {
        PageKey::Guest(p) => p < limits.pages,
        PageKey::Frame(g) => g < limits.frame_pages(),
    }
}

fn no_lendings(alloc: Global, count: usize) -> Result<Vec<Option<Lending>>, AllocError>
    ensures { IfOk result (λ row. row.items ≡ replicate count None) }
{
    let mut row = Vec::with_capacity(alloc, count)?;
    for _ in 0..count {
        row.push(None)?;
    }
    Ok(row)
}

// The place of a page: those of guest memory come first.
fn slot(limits: &Limits, key: PageKey) -> usize
    requires { IsKey limits.now key }
    ensures { result ≡ slot_number limits.now key }
{
    match key {
        PageKey::Guest(p) => p as usize,
        PageKey::Frame(g) => limits.pages as usize + g as usize,
    }
}
