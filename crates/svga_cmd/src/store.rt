//! Where pages are read and written.
ghost use Rattle.std.specs.Prelude.{◌≡◌, ℕ, List, Some};
ghost use Rattle.std.specs.Borrow.{sem, Lends};
ghost use Rattle.std.specs.FinMap as map;
ghost use Rattle.svga_cmd.specs.Pages.{HasPage, Memory, page_at};
ghost use Rattle.svga_cmd.specs.contracts.page.Page.{the_row};
ghost use Rattle.svga_cmd.specs.declared.page.PageKey.{PageKey};

use crate::page::{Page, PageKey};

/// Pages by their keys. Which keys there are stays as it is.
pub trait PageStore {
    /// What a store is beside its pages, as far as contracts see it.
    type Rest;

    /// The pages.
    ghost pages: { Self → Memory };

    /// All else.
    ghost rest: { Self → Self.Rest };

    /// The store with other bytes in one page.
    ghost with_page: { Self → PageKey → List ℕ → Self };

    /// The page of a key.
    fn page(&self, key: PageKey) -> &Page
        requires { HasPage (pages self.now) key }
        ensures { page_at (pages self.now) key ≡ Some result.now };

    /// The page of a key, to be written.
    fn page_mut(&mut self, key: PageKey) -> &mut Page
        requires { HasPage (pages self.old) key }

        // What is last written through the result is this page's bytes from then on.
        ensures* writes_back { sem 𝓛 (Lends Self.row the_row
            self.entry result (with_page self.old key)) }
        ensures page { page_at (pages self.old) key ≡ Some result.now };

    /// Writing changes that page alone.
    ghost pages_with: { (s : Self) (key : PageKey) (bytes : List ℕ) →
        HasPage (pages s) key → pages (with_page s key bytes) ≡ map.insert (pages s) key bytes };

    /// Writing keeps the rest.
    ghost rest_with: { (s : Self) (key : PageKey) (bytes : List ℕ) →
        rest (with_page s key bytes) ≡ rest s };
}
