//! The words and slots of pages in the shared table.
ghost use Rattle.std.specs.Prelude.{◌≡◌, ◌↔◌, ◌<◌, All, IsTrue};
ghost use Rattle.svga_cmd.specs.Pages.{IsKey, IsPage};
ghost use Rattle.svga_ring.specs.SharedTable.{page_word as word_of, slot_number as slot_of};

use crate::table_words::FIRST_PAGE;
use svga_cmd::{Page, PageKey, Session};

/// Whether the session's device has a page of this key.
pub(crate) fn is_key_of(session: &Session, key: PageKey) -> bool
    ensures { IsTrue result ↔ IsKey session.now.limits key }
{
    match key {
        PageKey::Guest(p) => p < session.limits.pages,
        PageKey::Frame(g) => g < session.limits.frame_pages(),
    }
}

/// The number of a page's slot.
pub(crate) fn slot_number(session: &Session, key: PageKey) -> usize
    ensures { result ≡ slot_of session.now.limits key }
{
    match key {
        PageKey::Guest(p) => p as usize,
        PageKey::Frame(g) => session.limits.pages as usize + g as usize,
    }
}

/// The number of the word that says where a page is.
pub(crate) fn page_word(session: &Session, key: PageKey) -> usize
    ensures { result ≡ word_of session.now.limits key }
{
    FIRST_PAGE + slot_number(session, key)
}

/// A page's bytes are bytes. It does nothing.
pub(crate) fn look(page: &Page)
    ensures { IsPage page.now }
{
    are_bytes(page.bytes());
}

// The type of a slice that is used tells it of each item.
fn are_bytes(bytes: &[u8])
    ensures { All (λ byte. byte < 256) bytes.now }
{
    let _length = bytes.len();
}
