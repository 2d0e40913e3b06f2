//! What a client asks for, one act a line.
use crate::list::{ByteList, RunList};
use svga_cmd::{Blit, Gmrfb, PageKey};

/// An act of a client.
#[derive(Debug, Drop)]
pub enum ClientAct {
    /// A screen without a backing: its id, its sides and its corner.
    Screen {
        id: u32,
        width: u32,
        height: u32,
        x: i32,
        y: i32,
    },
    Destroy {
        id: u32,
    },
    Region {
        id: u32,
        pages: u32,
    },
    /// The places of a region from `offset` on are mapped to the runs' pages, in order.
    Map {
        id: u32,
        offset: u32,
        runs: RunList,
    },
    /// So many of its places are all mapped to one page.
    Same {
        id: u32,
        offset: u32,
        count: u32,
        page: u32,
    },
    Gmrfb(Gmrfb),
    Blit(Blit),
    Back(Blit),
    Update {
        x: u32,
        y: u32,
        width: u32,
        height: u32,
    },
    /// The next fence.
    Fence,
    /// The bytes of a page from `offset` on.
    Write {
        key: PageKey,
        offset: u32,
        bytes: ByteList,
    },
    /// One byte all over a page.
    Fill {
        key: PageKey,
        byte: u8,
    },
    /// So many pages from the first on, each lent by itself, ascending.
    Lend {
        first: PageKey,
        count: u32,
    },
    /// So many pages from the first on, each taken back by itself, ascending.
    Take {
        first: PageKey,
        count: u32,
    },
    Show {
        key: PageKey,
    },
    /// The region becomes the list that a chain of descriptors gives, from its first page on. Page 0 ends it.
    Describe {
        id: u32,
        page: u32,
    },
}
