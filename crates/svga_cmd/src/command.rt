//! The nine commands, as a value of its own and as one that is lent.
use crate::blit::Blit;
use crate::gmrfb::Gmrfb;
use crate::remap::{EntriesRef, RemapData};
use crate::screen::ScreenDef;

/// A command of the FIFO.
#[derive(Debug, Drop)]
pub enum Command {
    Update {
        x: u32,
        y: u32,
        width: u32,
        height: u32,
    },
    Fence {
        value: u32,
    },
    DefineScreen(ScreenDef),
    DestroyScreen {
        id: u32,
    },
    DefineGmrfb(Gmrfb),
    BlitToScreen(Blit),
    BlitToGmrfb(Blit),
    DefineGmr2 {
        region: u32,
        pages: u32,
    },
    RemapGmr2 {
        region: u32,
        offset: u32,
        pages: u32,
        entries: RemapData,
    },
}

/// A command whose entries are lent by whoever read it.
#[derive(Clone, Copy, Debug)]
pub enum CommandRef<'a> {
    Update {
        x: u32,
        y: u32,
        width: u32,
        height: u32,
    },
    Fence {
        value: u32,
    },
    DefineScreen(ScreenDef),
    DestroyScreen {
        id: u32,
    },
    DefineGmrfb(Gmrfb),
    BlitToScreen(Blit),
    BlitToGmrfb(Blit),
    DefineGmr2 {
        region: u32,
        pages: u32,
    },
    RemapGmr2 {
        region: u32,
        offset: u32,
        pages: u32,
        entries: EntriesRef<'a>,
    },
}
