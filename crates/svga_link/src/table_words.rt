//! The numbers of the shared table's words.
use svga_cmd::constants::{
    MAX_RING_END, SVGA_FIFO_FENCE, SVGA_FIFO_NEXT_CMD, SVGA_FIFO_RESERVED, SVGA_FIFO_STOP,
};

pub(crate) const NEXT_COMMAND: usize = SVGA_FIFO_NEXT_CMD as usize;

pub(crate) const STOP: usize = SVGA_FIFO_STOP as usize;

pub(crate) const FENCE: usize = SVGA_FIFO_FENCE as usize;

pub(crate) const RESERVED: usize = SVGA_FIFO_RESERVED as usize;

/// CONFIG_DONE, behind the dwords of the FIFO.
pub(crate) const CONFIG: usize = MAX_RING_END as usize / 4;

pub(crate) const REQUEST: usize = CONFIG + 1;

pub(crate) const REPLY: usize = CONFIG + 2;

/// The word of the first page.
pub(crate) const FIRST_PAGE: usize = CONFIG + 3;

/// CAPABILITIES of a device that knows reservations, and of one that doesn't; this project's own values.
pub(crate) const CAPABILITIES_BY_RESERVE: u64 = 449;

pub(crate) const CAPABILITIES_BY_DWORD: u64 = 385;
