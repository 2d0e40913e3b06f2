//! Where the fields of a capture stand, in bytes from its first on, and how many bytes its parts have.

use crate::constants::{
    SVGA_FIFO_FENCE, SVGA_FIFO_MAX, SVGA_FIFO_MIN, SVGA_FIFO_NEXT_CMD, SVGA_FIFO_STOP,
};

/// The bytes of a word.
pub const WORD_SIZE: u32 = 4;

/// The letters SVGF.
pub const LETTERS_AT: u32 = 0;
/// The version.
pub const VERSION_AT: u32 = 4;
/// MAX, where the ring ends.
pub const MAX_AT: u32 = 8;
/// How many pages of guest memory there are.
pub const GUEST_PAGES_AT: u32 = 12;
/// The width of the guest framebuffer.
pub const FRAME_WIDTH_AT: u32 = 16;
/// The height of the guest framebuffer.
pub const FRAME_HEIGHT_AT: u32 = 20;
/// How many pixels all screens together may have.
pub const BUDGET_AT: u32 = 24;
/// How many regions have records.
pub const REGION_COUNT_AT: u32 = 28;
/// How many pages have records.
pub const PAGE_COUNT_AT: u32 = 32;

/// The FIFO's memory, of MAX bytes.
pub const FIFO_AT: u32 = 36;
/// The bytes of the four words with which it begins, which say the ring.
pub const RING_WORDS_SIZE: u32 = 16;
/// MIN, where the ring begins.
pub const MIN_AT: u32 = FIFO_AT + WORD_SIZE * SVGA_FIFO_MIN;
/// MAX again.
pub const FIFO_MAX_AT: u32 = FIFO_AT + WORD_SIZE * SVGA_FIFO_MAX;
/// NEXT_CMD, behind the last word that waits.
pub const NEXT_CMD_AT: u32 = FIFO_AT + WORD_SIZE * SVGA_FIFO_NEXT_CMD;
/// STOP, the first word that waits.
pub const STOP_AT: u32 = FIFO_AT + WORD_SIZE * SVGA_FIFO_STOP;
/// What follows these four words.
pub const FIFO_REST_AT: u32 = FIFO_AT + RING_WORDS_SIZE;
/// The offset of the fence in the FIFO's memory; it is the fence where MIN is above it.
pub const FENCE_OFFSET: u32 = WORD_SIZE * SVGA_FIFO_FENCE;

/// The offset of the count in a region's record.
pub const COUNT_OFFSET: u32 = 4;
/// The offset of the places in a region's record.
pub const PLACES_OFFSET: u32 = 8;

/// The offset of the page in a page's record.
pub const PAGE_OFFSET: u32 = 4;
