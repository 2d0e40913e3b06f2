//! The field's numbers by their names. Those that begin with `SVGA_` are the published header's,
//! svga_reg.h; the others are this project's own.

/// The command UPDATE, of svga_reg.h: a rectangle of the guest framebuffer is shown.
pub const SVGA_CMD_UPDATE: u32 = 1;
/// The command RECT_COPY, of svga_reg.h; refused.
pub const SVGA_CMD_RECT_COPY: u32 = 3;
/// The command DEFINE_CURSOR, of svga_reg.h; refused.
pub const SVGA_CMD_DEFINE_CURSOR: u32 = 19;
/// The command DEFINE_ALPHA_CURSOR, of svga_reg.h; refused.
pub const SVGA_CMD_DEFINE_ALPHA_CURSOR: u32 = 22;
/// The command UPDATE_VERBOSE, of svga_reg.h; refused.
pub const SVGA_CMD_UPDATE_VERBOSE: u32 = 25;
/// The command FRONT_ROP_FILL, of svga_reg.h; refused.
pub const SVGA_CMD_FRONT_ROP_FILL: u32 = 29;
/// The command FENCE, of svga_reg.h: its number is told once the commands before it are done.
pub const SVGA_CMD_FENCE: u32 = 30;
/// The command ESCAPE, of svga_reg.h; refused.
pub const SVGA_CMD_ESCAPE: u32 = 33;
/// The command DEFINE_SCREEN, of svga_reg.h.
pub const SVGA_CMD_DEFINE_SCREEN: u32 = 34;
/// The command DESTROY_SCREEN, of svga_reg.h.
pub const SVGA_CMD_DESTROY_SCREEN: u32 = 35;
/// The command DEFINE_GMRFB, of svga_reg.h.
pub const SVGA_CMD_DEFINE_GMRFB: u32 = 36;
/// The command BLIT_GMRFB_TO_SCREEN, of svga_reg.h.
pub const SVGA_CMD_BLIT_GMRFB_TO_SCREEN: u32 = 37;
/// The command BLIT_SCREEN_TO_GMRFB, of svga_reg.h.
pub const SVGA_CMD_BLIT_SCREEN_TO_GMRFB: u32 = 38;
/// The command ANNOTATION_FILL, of svga_reg.h; refused.
pub const SVGA_CMD_ANNOTATION_FILL: u32 = 39;
/// The command ANNOTATION_COPY, of svga_reg.h; refused.
pub const SVGA_CMD_ANNOTATION_COPY: u32 = 40;
/// The command DEFINE_GMR2, of svga_reg.h.
pub const SVGA_CMD_DEFINE_GMR2: u32 = 41;
/// The command REMAP_GMR2, of svga_reg.h.
pub const SVGA_CMD_REMAP_GMR2: u32 = 42;

/// The least id that is refused as a command of 3D; this project's.
pub const FIRST_3D_ID: u32 = 1000;
/// The greatest id that is refused as a command of 3D; this project's.
pub const LAST_3D_ID: u32 = 2999;

/// In place of a screen's id, of svga_reg.h: the coordinates are virtual, and all screens are meant.
pub const SVGA_ID_INVALID: u32 = 0xFFFF_FFFF;
/// In place of a GMRFB's region, of svga_reg.h: there is no GMRFB any more.
pub const SVGA_GMR_NULL: u32 = 0xFFFF_FFFF;
/// The region that is always the whole guest framebuffer, of svga_reg.h.
pub const SVGA_GMR_FRAMEBUFFER: u32 = 0xFFFF_FFFE;

/// The flag word of a remap whose entries are numbers of 32 bits, of svga_reg.h: no bit is set.
pub const SVGA_REMAP_GMR2_PPN32: u32 = 0;
/// The flag of a remap whose entries stand in a region, of svga_reg.h.
pub const SVGA_REMAP_GMR2_VIA_GMR: u32 = 1;
/// The flag of a remap whose entries are numbers of 64 bits, of svga_reg.h.
pub const SVGA_REMAP_GMR2_PPN64: u32 = 2;
/// The flag of a remap with one entry for all its pages, of svga_reg.h.
pub const SVGA_REMAP_GMR2_SINGLE_PPN: u32 = 4;

/// The FIFO register MIN, of svga_reg.h: the byte at which the ring begins.
pub const SVGA_FIFO_MIN: u32 = 0;
/// The FIFO register MAX, of svga_reg.h: the byte at which the ring ends.
pub const SVGA_FIFO_MAX: u32 = 1;
/// The FIFO register NEXT_CMD, of svga_reg.h: where the driver writes next.
pub const SVGA_FIFO_NEXT_CMD: u32 = 2;
/// The FIFO register STOP, of svga_reg.h: where the device reads next.
pub const SVGA_FIFO_STOP: u32 = 3;
/// The FIFO register CAPABILITIES, of svga_reg.h.
pub const SVGA_FIFO_CAPABILITIES: u32 = 4;
/// The FIFO register FLAGS, of svga_reg.h.
pub const SVGA_FIFO_FLAGS: u32 = 5;
/// The FIFO register FENCE, of svga_reg.h: the last fence that the device passed.
pub const SVGA_FIFO_FENCE: u32 = 6;
/// The FIFO register RESERVED, of svga_reg.h: how many bytes the driver has reserved.
pub const SVGA_FIFO_RESERVED: u32 = 14;
/// The FIFO register FENCE_GOAL, of svga_reg.h.
pub const SVGA_FIFO_FENCE_GOAL: u32 = 289;
/// The FIFO register BUSY, of svga_reg.h.
pub const SVGA_FIFO_BUSY: u32 = 290;
/// How many FIFO registers there are, of svga_reg.h.
pub const SVGA_FIFO_NUM_REGS: u32 = 291;

/// The word of `Format::Bgrx32`; this project's layout: bits per pixel in the
/// lowest byte, colour depth in the next.
pub const BGRX32_WORD: u32 = 0x1820;
/// The word of `Format::Bgr24`; this project's layout.
pub const BGR24_WORD: u32 = 0x1818;
/// The word of `Format::Rgb565`; this project's layout.
pub const RGB565_WORD: u32 = 0x1010;
/// The word of `Format::Rgb555`; this project's layout.
pub const RGB555_WORD: u32 = 0x0F10;

/// The bytes of a screen's structure without a backing, as DEFINE_SCREEN gives them; this project's.
pub const SCREEN_SIZE: u32 = 28;
/// The bytes of a screen's structure with a backing; this project's.
pub const BACKED_SCREEN_SIZE: u32 = 44;

/// The bytes of a page; this project's.
pub const PAGE_SIZE: usize = 4096;

/// How many bytes an input may have; this project's.
pub const MAX_INPUT_BYTES: usize = 134_217_728;
/// How many words an input may have, at 4 bytes a word; this project's.
pub const MAX_INPUT_WORDS: usize = 33_554_432;

/// The most pages of guest memory; this project's.
pub const MAX_GUEST_PAGES: u32 = 16_384;
/// The greatest width of the guest framebuffer, in pixels; this project's.
pub const MAX_FRAME_WIDTH: u32 = 4096;
/// The greatest height of the guest framebuffer, in pixels; this project's.
pub const MAX_FRAME_HEIGHT: u32 = 2048;
/// The most pages of the guest framebuffer, at its greatest sides; this project's.
pub const MAX_FRAME_PAGES: u32 = 8192;

/// The greatest id of a region that commands may define; this project's.
pub const MAX_REGION_ID: u32 = 4095;
/// How many ids of regions there are, from 0; this project's.
pub const REGION_IDS: usize = 4096;
/// The most places of all regions but the framebuffer's; this project's.
pub const MAX_PLACES: u32 = 65_536;
/// The most pages of one remap; this project's.
pub const MAX_REMAP_PAGES: u32 = 65_536;
/// The most words that the entries of a remap take: two for each page; this project's.
pub const MAX_ENTRY_WORDS: u32 = 131_072;
/// The words of the longest command, a remap of the most pages by numbers of 64 bits; this project's.
pub const MAX_COMMAND_WORDS: u32 = 131_077;

/// How many ids of screens there are, from 0; this project's.
pub const SCREEN_IDS: usize = 16;
/// The greatest id of a screen; this project's.
pub const MAX_SCREEN_ID: u32 = 15;
/// The greatest width and height of a screen, in pixels; this project's.
pub const MAX_SCREEN_SIDE: u32 = 8192;
/// The most pixels of all screens together; this project's.
pub const MAX_PIXEL_BUDGET: u32 = 33_554_432;
/// How many colours there are: one for each number of 24 bits; this project's.
pub const COLOURS: u32 = 16_777_216;

/// The most descriptors that are read of one chain; this project's.
pub const MAX_DESCRIPTORS: usize = 4096;
/// The number of the last descriptor of a table page; this project's.
pub const LAST_PAIR: usize = 511;
/// How many descriptors a table page holds, at 8 bytes each; this project's.
pub const TABLE_PAIRS: usize = 512;

/// The byte at which the ring of a session begins, behind the FIFO's registers; this project's.
pub const RING_START: u32 = 1164;
/// The least byte at which the ring of a session may end; this project's.
pub const MIN_RING_END: u32 = 11_404;
/// The greatest byte at which the ring of a session may end; this project's.
pub const MAX_RING_END: u32 = 262_144;
/// The least first fence of a session; this project's.
pub const MIN_FIRST_FENCE: u32 = 1;
/// The greatest fence; this project's.
pub const MAX_FENCE: u32 = 0xFFFF_FFFF;
/// How many fences may be emitted and not seen; this project's.
pub const FENCE_WINDOW: u32 = 65_536;

/// The least MAX of a capture; this project's.
pub const MIN_CAPTURE_END: u32 = 20;
/// The greatest MAX of a capture; this project's.
pub const MAX_CAPTURE_END: u32 = 67_108_864;
/// The first word of a capture, the letters SVGF; this project's.
pub const CAPTURE_LETTERS: u32 = 0x4647_5653;
/// The word of a place that has no page, in a capture; this project's.
pub const UNMAPPED_WORD: u32 = 0xFFFF_FFFF;
/// What is added to the number of a page of the framebuffer in its key's word, in a capture; this project's.
pub const FRAME_KEY: u32 = 0x8000_0000;
/// The bytes of a page's record in a capture, its key and the page; this project's.
pub const PAGE_RECORD_SIZE: u32 = 4100;

/// The most lines of a script; this project's.
pub const MAX_SCRIPT_LINES: u32 = 1_048_576;
/// The most pages of one mapping that a client asks for, also in a script; this project's.
pub const MAX_MAP_PAGES: u32 = 2048;
