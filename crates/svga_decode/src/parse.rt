//! From the words of a whole command to the command.
ghost use Rattle.std.specs.Prelude.{◌≡◌, ◌+◌, ◌==◌, if◌then◌else◌, length, slice_index};
ghost use Rattle.svga_cmd.specs.Lent.{command_of, entries_of};
ghost use Rattle.svga_cmd.specs.Spelled.{blit_in, command_in, entries_in, format_of, pointer_in, screen_in};
ghost use Rattle.svga_cmd.specs.Spelling.{Spells};
ghost use Rattle.svga_model.specs.Accepted.{IsCommandWhole};
ghost use Rattle.svga_model.specs.Lengths.{entry_count};

use svga_cmd::constants::{
    BGR24_WORD, BGRX32_WORD, RGB565_WORD, SCREEN_SIZE, SVGA_CMD_BLIT_GMRFB_TO_SCREEN,
    SVGA_CMD_BLIT_SCREEN_TO_GMRFB, SVGA_CMD_DEFINE_GMR2, SVGA_CMD_DEFINE_GMRFB,
    SVGA_CMD_DEFINE_SCREEN, SVGA_CMD_DESTROY_SCREEN, SVGA_CMD_FENCE, SVGA_CMD_UPDATE,
    SVGA_REMAP_GMR2_PPN32, SVGA_REMAP_GMR2_PPN64, SVGA_REMAP_GMR2_SINGLE_PPN,
    SVGA_REMAP_GMR2_VIA_GMR,
};
use svga_cmd::{
    Backing, Blit, CommandRef, EntriesRef, Format, Gmrfb, GuestPtr, Point, Rect, ScreenDef,
};

/// The flag word of a remap whose entries stand in a region as numbers of 64 bits.
const VIA_GMR_PPN64: u32 = SVGA_REMAP_GMR2_VIA_GMR + SVGA_REMAP_GMR2_PPN64;

/// The command that the words spell. Listed entries are lent from the words.
pub(crate) fn spelled(words: &[u32]) -> CommandRef<'_>
    requires { IsCommandWhole words.now }
    ensures { Spells (command_of result) words.now }
{
    command(words)
}

fn command(words: &[u32]) -> CommandRef<'_>
    requires { IsCommandWhole words.now }
    ensures { command_of result ≡ command_in words.now }
{
    match words[0] {
        SVGA_CMD_UPDATE => CommandRef::Update {
            x: words[1],
            y: words[2],
            width: words[3],
            height: words[4],
        },
        SVGA_CMD_FENCE => CommandRef::Fence { value: words[1] },
        SVGA_CMD_DEFINE_SCREEN => CommandRef::DefineScreen(screen(words)),
        SVGA_CMD_DESTROY_SCREEN => CommandRef::DestroyScreen { id: words[1] },
        SVGA_CMD_DEFINE_GMRFB => CommandRef::DefineGmrfb(Gmrfb {
            region: words[1],
            offset: words[2],
            pitch: words[3],
            format: format(words[4]),
        }),
        SVGA_CMD_BLIT_GMRFB_TO_SCREEN => CommandRef::BlitToScreen(blit(words)),
        SVGA_CMD_BLIT_SCREEN_TO_GMRFB => CommandRef::BlitToGmrfb(blit(words)),
        SVGA_CMD_DEFINE_GMR2 => CommandRef::DefineGmr2 {
            region: words[1],
            pages: words[2],
        },
        _ => CommandRef::RemapGmr2 {
            region: words[1],
            offset: words[3],
            pages: words[4],
            entries: entries(words),
        },
    }
}

fn format(word: u32) -> Format
    ensures { result ≡ format_of word }
{
    match word {
        BGRX32_WORD => Format::Bgrx32,
        BGR24_WORD => Format::Bgr24,
        RGB565_WORD => Format::Rgb565,
        _ => Format::Rgb555,
    }
}

fn screen(words: &[u32]) -> ScreenDef
    requires { length words.now ≡ (if slice_index words.now 1 == SCREEN_SIZE then 8 else 12) }
    ensures { result ≡ screen_in words.now }
{
    let backing = match words[1] {
        SCREEN_SIZE => None,
        _ => Some(Backing {
            region: words[8],
            offset: words[9],
            pitch: words[10],
            clones: words[11],
        }),
    };
    ScreenDef {
        id: words[2],
        flags: words[3],
        width: words[4],
        height: words[5],
        x: words[6].cast_signed(),
        y: words[7].cast_signed(),
        backing,
    }
}

fn blit(words: &[u32]) -> Blit
    requires { length words.now ≡ 8 }
    ensures { result ≡ blit_in words.now }
{
    Blit {
        point: Point {
            x: words[1].cast_signed(),
            y: words[2].cast_signed(),
        },
        rect: Rect {
            left: words[3].cast_signed(),
            top: words[4].cast_signed(),
            right: words[5].cast_signed(),
            bottom: words[6].cast_signed(),
        },
        screen: words[7],
    }
}

fn entries(words: &[u32]) -> EntriesRef<'_>
    requires { length words.now ≡ 5 + entry_count (slice_index words.now 2) (slice_index words.now 4) }
    ensures { entries_of result ≡ entries_in words.now }
{
    match words[2] {
        SVGA_REMAP_GMR2_PPN32 => EntriesRef::Ppn32(&words[5..]),
        SVGA_REMAP_GMR2_VIA_GMR => EntriesRef::ViaGmr32(pointer(words)),
        SVGA_REMAP_GMR2_PPN64 => EntriesRef::Ppn64(&words[5..]),
        VIA_GMR_PPN64 => EntriesRef::ViaGmr64(pointer(words)),
        SVGA_REMAP_GMR2_SINGLE_PPN => EntriesRef::SinglePpn32(words[5]),
        _ => EntriesRef::SinglePpn64 {
            low: words[5],
            high: words[6],
        },
    }
}

fn pointer(words: &[u32]) -> GuestPtr
    requires { length words.now ≡ 7 }
    ensures { result ≡ pointer_in words.now }
{
    GuestPtr {
        region: words[5],
        offset: words[6],
    }
}
