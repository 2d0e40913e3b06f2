//! The spelling of a command, word by word.
ghost use Rattle.std.specs.Prelude.{◌≡◌, ◌+◌, ◌∷◌, ◌≤◌, ◌<◌, length, slice_index};
ghost use Rattle.svga_cmd.specs.Spelling.{spelling};
ghost use Rattle.svga_cmd.specs.WellFormed.{HasEntries, IsShortCommand, IsWellFormed};
ghost use Rattle.svga_cmd.specs.Words.{blit_words, entry_words};

use crate::blit::Blit;
use crate::command::Command;
use crate::constants::{
    BACKED_SCREEN_SIZE, MAX_COMMAND_WORDS, MAX_ENTRY_WORDS, MAX_REMAP_PAGES, SCREEN_SIZE,
    SVGA_CMD_BLIT_GMRFB_TO_SCREEN, SVGA_CMD_BLIT_SCREEN_TO_GMRFB, SVGA_CMD_DEFINE_GMR2,
    SVGA_CMD_DEFINE_GMRFB, SVGA_CMD_DEFINE_SCREEN, SVGA_CMD_DESTROY_SCREEN, SVGA_CMD_FENCE,
    SVGA_CMD_REMAP_GMR2, SVGA_CMD_UPDATE,
};
use crate::remap::RemapData;
use crate::screen::ScreenDef;
use arrayvec::ArrayVec;
use bitflags::Flags;

/// How many words the command's spelling has. The longest is a remap of 65,536 pages by numbers of 64 bits.
pub fn word_count(command: &Command) -> u32
    requires { IsWellFormed command.now }
    ensures count { result ≡ length (spelling command.now) }
    ensures most { result ≤ MAX_COMMAND_WORDS }
{
    match command {
        Command::Update { .. } => 5,
        Command::Fence { .. } => 2,
        Command::DefineScreen(def) => match def.backing {
            None => 8,
            Some(_) => 12,
        },
        Command::DestroyScreen { .. } => 2,
        Command::DefineGmrfb(_) => 5,
        Command::BlitToScreen(_) => 8,
        Command::BlitToGmrfb(_) => 8,
        Command::DefineGmr2 { .. } => 3,
        Command::RemapGmr2 { pages, entries, .. } => 5 + entry_count(entries, *pages),
    }
}

/// The word with number `i`, from 0, of the command's spelling.
pub fn word_at(command: &Command, i: u32) -> u32
    requires well_formed { IsWellFormed command.now }
    requires within { i < length (spelling command.now) }
    ensures { result ≡ slice_index (spelling command.now) i }
{
    let i = i as usize;
    match command {
        Command::Update {
            x,
            y,
            width,
            height,
        } => [SVGA_CMD_UPDATE, *x, *y, *width, *height][i],
        Command::Fence { value } => [SVGA_CMD_FENCE, *value][i],
        Command::DefineScreen(def) => screen_word(def, i),
        Command::DestroyScreen { id } => [SVGA_CMD_DESTROY_SCREEN, *id][i],
        Command::DefineGmrfb(gmrfb) => [
            SVGA_CMD_DEFINE_GMRFB,
            gmrfb.region,
            gmrfb.offset,
            gmrfb.pitch,
            gmrfb.format.word(),
        ][i],
        Command::BlitToScreen(blit) => blit_word(SVGA_CMD_BLIT_GMRFB_TO_SCREEN, blit, i),
        Command::BlitToGmrfb(blit) => blit_word(SVGA_CMD_BLIT_SCREEN_TO_GMRFB, blit, i),
        Command::DefineGmr2 { region, pages } => [SVGA_CMD_DEFINE_GMR2, *region, *pages][i],
        Command::RemapGmr2 {
            region,
            offset,
            pages,
            entries,
        } => remap_word(*region, *offset, *pages, entries, i),
    }
}

/// The whole spelling of a command that lists no pages.
pub fn encode_short(command: &Command) -> ArrayVec<u32, 16>
    requires well_formed { IsWellFormed command.now }
    requires short { IsShortCommand command.now }
    ensures { result.items ≡ spelling command.now }
{
    let mut words = ArrayVec::new();
    for i in 0..word_count(command) {
        words.push(word_at(command, i));
    }
    words
}

fn screen_word(def: &ScreenDef, i: usize) -> u32
    requires { i < length (spelling (Command.DefineScreen def.now)) }
    ensures { result ≡ slice_index (spelling (Command.DefineScreen def.now)) i }
{
    match def.backing {
        None => [
            SVGA_CMD_DEFINE_SCREEN,
            SCREEN_SIZE,
            def.id,
            def.flags,
            def.width,
            def.height,
            def.x.cast_unsigned(),
            def.y.cast_unsigned(),
        ][i],
        Some(backing) => [
            SVGA_CMD_DEFINE_SCREEN,
            BACKED_SCREEN_SIZE,
            def.id,
            def.flags,
            def.width,
            def.height,
            def.x.cast_unsigned(),
            def.y.cast_unsigned(),
            backing.region,
            backing.offset,
            backing.pitch,
            backing.clones,
        ][i],
    }
}

fn blit_word(id: u32, blit: &Blit, i: usize) -> u32
    requires { i < 8 }
    ensures { result ≡ slice_index (id ∷ blit_words blit.now) i }
{
    [
        id,
        blit.point.x.cast_unsigned(),
        blit.point.y.cast_unsigned(),
        blit.rect.left.cast_unsigned(),
        blit.rect.top.cast_unsigned(),
        blit.rect.right.cast_unsigned(),
        blit.rect.bottom.cast_unsigned(),
        blit.screen,
    ][i]
}

fn remap_word(region: u32, offset: u32, pages: u32, entries: &RemapData, i: usize) -> u32
    requires { i < length (spelling (Command.RemapGmr2 region offset pages entries.now)) }
    ensures { result ≡ slice_index (spelling (Command.RemapGmr2 region offset pages entries.now)) i }
{
    let head = [
        SVGA_CMD_REMAP_GMR2,
        region,
        entries.flags().bits(),
        offset,
        pages,
    ];
    if i < head.len() {
        head[i]
    } else {
        entry_word(entries, i - head.len())
    }
}

fn entry_count(entries: &RemapData, pages: u32) -> u32
    requires few { pages ≤ MAX_REMAP_PAGES }
    requires fits { HasEntries entries.now pages }
    ensures count { result ≡ length (entry_words entries.now) }
    ensures few { result ≤ MAX_ENTRY_WORDS }
{
    match entries {
        RemapData::Ppn32(_) => pages,
        RemapData::Ppn64(_) => 2 * pages,
        RemapData::SinglePpn32(_) => 1,
        RemapData::SinglePpn64 { .. } => 2,
        RemapData::ViaGmr32(_) => 2,
        RemapData::ViaGmr64(_) => 2,
    }
}

fn entry_word(entries: &RemapData, i: usize) -> u32
    requires { i < length (entry_words entries.now) }
    ensures { result ≡ slice_index (entry_words entries.now) i }
{
    match entries {
        RemapData::Ppn32(list) => list.words()[i],
        RemapData::Ppn64(list) => list.words()[i],
        RemapData::SinglePpn32(page) => [*page][i],
        RemapData::SinglePpn64 { low, high } => [*low, *high][i],
        RemapData::ViaGmr32(pointer) => [pointer.region, pointer.offset][i],
        RemapData::ViaGmr64(pointer) => [pointer.region, pointer.offset][i],
    }
}
