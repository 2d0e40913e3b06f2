//! How many words a command has.
ghost use Rattle.std.specs.Prelude.{◌≡◌, ◌<◌, length, slice_index};
ghost use Rattle.svga_model.specs.Lengths.{entry_count, whole_length};

use svga_cmd::constants::{
    SCREEN_SIZE, SVGA_CMD_BLIT_GMRFB_TO_SCREEN, SVGA_CMD_BLIT_SCREEN_TO_GMRFB,
    SVGA_CMD_DEFINE_GMR2, SVGA_CMD_DEFINE_GMRFB, SVGA_CMD_DEFINE_SCREEN, SVGA_CMD_DESTROY_SCREEN,
    SVGA_CMD_FENCE, SVGA_CMD_UPDATE, SVGA_REMAP_GMR2_PPN32, SVGA_REMAP_GMR2_PPN64,
    SVGA_REMAP_GMR2_SINGLE_PPN,
};

/// The length of the command that begins with these words. While they don't tell, it is a number above
/// theirs.
pub(crate) fn length_of(words: &[u32]) -> usize
    requires { 0 < length words.now }
    ensures { result ≡ whole_length words.now }
{
    match words[0] {
        SVGA_CMD_UPDATE | SVGA_CMD_DEFINE_GMRFB => 5,
        SVGA_CMD_FENCE | SVGA_CMD_DESTROY_SCREEN => 2,
        SVGA_CMD_DEFINE_SCREEN => {
            if word_or_zero(words, 1) == SCREEN_SIZE {
                8
            } else {
                12
            }
        }
        SVGA_CMD_BLIT_GMRFB_TO_SCREEN | SVGA_CMD_BLIT_SCREEN_TO_GMRFB => 8,
        SVGA_CMD_DEFINE_GMR2 => 3,
        _ => 5 + entries_length(word_or_zero(words, 2), word_or_zero(words, 4)),
    }
}

fn word_or_zero(words: &[u32], i: usize) -> u32
    ensures { result ≡ slice_index words.now i }
{
    if i < words.len() { words[i] } else { 0 }
}

fn entries_length(flags: u32, pages: u32) -> usize
    ensures count { result ≡ entry_count flags pages }
    ensures small { result < 10000000000 }
{
    let pages = pages as usize;
    match flags {
        SVGA_REMAP_GMR2_PPN32 => pages,
        SVGA_REMAP_GMR2_PPN64 => 2 * pages,
        SVGA_REMAP_GMR2_SINGLE_PPN => 1,
        _ => 2,
    }
}
