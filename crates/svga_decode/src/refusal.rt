//! The table of refused words.
ghost use Rattle.std.specs.Prelude.{◌≡◌};
ghost use Rattle.svga_model.specs.RefusedWords.{refusal, refusal_of_id};

use svga_cmd::Cause;
use svga_cmd::constants::{
    BACKED_SCREEN_SIZE, BGR24_WORD, BGRX32_WORD, FIRST_3D_ID, LAST_3D_ID, MAX_REMAP_PAGES,
    RGB555_WORD, RGB565_WORD, SCREEN_SIZE, SVGA_CMD_ANNOTATION_COPY, SVGA_CMD_ANNOTATION_FILL,
    SVGA_CMD_BLIT_GMRFB_TO_SCREEN, SVGA_CMD_BLIT_SCREEN_TO_GMRFB, SVGA_CMD_DEFINE_ALPHA_CURSOR,
    SVGA_CMD_DEFINE_CURSOR, SVGA_CMD_DEFINE_GMR2, SVGA_CMD_DEFINE_GMRFB, SVGA_CMD_DEFINE_SCREEN,
    SVGA_CMD_DESTROY_SCREEN, SVGA_CMD_ESCAPE, SVGA_CMD_FENCE, SVGA_CMD_FRONT_ROP_FILL,
    SVGA_CMD_RECT_COPY, SVGA_CMD_REMAP_GMR2, SVGA_CMD_UPDATE, SVGA_CMD_UPDATE_VERBOSE,
    SVGA_REMAP_GMR2_PPN64, SVGA_REMAP_GMR2_SINGLE_PPN,
};

/// The flag word of a remap with one entry of 64 bits for all its pages.
const SINGLE_PPN64: u32 = SVGA_REMAP_GMR2_SINGLE_PPN + SVGA_REMAP_GMR2_PPN64;

/// Why word `number` of a command is refused, if it is. Its word 0 is `id`.
pub(crate) fn word_refusal(number: usize, id: u32, word: u32) -> Option<Cause>
    ensures { result ≡ refusal number id word }
{
    match (number, id) {
        (0, _) => id_refusal(word),
        (1, SVGA_CMD_DEFINE_SCREEN) if word != SCREEN_SIZE && word != BACKED_SCREEN_SIZE => Some(
            Cause::BadSize,
        ),
        (2, SVGA_CMD_REMAP_GMR2) if word > SVGA_REMAP_GMR2_SINGLE_PPN && word != SINGLE_PPN64 =>
            Some(Cause::BadFlags),
        (4, SVGA_CMD_DEFINE_GMRFB)
            if word != BGRX32_WORD
                && word != BGR24_WORD
                && word != RGB565_WORD
                && word != RGB555_WORD => Some(Cause::BadFormat),
        (4, SVGA_CMD_REMAP_GMR2) if word > MAX_REMAP_PAGES => Some(Cause::TooManyPages),
        _ => None,
    }
}

fn id_refusal(id: u32) -> Option<Cause>
    ensures { result ≡ refusal_of_id id }
{
    match id {
        SVGA_CMD_UPDATE
        | SVGA_CMD_FENCE
        | SVGA_CMD_DEFINE_SCREEN
        | SVGA_CMD_DESTROY_SCREEN
        | SVGA_CMD_DEFINE_GMRFB
        | SVGA_CMD_BLIT_GMRFB_TO_SCREEN
        | SVGA_CMD_BLIT_SCREEN_TO_GMRFB
        | SVGA_CMD_DEFINE_GMR2
        | SVGA_CMD_REMAP_GMR2 => None,
        SVGA_CMD_RECT_COPY
        | SVGA_CMD_DEFINE_CURSOR
        | SVGA_CMD_DEFINE_ALPHA_CURSOR
        | SVGA_CMD_UPDATE_VERBOSE
        | SVGA_CMD_FRONT_ROP_FILL
        | SVGA_CMD_ANNOTATION_FILL
        | SVGA_CMD_ANNOTATION_COPY => Some(Cause::Unsupported),
        SVGA_CMD_ESCAPE => Some(Cause::Escape),
        FIRST_3D_ID..=LAST_3D_ID => Some(Cause::ThreeD),
        _ => Some(Cause::Unknown),
    }
}
