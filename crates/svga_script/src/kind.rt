//! The kinds of lines.
ghost use Rattle.std.specs.Prelude.{◌≡◌, option_map};
ghost use Rattle.svga_model.specs.ScriptLines.{kind_of as kind_by};
ghost use Rattle.svga_script.specs.Kinds.{kind_in};

use crate::name::is_word;

/// A kind of line behind the session's, by its first word.
#[derive(Clone, Copy)]
pub(crate) enum LineKind {
    Screen,
    Drop,
    Region,
    Map,
    Same,
    Gmrfb,
    Blit,
    Back,
    Update,
    Fence,
    Write,
    Fill,
    Lend,
    Take,
    Show,
    Describe,
}

/// The kind of the lines that begin with this word.
pub(crate) fn kind_of(letters: &[u8]) -> Option<LineKind>
    ensures { option_map kind_in result ≡ kind_by letters.now }
{
    if is_word(letters, "screen") {
        return Some(LineKind::Screen);
    }
    if is_word(letters, "drop") {
        return Some(LineKind::Drop);
    }
    if is_word(letters, "region") {
        return Some(LineKind::Region);
    }
    if is_word(letters, "map") {
        return Some(LineKind::Map);
    }
    if is_word(letters, "same") {
        return Some(LineKind::Same);
    }
    if is_word(letters, "gmrfb") {
        return Some(LineKind::Gmrfb);
    }
    if is_word(letters, "blit") {
        return Some(LineKind::Blit);
    }
    if is_word(letters, "back") {
        return Some(LineKind::Back);
    }
    if is_word(letters, "update") {
        return Some(LineKind::Update);
    }
    if is_word(letters, "fence") {
        return Some(LineKind::Fence);
    }
    if is_word(letters, "write") {
        return Some(LineKind::Write);
    }
    if is_word(letters, "fill") {
        return Some(LineKind::Fill);
    }
    if is_word(letters, "lend") {
        return Some(LineKind::Lend);
    }
    if is_word(letters, "take") {
        return Some(LineKind::Take);
    }
    if is_word(letters, "show") {
        return Some(LineKind::Show);
    }
    if is_word(letters, "describe") {
        return Some(LineKind::Describe);
    }
    None
}
