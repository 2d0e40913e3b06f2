//! One line that isn't skipped.
ghost use Rattle.std.specs.Prelude.{◌≡◌, ◌≤◌, ◌+◌, length};
ghost use Rattle.svga_model.specs.ScriptLines.{FenceLine, first_empty, first_strange, is_character as is_good, words_of};
ghost use Rattle.svga_script.specs.Asked.{IsActOf, IsActOrShort, IsBehind, IsOpening};
ghost use Rattle.svga_script.specs.Faults.{IsJudged};
ghost use Rattle.svga_script.specs.Kinds.{kind_in};
ghost use Rattle.svga_script.specs.Left.{words_left};

use crate::act::ClientAct;
use crate::fault::LineFault;
use crate::kind::{LineKind, kind_of};
use crate::name::is_word;
use crate::page_lines::{read_fill, read_lend, read_show, read_take, read_write};
use crate::region_lines::{read_describe, read_map, read_region, read_same};
use crate::screen_lines::{read_back, read_blit, read_drop, read_gmrfb, read_screen, read_update};
use crate::session_line::read_session;
use crate::words::{end, take_word, word_at};
use std::alloc::Global;
use svga_cmd::constants::MAX_INPUT_BYTES;
use svga_cmd::{ScriptCause, Session};

/// What is wrong with the characters of a line.
pub(crate) fn judge_characters(line: &[u8]) -> Result<(), LineFault>
    requires { length line.now ≤ MAX_INPUT_BYTES }
    ensures { IsJudged (first_strange 1 line.now) tt result }
{
    for i in 0..line.len() {
        if !is_character(line[i]) {
            return Err(LineFault {
                column: i as u32 + 1,
                cause: ScriptCause::Character,
            });
        }
    }
    Ok(())
}

/// Whether a byte is a character from a space to `~`.
fn is_character(byte: u8) -> bool
    ensures { result ≡ is_good byte }
{
    b' ' <= byte && byte <= b'~'
}

/// What is wrong with the spaces of a line.
pub(crate) fn judge_spaces(line: &[u8]) -> Result<(), LineFault>
    requires { length line.now ≤ MAX_INPUT_BYTES }
    ensures { IsJudged (first_empty (words_of line.now)) tt result }
{
    let mut at = 0;
    while let Some(word) = word_at(line, at) {
        if word.letters.is_empty() {
            return Err(word.wrong(ScriptCause::Space));
        }
        at = word.next;
    }
    Ok(())
}

/// The session that the first line opens.
pub(crate) fn read_opening(line: &[u8]) -> Result<Session, LineFault>
    requires { length line.now ≤ MAX_INPUT_BYTES }
    ensures { IsOpening (length line.now + 1) (words_of line.now) result }
{
    let mut at = 0;
    let first = take_word(line, &mut at)?;
    if is_word(first.letters, "session") {
        read_session(line, &mut at)
    } else {
        Err(first.wrong(ScriptCause::Session))
    }
}

/// The act that a line behind the session's asks for, or None where memory for what it holds is wanting.
pub(crate) fn read_act(alloc: Global, line: &[u8]) -> Result<Option<ClientAct>, LineFault>
    requires { length line.now ≤ MAX_INPUT_BYTES }
    ensures { IsBehind (length line.now + 1) (words_of line.now) result }
{
    let mut at = 0;
    let first = take_word(line, &mut at)?;
    if is_word(first.letters, "session") {
        return Err(first.wrong(ScriptCause::Session));
    }
    match kind_of(first.letters) {
        Some(kind) => read_kind(alloc, kind, line, &mut at),
        None => Err(first.wrong(ScriptCause::Word)),
    }
}

/// The act of a line of this kind, by the words behind the first.
fn read_kind(
    alloc: Global,
    kind: LineKind,
    line: &[u8],
    at: &mut usize,
) -> Result<Option<ClientAct>, LineFault>
    requires { length line.now ≤ MAX_INPUT_BYTES }
    ensures { IsActOrShort (kind_in kind) (length line.now + 1) (words_left line.now at.old) result }
{
    match kind {
        LineKind::Screen => Ok(Some(read_screen(line, at)?)),
        LineKind::Drop => Ok(Some(read_drop(line, at)?)),
        LineKind::Region => Ok(Some(read_region(line, at)?)),
        LineKind::Map => read_map(alloc, line, at),
        LineKind::Same => Ok(Some(read_same(line, at)?)),
        LineKind::Gmrfb => Ok(Some(read_gmrfb(line, at)?)),
        LineKind::Blit => Ok(Some(read_blit(line, at)?)),
        LineKind::Back => Ok(Some(read_back(line, at)?)),
        LineKind::Update => Ok(Some(read_update(line, at)?)),
        LineKind::Fence => Ok(Some(read_fence(line, at)?)),
        LineKind::Write => read_write(alloc, line, at),
        LineKind::Fill => Ok(Some(read_fill(line, at)?)),
        LineKind::Lend => Ok(Some(read_lend(line, at)?)),
        LineKind::Take => Ok(Some(read_take(line, at)?)),
        LineKind::Show => Ok(Some(read_show(line, at)?)),
        LineKind::Describe => Ok(Some(read_describe(line, at)?)),
    }
}

/// A line of one word.
fn read_fence(line: &[u8], at: &mut usize) -> Result<ClientAct, LineFault>
    requires { length line.now ≤ MAX_INPUT_BYTES }
    ensures { IsActOf FenceLine (length line.now + 1) (words_left line.now at.old) result }
{
    end(line, *at)?;
    Ok(ClientAct::Fence)
}
