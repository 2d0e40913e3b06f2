//! The lines of screens, and of blits to and from them.
ghost use Rattle.std.specs.Prelude.{◌≤◌, ◌+◌, length};
ghost use Rattle.svga_model.specs.ScriptLines.{BackLine, BlitLine, DropLine, GmrfbLine, ScreenLine, UpdateLine};
ghost use Rattle.svga_script.specs.Asked.{IsActOf, IsBlitOf};
ghost use Rattle.svga_script.specs.Left.{words_left};

use crate::act::ClientAct;
use crate::fault::LineFault;
use crate::take::{take_format, take_number, take_region, take_screen, take_signed};
use crate::words::end;
use svga_cmd::constants::MAX_INPUT_BYTES;
use svga_cmd::{Blit, Gmrfb, Point, Rect};

/// `ID W H X Y`
pub(crate) fn read_screen(line: &[u8], at: &mut usize) -> Result<ClientAct, LineFault>
    requires { length line.now ≤ MAX_INPUT_BYTES }
    ensures { IsActOf ScreenLine (length line.now + 1) (words_left line.now at.old) result }
{
    let id = take_number(line, at)?;
    let width = take_number(line, at)?;
    let height = take_number(line, at)?;
    let x = take_signed(line, at)?;
    let y = take_signed(line, at)?;
    end(line, *at)?;
    Ok(ClientAct::Screen {
        id,
        width,
        height,
        x,
        y,
    })
}

/// `ID`
pub(crate) fn read_drop(line: &[u8], at: &mut usize) -> Result<ClientAct, LineFault>
    requires { length line.now ≤ MAX_INPUT_BYTES }
    ensures { IsActOf DropLine (length line.now + 1) (words_left line.now at.old) result }
{
    let id = take_number(line, at)?;
    end(line, *at)?;
    Ok(ClientAct::Destroy { id })
}

/// `REGION OFFSET PITCH FORMAT`
pub(crate) fn read_gmrfb(line: &[u8], at: &mut usize) -> Result<ClientAct, LineFault>
    requires { length line.now ≤ MAX_INPUT_BYTES }
    ensures { IsActOf GmrfbLine (length line.now + 1) (words_left line.now at.old) result }
{
    let region = take_region(line, at)?;
    let offset = take_number(line, at)?;
    let pitch = take_number(line, at)?;
    let format = take_format(line, at)?;
    end(line, *at)?;
    Ok(ClientAct::Gmrfb(Gmrfb {
        region,
        offset,
        pitch,
        format,
    }))
}

/// `X Y LEFT TOP RIGHT BOTTOM SCREEN`, to a screen
pub(crate) fn read_blit(line: &[u8], at: &mut usize) -> Result<ClientAct, LineFault>
    requires { length line.now ≤ MAX_INPUT_BYTES }
    ensures { IsActOf BlitLine (length line.now + 1) (words_left line.now at.old) result }
{
    Ok(ClientAct::Blit(read_blit_words(line, at)?))
}

/// The same words, back from a screen.
pub(crate) fn read_back(line: &[u8], at: &mut usize) -> Result<ClientAct, LineFault>
    requires { length line.now ≤ MAX_INPUT_BYTES }
    ensures { IsActOf BackLine (length line.now + 1) (words_left line.now at.old) result }
{
    Ok(ClientAct::Back(read_blit_words(line, at)?))
}

/// The words of a blit.
fn read_blit_words(line: &[u8], at: &mut usize) -> Result<Blit, LineFault>
    requires { length line.now ≤ MAX_INPUT_BYTES }
    ensures { IsBlitOf (length line.now + 1) (words_left line.now at.old) result }
{
    let x = take_signed(line, at)?;
    let y = take_signed(line, at)?;
    let left = take_signed(line, at)?;
    let top = take_signed(line, at)?;
    let right = take_signed(line, at)?;
    let bottom = take_signed(line, at)?;
    let screen = take_screen(line, at)?;
    end(line, *at)?;
    Ok(Blit {
        point: Point { x, y },
        rect: Rect {
            left,
            top,
            right,
            bottom,
        },
        screen,
    })
}

/// `X Y W H`
pub(crate) fn read_update(line: &[u8], at: &mut usize) -> Result<ClientAct, LineFault>
    requires { length line.now ≤ MAX_INPUT_BYTES }
    ensures { IsActOf UpdateLine (length line.now + 1) (words_left line.now at.old) result }
{
    let x = take_number(line, at)?;
    let y = take_number(line, at)?;
    let width = take_number(line, at)?;
    let height = take_number(line, at)?;
    end(line, *at)?;
    Ok(ClientAct::Update {
        x,
        y,
        width,
        height,
    })
}
