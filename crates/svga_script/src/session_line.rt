//! The session's line.
ghost use Rattle.std.specs.Prelude.{◌≤◌, ◌+◌, length};
ghost use Rattle.svga_script.specs.Asked.{IsSessionOf};
ghost use Rattle.svga_script.specs.Left.{words_left};

use crate::fault::LineFault;
use crate::take::{take_between, take_ring, take_way};
use crate::words::end;
use svga_cmd::constants::{
    MAX_FENCE, MAX_FRAME_HEIGHT, MAX_FRAME_WIDTH, MAX_GUEST_PAGES, MAX_INPUT_BYTES,
    MAX_PIXEL_BUDGET, MIN_FIRST_FENCE,
};
use svga_cmd::{Limits, Session};

/// `RING PAGES W H BUDGET FIRST WAY`
pub(crate) fn read_session(line: &[u8], at: &mut usize) -> Result<Session, LineFault>
    requires { length line.now ≤ MAX_INPUT_BYTES }
    ensures { IsSessionOf (length line.now + 1) (words_left line.now at.old) result }
{
    let ring = take_ring(line, at)?;
    let pages = take_between(line, at, 1, MAX_GUEST_PAGES)?;
    let gfb_width = take_between(line, at, 1, MAX_FRAME_WIDTH)?;
    let gfb_height = take_between(line, at, 1, MAX_FRAME_HEIGHT)?;
    let budget = take_between(line, at, 1, MAX_PIXEL_BUDGET)?;
    let first = take_between(line, at, MIN_FIRST_FENCE, MAX_FENCE)?;
    let way = take_way(line, at)?;
    end(line, *at)?;
    let limits = Limits {
        pages,
        gfb_width,
        gfb_height,
        budget,
    };
    Ok(Session {
        ring,
        limits,
        first,
        way,
    })
}
