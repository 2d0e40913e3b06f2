//! What the fields of a capture say: all that is asked for again and again.
ghost use Rattle.std.specs.Prelude.{◌≡◌, ◌≤◌, IfOk, length};
ghost use Rattle.std.specs.Result.{result_err};
ghost use Rattle.svga_capture.specs.Fields.{AreFields};
ghost use Rattle.svga_model.specs.Captures.{flaw_in};

use crate::fault::Wrong;
use crate::field::holds;
use crate::header::read_header;
use crate::pages::judge_pages;
use crate::regions::judge_regions;
use crate::ring::{Ring, read_fence, read_ring};
use svga_cmd::capture_layout::FIFO_AT;
use svga_cmd::constants::MAX_INPUT_BYTES;
use svga_cmd::{CaptureCause, Limits};

/// Records that stand one behind another: the byte at which they begin, and how many there are.
#[derive(Clone, Copy)]
pub(crate) struct Records {
    pub(crate) at: u32,
    pub(crate) count: u32,
}

/// What the fields of a capture say. The places and the pages stay where they stand.
#[derive(Clone, Copy)]
pub(crate) struct Fields {
    pub(crate) ring: Ring,
    pub(crate) fence: u32,
    pub(crate) limits: Limits,
    pub(crate) regions: Records,
    pub(crate) pages: Records,
}

/// What the bytes say, or what is wrong with them. Each field is read once, in the order of bytes.
pub(crate) fn read_fields(bytes: &[u8]) -> Result<Fields, Wrong>
    requires { length bytes.now ≤ MAX_INPUT_BYTES }
    ensures wrong { result_err result ≡ flaw_in bytes.now }
    ensures fields { IfOk result (AreFields bytes.now) }
{
    let header = read_header(bytes)?;
    let ring = read_ring(bytes, header.max)?;
    let regions = Records {
        at: FIFO_AT + ring.max,
        count: header.regions,
    };
    let pages = Records {
        at: judge_regions(bytes, &regions, header.limits.pages)?,
        count: header.pages,
    };
    let end = judge_pages(bytes, &pages, &header.limits)?;
    holds(end as usize == bytes.len(), end, CaptureCause::Long)?;
    Ok(Fields {
        ring,
        fence: read_fence(bytes, ring.min),
        limits: header.limits,
        regions,
        pages,
    })
}
