//! The lines of regions.
ghost use Rattle.std.specs.Prelude.{◌≤◌, ◌+◌, length};
ghost use Rattle.svga_model.specs.ScriptLines.{DescribeLine, MapLine, RegionLine, SameLine};
ghost use Rattle.svga_script.specs.Asked.{AreRuns, IsActOf, IsActOrShort};
ghost use Rattle.svga_script.specs.Left.{words_left};

use crate::act::ClientAct;
use crate::fault::LineFault;
use crate::keep::keep;
use crate::list::RunList;
use crate::take::{take_between, take_number, take_run};
use crate::words::{end, missing};
use std::alloc::Global;
use svga_cmd::constants::{MAX_INPUT_BYTES, MAX_REMAP_PAGES};

/// `ID PAGES`
pub(crate) fn read_region(line: &[u8], at: &mut usize) -> Result<ClientAct, LineFault>
    requires { length line.now ≤ MAX_INPUT_BYTES }
    ensures { IsActOf RegionLine (length line.now + 1) (words_left line.now at.old) result }
{
    let id = take_number(line, at)?;
    let pages = take_number(line, at)?;
    end(line, *at)?;
    Ok(ClientAct::Region { id, pages })
}

/// `ID OFFSET RUN ..`, with one run or more
pub(crate) fn read_map(
    alloc: Global,
    line: &[u8],
    at: &mut usize,
) -> Result<Option<ClientAct>, LineFault>
    requires { length line.now ≤ MAX_INPUT_BYTES }
    ensures { IsActOrShort MapLine (length line.now + 1) (words_left line.now at.old) result }
{
    let id = take_number(line, at)?;
    let offset = take_number(line, at)?;
    let runs = read_runs(alloc, line, at)?;
    match runs {
        Some(runs) => Ok(Some(ClientAct::Map { id, offset, runs })),
        None => Ok(None),
    }
}

/// Runs up to the line's end. Where memory is short they are still judged.
fn read_runs(alloc: Global, line: &[u8], at: &mut usize) -> Result<Option<RunList>, LineFault>
    requires { length line.now ≤ MAX_INPUT_BYTES }
    ensures { AreRuns (length line.now + 1) (words_left line.now at.old) result }
{
    if *at > line.len() {
        return Err(missing(line));
    }
    let mut runs = Vec::new(alloc);
    let mut short = false;
    let mut pages = 0;
    while *at <= line.len() {
        let run = take_run(line, at, pages)?;
        pages += run.count;
        keep(&mut runs, run, &mut short);
    }
    if short {
        Ok(None)
    } else {
        Ok(Some(RunList::new(runs)))
    }
}

/// `ID OFFSET COUNT PAGE`
pub(crate) fn read_same(line: &[u8], at: &mut usize) -> Result<ClientAct, LineFault>
    requires { length line.now ≤ MAX_INPUT_BYTES }
    ensures { IsActOf SameLine (length line.now + 1) (words_left line.now at.old) result }
{
    let id = take_number(line, at)?;
    let offset = take_number(line, at)?;
    let count = take_between(line, at, 0, MAX_REMAP_PAGES)?;
    let page = take_number(line, at)?;
    end(line, *at)?;
    Ok(ClientAct::Same {
        id,
        offset,
        count,
        page,
    })
}

/// `ID PAGE`
pub(crate) fn read_describe(line: &[u8], at: &mut usize) -> Result<ClientAct, LineFault>
    requires { length line.now ≤ MAX_INPUT_BYTES }
    ensures { IsActOf DescribeLine (length line.now + 1) (words_left line.now at.old) result }
{
    let id = take_number(line, at)?;
    let page = take_number(line, at)?;
    end(line, *at)?;
    Ok(ClientAct::Describe { id, page })
}
