//! The lines of pages.
ghost use Rattle.std.specs.Prelude.{◌≤◌, ◌+◌, length};
ghost use Rattle.svga_model.specs.ScriptLines.{FillLine, LendLine, ShowLine, TakeLine, WriteLine};
ghost use Rattle.svga_script.specs.Asked.{IsActOf, IsActOrShort};
ghost use Rattle.svga_script.specs.Left.{words_left};

use crate::act::ClientAct;
use crate::fault::LineFault;
use crate::hexadecimal::bytes;
use crate::list::ByteList;
use crate::take::{take_hex, take_hex_byte, take_key, take_keys, take_number};
use crate::words::end;
use std::alloc::Global;
use svga_cmd::constants::MAX_INPUT_BYTES;

/// `KEY OFFSET HEX`
pub(crate) fn read_write(
    alloc: Global,
    line: &[u8],
    at: &mut usize,
) -> Result<Option<ClientAct>, LineFault>
    requires { length line.now ≤ MAX_INPUT_BYTES }
    ensures { IsActOrShort WriteLine (length line.now + 1) (words_left line.now at.old) result }
{
    let key = take_key(line, at)?;
    let offset = take_number(line, at)?;
    let digits = take_hex(line, at)?;
    end(line, *at)?;
    match bytes(alloc, digits) {
        Ok(bytes) => Ok(Some(ClientAct::Write {
            key,
            offset,
            bytes: ByteList::new(bytes),
        })),
        Err(_) => Ok(None),
    }
}

/// `KEY HH`
pub(crate) fn read_fill(line: &[u8], at: &mut usize) -> Result<ClientAct, LineFault>
    requires { length line.now ≤ MAX_INPUT_BYTES }
    ensures { IsActOf FillLine (length line.now + 1) (words_left line.now at.old) result }
{
    let key = take_key(line, at)?;
    let byte = take_hex_byte(line, at)?;
    end(line, *at)?;
    Ok(ClientAct::Fill { key, byte })
}

/// `KEYS`
pub(crate) fn read_lend(line: &[u8], at: &mut usize) -> Result<ClientAct, LineFault>
    requires { length line.now ≤ MAX_INPUT_BYTES }
    ensures { IsActOf LendLine (length line.now + 1) (words_left line.now at.old) result }
{
    let keys = take_keys(line, at)?;
    end(line, *at)?;
    Ok(ClientAct::Lend {
        first: keys.first,
        count: keys.count,
    })
}

/// `KEYS`
pub(crate) fn read_take(line: &[u8], at: &mut usize) -> Result<ClientAct, LineFault>
    requires { length line.now ≤ MAX_INPUT_BYTES }
    ensures { IsActOf TakeLine (length line.now + 1) (words_left line.now at.old) result }
{
    let keys = take_keys(line, at)?;
    end(line, *at)?;
    Ok(ClientAct::Take {
        first: keys.first,
        count: keys.count,
    })
}

/// `KEY`
pub(crate) fn read_show(line: &[u8], at: &mut usize) -> Result<ClientAct, LineFault>
    requires { length line.now ≤ MAX_INPUT_BYTES }
    ensures { IsActOf ShowLine (length line.now + 1) (words_left line.now at.old) result }
{
    let key = take_key(line, at)?;
    end(line, *at)?;
    Ok(ClientAct::Show { key })
}
