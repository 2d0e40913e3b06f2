//! How the text of a race ends.
ghost use Rattle.std.specs.Prelude.{◌≡◌, ◌++◌, Option};
ghost use Rattle.svga_model.specs.ClientFaults.{ClientFault, client_number};
ghost use Rattle.svga_model.specs.Meanings.{Refusal as Refused};
ghost use Rattle.svga_pair.specs.Refusals.{IsTold};
ghost use Rattle.svga_pair.specs.Written.{IsWrittenOn};
ghost use Rattle.svga_text.specs.Lines.{line_text};
ghost use Rattle.svga_text.specs.Passing.{Writes};
ghost use Rattle.svga_text.specs.Pictures.{screens_text};
ghost use Rattle.svga_text.specs.RaceTexts.{client_name, end_text};

use crate::raced::{Raced, Refusal};
use svga_io::{Sink, WriteFault};
use svga_screen::Screens;
use svga_text::{Line, Render};

/// Writes the screens and the last line, unless writing failed before. True where writing failed.
pub(crate) fn write_end<K: Sink>(
    render: &mut Render,
    sink: &mut K,
    screens: &Screens,
    raced: &Raced,
) -> bool
    ensures { (r : Option Refused) → IsTold raced.now.refused r
        → IsWrittenOn K.held K.faults raced.now.write_fault sink.old sink.new
        (screens_text screens.now.screens ++ end_text r) result }
{
    if raced.write_fault {
        return true;
    }
    write_screens_and_line(render, sink, screens, raced.refused).is_err()
}

fn write_screens_and_line<K: Sink>(
    render: &mut Render,
    sink: &mut K,
    screens: &Screens,
    refused: Option<Refusal>,
) -> Result<(), WriteFault>
    ensures { (r : Option Refused) → IsTold refused r
        → Writes K.held K.faults sink.old sink.new (screens_text screens.now.screens ++ end_text r) result }
{
    render.screens(sink, screens)?;
    render.line(sink, &last_line(refused))
}

/// The line behind the screens.
fn last_line(refused: Option<Refusal>) -> Line
    ensures { (r : Option Refused) → IsTold refused r → line_text result ≡ end_text r }
{
    match refused {
        None => Line::End,
        Some(refusal) => Line::RefusedLine {
            line: refusal.line,
            number: refusal.number,
            name: name_of_number(refusal.number),
            key: refusal.key,
        },
    }
}

/// The name of the fault with this number.
fn name_of_number(number: u32) -> &'static str
    ensures { (f : ClientFault) → number ≡ client_number f → result.now ≡ client_name f }
{
    match number {
        1 => "NoRegion",
        2 => "RegionId",
        3 => "PlaceLimit",
        4 => "RangeBeyond",
        5 => "Unmapped",
        6 => "BadPage",
        7 => "NoGmrfb",
        8 => "NoScreen",
        9 => "ScreenId",
        10 => "ScreenSize",
        11 => "PixelBudget",
        12 => "NegativeSide",
        13 => "BeyondRegion",
        14 => "ChainEnd",
        15 => "ChainLimit",
        21 => "PageOut",
        22 => "PageLent",
        23 => "NotLent",
        24 => "NoFence",
        25 => "PageRange",
        _ => "",
    }
}
