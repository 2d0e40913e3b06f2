//! The report on an input: its commands, the last fence, and how it ends.
ghost use Rattle.std.specs.Prelude.{◌≡◌, ◌≤◌, ℕ, List, length, IfOk, None};
ghost use Rattle.svga.specs.Inputs.{TellsInput};
ghost use Rattle.svga.specs.Prepared.{IsPrepared};
ghost use Rattle.svga.specs.Texts.{end_text, words_status, words_text};
ghost use Rattle.svga.specs.declared.form.Form.TheVariants as form;
ghost use Rattle.svga_cmd.specs.declared.command.Command.{Command};
ghost use Rattle.svga_text.specs.Passing.{Writes};

use crate::bytes::{ending_of, words_of};
use crate::listing::{Lister, list_commands};
use std::alloc::{AllocError, Global};
use svga_cmd::constants::{MAX_INPUT_BYTES, MAX_INPUT_WORDS};
use svga_decode::{Decoder, Ending, scan};
use svga_io::{Sink, WriteFault};
use svga_text::{Line, Render, name_of_cause};

/// All that a report takes, so that nothing is written where memory is short.
#[derive(Drop)]
pub struct Report {
    words: Vec<u32>,
    fence: u32,
    ending: Ending,
    lister: Lister,
}

/// Writes the report on these bytes. Where there is no memory for it nothing is written, and the
/// status is 6.
pub fn write_report<K: Sink>(alloc: Global, bytes: &[u8], sink: &mut K) -> u8
    requires { length bytes.now ≤ MAX_INPUT_BYTES }
    ensures { TellsInput K.held K.faults sink.old sink.new form.Words bytes.now result None }
{
    let Ok(mut report) = prepare(alloc, bytes) else {
        return 6;
    };
    let status = status_of(report.ending);
    match write(&mut report, sink) {
        Ok(()) => status,
        Err(WriteFault) => 5,
    }
}

// Reads the words through, and takes what their listing needs.
fn prepare(alloc: Global, bytes: &[u8]) -> Result<Report, AllocError>
    requires { length bytes.now ≤ MAX_INPUT_BYTES }
    ensures { IfOk result (λ report. (cs : List Command) × IsPrepared bytes.now cs report) }
{
    let words = words_of(alloc, bytes)?;
    let mut decoder = Decoder::new(alloc)?;
    let scanned = scan(&mut decoder, &words);
    let render = Render::new(alloc)?;
    Ok(Report {
        words,
        fence: scanned.fence,
        ending: ending_of(bytes, scanned.ending),
        lister: Lister { render },
    })
}

fn write<K: Sink>(report: &mut Report, sink: &mut K) -> Result<(), WriteFault>
    requires { length report.old.words.items ≤ MAX_INPUT_WORDS }
    ensures { (bytes : List ℕ) (cs : List Command) → IsPrepared bytes cs report.old
        → Writes K.held K.faults sink.old sink.new (words_text cs report.old.ending) result }
{
    list_commands(&report.words, &mut report.lister, sink)?;
    let line = Line::Fence {
        value: report.fence,
    };
    report.lister.render.line(sink, &line)?;
    write_end(&mut report.lister.render, sink, report.ending)
}

// Says how the input ends, where it isn't whole.
fn write_end<K: Sink>(render: &mut Render, sink: &mut K, ending: Ending) -> Result<(), WriteFault>
    ensures { Writes K.held K.faults sink.old sink.new (end_text ending) result }
{
    match ending {
        Ending::Whole => Ok(()),
        Ending::Refused { word, cause } => render.line(
            sink,
            &Line::RefusedWord {
                word,
                cause: name_of_cause(cause),
            },
        ),
        Ending::Torn { word } => render.line(sink, &Line::TornWord { word }),
    }
}

fn status_of(ending: Ending) -> u8
    ensures { result ≡ words_status ending }
{
    match ending {
        Ending::Whole => 0,
        Ending::Refused { .. } => 3,
        Ending::Torn { .. } => 3,
    }
}
