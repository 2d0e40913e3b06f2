//! The text of a replay: how far a capture's words were run, and the state that they leave.
ghost use Rattle.std.specs.List.{flat_map, list_all, range_with_len};
ghost use Rattle.std.specs.Prelude.{◌≡◌, ◌⊎◌, ℕ, ◌==◌, ◌<◌, ◌≤◌, List, length, None};
ghost use Rattle.svga.specs.Inputs.{IsReplayed, TellsInput};
ghost use Rattle.svga.specs.Mapped.{AreMapped, mapped_page};
ghost use Rattle.svga.specs.ReplayTexts.{pages_text, region_keys, replay_end_text, replay_status};
ghost use Rattle.svga.specs.ReplayTexts.{replay_text, shown_page};
ghost use Rattle.svga.specs.Telling.{Tells};
ghost use Rattle.svga.specs.declared.form.Form.TheVariants as form;
ghost use Rattle.svga_capture.specs.Replayed.{replay_in, state_left};
ghost use Rattle.svga_cmd.specs.Pages.{HasPage};
ghost use Rattle.svga_cmd.specs.declared.page.PageKey.TheVariants as key;
ghost use Rattle.svga_machine.specs.Displays.{IsWholeState};
ghost use Rattle.svga_text.specs.Passing.{Writes};

use crate::ended::status_of;
use crate::mapped::mapped_pages;
use std::alloc::Global;
use svga_capture::{Capture, CaptureFault, ReplayEnd, Replayed, read_capture, replay};
use svga_cmd::constants::MAX_INPUT_BYTES;
use svga_cmd::{MemPages, PageKey, PageStore};
use svga_io::{Sink, WriteFault};
use svga_text::{Line, Render, name_of_capture_cause, name_of_cause, name_of_fault};

/// Writes what the words of the capture in these bytes leave, or where the bytes are no capture.
/// Where there is no memory for it nothing is written, and the status is 6.
pub fn write_replay<K: Sink>(alloc: Global, bytes: &[u8], sink: &mut K) -> u8
    requires { length bytes.now ≤ MAX_INPUT_BYTES }
    ensures { TellsInput K.held K.faults sink.old sink.new form.Replay bytes.now result None }
{
    let Ok(mut render) = Render::new(alloc) else {
        return 6;
    };
    match read_capture(bytes) {
        Ok(capture) => write_capture(alloc, &capture, &mut render, sink),
        Err(CaptureFault::Byte { place, cause }) => {
            let line = Line::CaptureByte {
                place,
                cause: name_of_capture_cause(cause),
            };
            status_of(render.line(sink, &line), 3)
        }
        Err(CaptureFault::Memory) => 6,
    }
}

// Replays a capture, and writes the text.
fn write_capture<K: Sink>(
    alloc: Global,
    capture: &Capture<'_>,
    render: &mut Render,
    sink: &mut K,
) -> u8
    ensures { ((result ≡ 6) × (sink.new ≡ sink.old))
        ⊎ ((status : ℕ) × (text : List ℕ) × IsReplayed capture.now status text
        × Tells K.held K.faults sink.old sink.new text status result) }
{
    let Ok(replayed) = replay(alloc, capture) else {
        return 6;
    };
    let Ok(mapped) = mapped_pages(alloc, &replayed.machine) else {
        return 6;
    };
    let written = write_replayed(&replayed, &mapped, render, sink);
    status_of(written, replay_status_of(replayed.ending))
}

fn write_replayed<K: Sink>(
    replayed: &Replayed,
    mapped: &[bool],
    render: &mut Render,
    sink: &mut K,
) -> Result<(), WriteFault>
    requires whole { IsWholeState replayed.now.machine.kept.limits (state_left replayed.now) }
    requires mapped { AreMapped replayed.now.machine.kept mapped.now }
    requires fence { replayed.now.fence ≡ replayed.now.machine.kept.fence }
    ensures { Writes K.held K.faults sink.old sink.new
        (replay_text (replay_in replayed.now)) result }
{
    render.line(
        sink,
        &Line::Commands {
            count: replayed.commands,
        },
    )?;
    render.line(
        sink,
        &Line::Fence {
            value: replayed.fence,
        },
    )?;
    render.screens(sink, replayed.machine.screens())?;
    write_pages(replayed, mapped, render, sink)?;
    write_replay_end(render, sink, replayed.ending)
}

// Writes the pages that stand in a region, but for those that are all 0.
fn write_pages<K: Sink>(
    replayed: &Replayed,
    mapped: &[bool],
    render: &mut Render,
    sink: &mut K,
) -> Result<(), WriteFault>
    requires whole { IsWholeState replayed.now.machine.kept.limits (state_left replayed.now) }
    requires mapped { AreMapped replayed.now.machine.kept mapped.now }
    ensures { Writes K.held K.faults sink.old sink.new
        (pages_text replayed.now.pages (region_keys replayed.now.machine.kept)) result }
{
    let limits = replayed.machine.limits();
    write_guest_pages(&replayed.pages, mapped, limits.pages, render, sink)?;
    write_frame_pages(&replayed.pages, limits.frame_pages(), render, sink)
}

// Writes the pages of guest memory that are mapped.
fn write_guest_pages<K: Sink>(
    pages: &MemPages,
    mapped: &[bool],
    count: u32,
    render: &mut Render,
    sink: &mut K,
) -> Result<(), WriteFault>
    requires answers { length mapped.now ≡ count }
    requires there { (p : ℕ) → p < count → HasPage pages.now (key.Guest p) }
    ensures { Writes K.held K.faults sink.old sink.new
        (flat_map (mapped_page pages.now mapped.now) (range_with_len 0 count)) result }
{
    for p in 0..count {
        if mapped[p as usize] {
            write_page(pages, PageKey::Guest(p), render, sink)?;
        }
    }
    Ok(())
}

// Writes the pages of the framebuffer.
fn write_frame_pages<K: Sink>(
    pages: &MemPages,
    count: u32,
    render: &mut Render,
    sink: &mut K,
) -> Result<(), WriteFault>
    requires { (g : ℕ) → g < count → HasPage pages.now (key.Frame g) }
    ensures { Writes K.held K.faults sink.old sink.new
        (flat_map (λ g. shown_page pages.now (key.Frame g)) (range_with_len 0 count)) result }
{
    for number in 0..count {
        write_page(pages, PageKey::Frame(number), render, sink)?;
    }
    Ok(())
}

// Writes a page, but for one that is all 0.
fn write_page<K: Sink>(
    pages: &MemPages,
    key: PageKey,
    render: &mut Render,
    sink: &mut K,
) -> Result<(), WriteFault>
    requires { HasPage pages.now key }
    ensures { Writes K.held K.faults sink.old sink.new (shown_page pages.now key) result }
{
    let page = pages.page(key);
    if are_zeros(page.bytes()) {
        Ok(())
    } else {
        render.page(sink, key, page)
    }
}

fn are_zeros(bytes: &[u8]) -> bool
    ensures { result ≡ list_all (λ byte. byte == 0) bytes.now }
{
    bytes.iter().all(|byte| *byte == 0)
}

// Says how a replay ended.
fn write_replay_end<K: Sink>(
    render: &mut Render,
    sink: &mut K,
    ending: ReplayEnd,
) -> Result<(), WriteFault>
    ensures { Writes K.held K.faults sink.old sink.new (replay_end_text ending) result }
{
    let line = match ending {
        ReplayEnd::Whole => Line::End,
        ReplayEnd::Refused { word, cause } => Line::RefusedWord {
            word,
            cause: name_of_cause(cause),
        },
        ReplayEnd::Torn { word } => Line::TornWord { word },
        ReplayEnd::Fault { command, fault } => Line::FaultAt {
            command,
            number: fault.number(),
            name: name_of_fault(fault),
        },
    };
    render.line(sink, &line)
}

fn replay_status_of(ending: ReplayEnd) -> u8
    ensures { result ≡ replay_status ending }
{
    match ending {
        ReplayEnd::Whole => 0,
        ReplayEnd::Refused { .. } => 3,
        ReplayEnd::Torn { .. } => 3,
        ReplayEnd::Fault { .. } => 1,
    }
}
