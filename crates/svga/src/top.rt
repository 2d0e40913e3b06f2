//! The top call: all that the program does, over any source and any sink.
ghost use Rattle.std.specs.Prelude.{◌≡◌, ◌≤◌, Bool, IfErr, IfOk, List, None, String, length, true};
ghost use Rattle.std.specs.declared.alloc.Global.{Global as Allocator};
ghost use Rattle.svga.specs.Due.{IsEnded, IsRun, WasHad, source_tells};
ghost use Rattle.svga.specs.Forms.{AsksFor, every_form, IsAsked, plain_form};
ghost use Rattle.svga.specs.HeadsLeft.{AreLeft};
ghost use Rattle.svga.specs.Inputs.{TellsInput};
ghost use Rattle.svga.specs.Telling.{Tells};
ghost use Rattle.svga.specs.declared.form.Form.{Form as FormValue};
ghost use Rattle.svga.specs.declared.form.Form.TheVariants as form;

use crate::ended::{EndedOf, status_of};
use crate::form::{Form, asks_for_race, plain_form_of};
use crate::race::write_race;
use crate::replay::write_replay;
use crate::report::write_report;
use std::alloc::Global;
use std::sync::Wait;
use std::thread::Threads;
use svga_cmd::constants::MAX_INPUT_BYTES;
use svga_head::{Head, HeadsOf};
use svga_io::{InFault, Sink, Source, read_all, write_all};

/// Runs the program with these words on this source and this sink, and these heads at the outputs of its
/// device. For `race` it waits for another thread.
pub fn top<R: Threads + Wait + Copy + Send + 'static, B: Head + Send + 'static, S: Source, K: Sink>(
    rt: &R,
    alloc: Global,
    words: &[String],
    source: &mut S,
    sink: &mut K,
    heads: HeadsOf<B>,
) -> EndedOf<B>
    ensures ended { IsEnded every_form words.now S.left S.faults source.old source.new
        K.held K.faults sink.old sink.new result.status result.race }
    ensures heads { AreLeft B.state result.race heads result.heads }
{
    if asks_for_race(words) {
        return race_input(rt, alloc, source, sink, heads);
    }
    top_plain(alloc, words, source, sink, heads)
}

/// The forms of `top` that wait for nobody: all but `race`. It always returns.
pub fn top_plain<B, S: Source, K: Sink>(
    alloc: Global,
    words: &[String],
    source: &mut S,
    sink: &mut K,
    heads: HeadsOf<B>,
) -> EndedOf<B>
    ensures ended { IsEnded plain_form words.now S.left S.faults source.old source.new
        K.held K.faults sink.old sink.new result.status result.race }
    ensures race { result.race ≡ None }
    ensures heads { result.heads ≡ heads }
{
    let status = plain_status(alloc, words, source, sink);
    EndedOf {
        status,
        race: None,
        heads,
    }
}

// Does what the words ask for, unless that is a race.
fn plain_status<S: Source, K: Sink>(
    alloc: Global,
    words: &[String],
    source: &mut S,
    sink: &mut K,
) -> u8
    ensures { IsEnded plain_form words.now S.left S.faults source.old source.new
        K.held K.faults sink.old sink.new result None }
{
    let Some(form) = plain_form_of(words) else {
        return tell(sink, "usage: svga words | replay | race | gen N\n", 2);
    };
    match read_input(alloc, source, sink) {
        Ok(bytes) => write_plain(alloc, form, &bytes, sink),
        Err(status) => status,
    }
}

// Reads the input and does it as a script.
fn race_input<
    R: Threads + Wait + Copy + Send + 'static,
    B: Head + Send + 'static,
    S: Source,
    K: Sink,
>(rt: &R, alloc: Global, source: &mut S, sink: &mut K, heads: HeadsOf<B>) -> EndedOf<B>
    ensures ended { (words : List (String Allocator)) → AsksFor every_form form.Race words
        → IsEnded every_form words S.left S.faults source.old source.new
        K.held K.faults sink.old sink.new result.status result.race }
    ensures heads { AreLeft B.state result.race heads result.heads }
{
    match read_input(alloc, source, sink) {
        Ok(bytes) => write_race(rt, alloc, &bytes, heads, sink),
        Err(status) => EndedOf {
            status,
            race: None,
            heads,
        },
    }
}

// Reads the input to its end. Where it can't be had, tells why, and gives the status.
fn read_input<S: Source, K: Sink>(
    alloc: Global,
    source: &mut S,
    sink: &mut K,
) -> Result<Vec<u8>, u8>
    ensures had { IfOk result (λ bytes. (sink.new ≡ sink.old)
        × WasHad (source_tells S.left S.faults source.old source.new) bytes.items) }
    ensures told { IfErr result (λ status. (does : FormValue → Bool) (words : List (String Allocator))
        → IsAsked does words
        → IsRun does words (source_tells S.left S.faults source.old source.new)
        K.held K.faults sink.old sink.new status None) }
{
    match read_all(alloc, source, MAX_INPUT_BYTES) {
        Ok(bytes) => Ok(bytes),
        Err(InFault::ReadFault) => Err(tell(sink, "read fault\n", 4)),
        Err(InFault::TooLong) => Err(tell(sink, "too long\n", 7)),
        Err(InFault::Memory) => Err(6),
    }
}

// Writes what this form says of these bytes.
fn write_plain<K: Sink>(alloc: Global, form: Form, bytes: &[u8], sink: &mut K) -> u8
    requires length { length bytes.now ≤ MAX_INPUT_BYTES }
    requires plain { plain_form form ≡ true }
    ensures { TellsInput K.held K.faults sink.old sink.new form bytes.now result None }
{
    match form {
        Form::Words => write_report(alloc, bytes, sink),
        Form::Replay => write_replay(alloc, bytes, sink),
        Form::Race => unreachable!(),
    }
}

// Writes a text that ends the run with this status.
fn tell<K: Sink>(sink: &mut K, text: &str, status: u8) -> u8
    ensures { Tells K.held K.faults sink.old sink.new text.now status result }
{
    status_of(write_all(sink, text.as_bytes()), status)
}
