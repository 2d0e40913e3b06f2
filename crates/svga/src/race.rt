//! The text of a race: what the acts of a script mean.
ghost use Rattle.std.specs.Prelude.{◌≡◌, ◌≤◌, ◌⊎◌, ℕ, List, None, length};
ghost use Rattle.svga.specs.HeadsLeft.{AreLeft};
ghost use Rattle.svga.specs.Inputs.{TellsInput};
ghost use Rattle.svga.specs.RaceStatus.{race_status};
ghost use Rattle.svga.specs.declared.form.Form.TheVariants as form;

use crate::ended::{EndedOf, status_of};
use std::alloc::Global;
use std::sync::Wait;
use std::thread::Threads;
use svga_cmd::constants::MAX_INPUT_BYTES;
use svga_head::{Head, HeadsOf};
use svga_io::Sink;
use svga_pair::{NoRace, RaceEnd, Raced, race};
use svga_script::{Script, ScriptFault, read_script};
use svga_text::{Line, Render, name_of_script_cause};

/// Does the script in these bytes on a driver beside its device, and writes what it means, or where the bytes
/// are no script. Where there is no memory for it nothing is written, and the status is 6.
pub fn write_race<R: Threads + Wait + Copy + Send + 'static, B: Head + Send + 'static, K: Sink>(
    rt: &R,
    alloc: Global,
    bytes: &[u8],
    heads: HeadsOf<B>,
    sink: &mut K,
) -> EndedOf<B>
    requires { length bytes.now ≤ MAX_INPUT_BYTES }
    ensures told { TellsInput K.held K.faults sink.old sink.new form.Race bytes.now
        result.status result.race }
    ensures heads { AreLeft B.state result.race heads result.heads }
{
    let Ok(mut render) = Render::new(alloc) else {
        return without_race(6, heads);
    };
    match read_script(alloc, bytes) {
        Ok(script) => match race(rt, alloc, &script, heads, &mut render, sink) {
            Ok(end) => with_race(end),
            Err(NoRace { heads }) => without_race(6, heads),
        },
        Err(
            ScriptFault::Line {
                number,
                column,
                cause,
            },
        ) => {
            let line = Line::ScriptLine {
                line: number,
                column,
                cause: name_of_script_cause(cause),
            };
            without_race(status_of(render.line(sink, &line), 3), heads)
        }
        Err(ScriptFault::Memory) => without_race(6, heads),
    }
}

// How the program ends where it ran no session.
fn without_race<B>(status: u8, heads: HeadsOf<B>) -> EndedOf<B>
    ensures status { result.status ≡ status }
    ensures race { result.race ≡ None }
    ensures heads { result.heads ≡ heads }
{
    EndedOf {
        status,
        race: None,
        heads,
    }
}

// How it ends behind a session.
fn with_race<B>(end: RaceEnd<B>) -> EndedOf<B>
    ensures status { result.status ≡ race_status end.raced }
    ensures race { result.race ≡ Some end.closed }
    ensures heads { result.heads ≡ end.heads }
{
    let status = race_status(&end.raced);
    EndedOf {
        status,
        race: Some(end.closed),
        heads: end.heads,
    }
}

// 5 where writing failed, else 1 where an act was refused.
fn race_status(raced: &Raced) -> u8
    ensures { result ≡ race_status raced.now }
{
    if raced.write_fault {
        5
    } else if raced.refused.is_some() {
        1
    } else {
        0
    }
}
