//! `svga words` lists the commands of the SVGA II FIFO that stand in its input. `svga replay` runs those of
//! a capture and tells what they leave. `svga race` does the acts of a script on a driver, while a device runs
//! beside it on a thread of its own.
//!
//! All that the program does is `top`, over any source and any sink. Here it gets the standard input and
//! output.
#![tactic(auto)]

mod bytes;
mod ended;
mod form;
mod listing;
mod mapped;
mod race;
#[cfg(test)]
mod race_tests;
mod replay;
#[cfg(test)]
mod replay_tests;
mod report;
#[cfg(test)]
mod side_by_side_tests;
#[cfg(test)]
mod tests;
mod top;

use std::alloc::AllocError;
use std::io::{BufWriter, Write};
use std::process::ExitCode;
use std::sync::Wait;
use std::thread::Threads;
use std::{env, io};
use svga_head::{Heads, Mirror, Plug};
use svga_io::{StdSink, StdSource};
use top::top;

/// How much text is gathered before it is written.
const PIECE: usize = 64 * 1024;

fn main(rt: HostRuntime) -> ExitCode {
    ExitCode::from(run(&rt, &rt))
}

// The words after the program's name. One that is no UTF-8 text makes the command line one of no form.
fn words_of_command_line(rt: &HostRuntime) -> Result<Vec<String>, AllocError> {
    let mut words = Vec::new(rt.alloc());
    match env::args(rt) {
        Ok(arguments) => {
            for argument in arguments.skip(1) {
                words.push(argument)?;
            }
            Ok(words)
        }
        Err(error) if error.kind() == io::ErrorKind::OutOfMemory => Err(AllocError),
        Err(_) => Ok(words),
    }
}

// The status. Where there is no memory to begin with it is 6, and nothing is written.
fn run<R: Threads + Wait + Copy + Send + 'static>(rt: &HostRuntime, threads: &R) -> u8 {
    let Ok(words) = words_of_command_line(rt) else {
        return 6;
    };
    let Ok(mut writer) = BufWriter::with_capacity(rt.alloc(), PIECE, io::writer(rt)) else {
        return 6;
    };
    // A mirror at the one output.
    let Ok(mirror) = Box::new(rt.alloc(), Mirror::new(rt.alloc())) else {
        return 6;
    };
    let mut plugs: Vec<Plug> = Vec::new(rt.alloc());
    if plugs.push(Plug::Plugged(mirror)).is_err() {
        return 6;
    }
    let mut source = StdSource::new(rt.reader());
    let mut sink = StdSink::new(&mut writer);
    let ended = top(
        threads,
        rt.alloc(),
        &words,
        &mut source,
        &mut sink,
        Heads::new(plugs),
    );
    match writer.flush() {
        Ok(()) => ended.status,
        // Nothing was written where no memory was found, so no text is lost.
        Err(_) if ended.status == 6 => 6,
        Err(_) => 5,
    }
}
