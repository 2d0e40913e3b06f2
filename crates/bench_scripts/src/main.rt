//! Reads the standard input and goes over it once, so that `bench/scripts.py` can time it.
//!
//! Its argument is the work: `script` reads a script and counts its acts, `lines` counts the line feeds, and
//! anything else, or nothing, only reads.
#![tactic(auto)]

ghost use Rattle.std.specs.Prelude.{◌≤◌, length};

use std::alloc::Global;
use std::{env, io};
use svga_cmd::constants::MAX_INPUT_BYTES;
use svga_io::{StdSource, read_all};
use svga_script::read_script;

fn main(rt: HostRuntime) -> Result<(), io::Error> {
    let mut arguments = env::args(&rt)?;
    let _program = arguments.next();
    let work = arguments.next();
    let mut source = StdSource::new(rt.reader());
    let Ok(bytes) = read_all(rt.alloc(), &mut source, MAX_INPUT_BYTES) else {
        return println!(rt; "no script");
    };
    let count = match work {
        Some(work) => run(rt.alloc(), work.as_str(), &bytes),
        None => 0,
    };
    println!(rt; "{count}")
}

fn run(alloc: Global, work: &str, bytes: &[u8]) -> usize
    requires { length bytes.now ≤ MAX_INPUT_BYTES }
{
    match work {
        "script" => acts(alloc, bytes),
        "lines" => bytes.iter().filter(|byte| **byte == b'\n').count(),
        _ => 0,
    }
}

/// How many acts a script has, and 0 where it is none.
fn acts(alloc: Global, bytes: &[u8]) -> usize
    requires { length bytes.now ≤ MAX_INPUT_BYTES }
{
    match read_script(alloc, bytes) {
        Ok(script) => script.len() as usize,
        Err(_) => 0,
    }
}
