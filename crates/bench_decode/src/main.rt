//! Reads the standard input and goes over its words once, so that `bench/decode.py` can time it.
//!
//! Its argument is the work: `feed` gives each word to the decoder and counts the commands, `scan` counts
//! them where the words stand, `sum` adds the words up, and anything else, or nothing, only reads.
#![tactic(auto)]

ghost use Rattle.svga_decode.specs.DecoderStates.{IsReady};

use byteorder::{ByteOrder, LittleEndian};
use std::{env, io};
use svga_cmd::constants::{MAX_INPUT_BYTES, MAX_INPUT_WORDS};
use svga_decode::{Decoder, Fed, scan};
use svga_io::{StdSource, read_all};

fn main(rt: HostRuntime) -> Result<(), io::Error> {
    let mut arguments = env::args(&rt)?;
    let _program = arguments.next();
    let work = arguments.next();
    let mut source = StdSource::new(rt.reader());
    let Ok(bytes) = read_all(rt.alloc(), &mut source, MAX_INPUT_BYTES) else {
        return println!(rt; "no words");
    };
    let mut words = vec![in rt.alloc(); 0; bytes.len() / 4]?;
    LittleEndian::read_u32_into(&bytes[..4 * words.len()], &mut words);
    let mut decoder = Decoder::new(rt.alloc())?;
    let count = match work {
        Some(work) => run(work.as_str(), &mut decoder, &words),
        None => 0,
    };
    println!(rt; "{count}")
}

fn run(work: &str, decoder: &mut Decoder, words: &[u32]) -> u32
    requires { IsReady decoder.old }
{
    match work {
        "feed" => feed(decoder, words),
        "scan" if words.len() <= MAX_INPUT_WORDS => scan(decoder, words).commands,
        "sum" => sum(words),
        _ => 0,
    }
}

/// Feeds every word, and counts the commands.
fn feed(decoder: &mut Decoder, words: &[u32]) -> u32 {
    let mut commands = 0u32;
    for word in words {
        if let Fed::Whole = decoder.feed(*word) {
            commands = commands.wrapping_add(1);
        }
    }
    commands
}

fn sum(words: &[u32]) -> u32 {
    let mut sum = 0u32;
    for word in words {
        sum = sum.wrapping_add(*word);
    }
    sum
}
