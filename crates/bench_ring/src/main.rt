//! Passes commands through the ring of a session, from one thread to another, and lends pages and takes them
//! back, so that `bench/ring.py` and `bench/pages.py` can time it.
//!
//! Its arguments are what it does, `reserve` or `dword`, by which it sends commands, or `pages`, and how many
//! commands it sends, or how many times it lends some pages. Without arguments it does all of that for some
//! thousands, and sends commands past the ring's end on one thread.
#![tactic(auto)]

mod commands;
mod pages;
mod passing;
mod receiving;
mod sending;
mod wrapping;

use crate::pages::{MOST_TURNS, TURNS, lend_all};
use crate::passing::pass;
use crate::wrapping::wrap;
use std::{env, io};
use svga_cmd::Way;

// By each way, where no way is named.
const COMMANDS: u32 = 10_000;

// Fences are one in 16, and at most 65,536 of them.
const MOST_COMMANDS: u32 = 1_000_000;

// Behind the first command of 3 words, so many of 5 go past the ring's end once.
const WRAPPING: u32 = 512;

// The number that is named, 0 where that is none; or else this one.
fn number(named: &Option<String>, other: u32) -> u32 {
    match named {
        Some(named) => named.as_str().parse::<u32>().unwrap_or(0),
        None => other,
    }
}

fn main(rt: HostRuntime) -> Result<(), io::Error> {
    let mut arguments = env::args(&rt)?;
    let _program = arguments.next();
    let named = arguments.next();
    let count = arguments.next();
    let named = match &named {
        Some(named) => named.as_str(),
        None => "",
    };
    let commands = number(&count, COMMANDS).min(MOST_COMMANDS);
    if named == "" || named == "reserve" {
        let found = pass(rt, rt.alloc(), Way::Reserve, commands)?;
        println!(rt;
            "by reservations {found} of {commands} commands are found whole and in order"
        )?;
    }
    if named == "" || named == "dword" {
        let found = pass(rt, rt.alloc(), Way::Dword, commands)?;
        println!(rt; "dword by dword {found} of {commands} commands are found whole and in order")?;
    }
    if named == "" {
        match wrap(&rt, rt.alloc(), WRAPPING)? {
            Some(last) => println!(rt;
                "{} bytes at {}, {} of them before the ring's end, leave NEXT_CMD {}",
                last.reserved.bytes, last.reserved.at, last.reserved.first, last.next
            )?,
            None => println!(rt; "a command isn't found as it was sent")?,
        }
    }
    if named == "" || named == "pages" {
        let turns = number(&count, TURNS).min(MOST_TURNS);
        let found = lend_all(rt, rt.alloc(), turns)?;
        println!(rt; "{found} pages are lent and taken back behind fences with their bytes")?;
    }
    Ok(())
}
