//! Blits of 1,024 by 1,024 pixels to a screen and back, again and again, so that `bench/blits.py` can time
//! them.
//!
//! Its arguments are the work (`show`, `back` or `copy`), a format (`32`, `24`, `16` or `15`) and how
//! often. With no arguments each format is shown and read back once.
#![tactic(auto)]

ghost use Rattle.std.specs.Prelude.{◌≤◌};
ghost use Rattle.svga_cmd.specs.Lent.{command_of};
ghost use Rattle.svga_cmd.specs.WellFormed.{IsWellFormed};

use std::alloc::{AllocError, Global};
use std::{env, io};
use svga_cmd::{Blit, CommandRef, EntriesRef, Format, Gmrfb, Limits, Point, Rect, ScreenDef};
use svga_machine::Display;

const SIDE: i32 = 1024;

/// How many pages a region takes that has a whole picture in the longest format.
const PAGES: usize = 1024;

const LIMITS: Limits = Limits {
    pages: 1024,
    gfb_width: 1,
    gfb_height: 1,
    budget: 1048576,
};

const FORMATS: [Format; 4] = [
    Format::Bgrx32,
    Format::Bgr24,
    Format::Rgb565,
    Format::Rgb555,
];

fn main(rt: HostRuntime) -> Result<(), io::Error> {
    let mut words = env::args(&rt)?;
    let _program = words.next();
    let (work, format, rounds) = (words.next(), words.next(), words.next());
    let rounds = rounds
        .and_then(|text| text.parse::<u32>().ok())
        .unwrap_or(1);
    let count = match (work, format) {
        (Some(work), Some(format)) => run(rt.alloc(), work.as_str(), format.as_str(), rounds),
        _ => each_once(rt.alloc()),
    };
    match count {
        Ok(count) => println!(rt; "{count}"),
        Err(_) => println!(rt; "no memory"),
    }
}

/// How many blits were done, each way at every format once.
fn each_once(alloc: Global) -> Result<u32, AllocError> {
    let mut count = 0u32;
    for format in FORMATS {
        let mut display = prepared(alloc, format)?;
        count = count.wrapping_add(blits(&mut display, &shown(), 1));
        count = count.wrapping_add(blits(&mut display, &read_back(), 1));
    }
    Ok(count)
}

fn run(alloc: Global, work: &str, format: &str, rounds: u32) -> Result<u32, AllocError> {
    let format = format_named(format);
    match work {
        "copy" => copies(alloc, format, rounds),
        "back" => {
            let mut display = prepared(alloc, format)?;
            Ok(blits(&mut display, &read_back(), rounds))
        }
        _ => {
            let mut display = prepared(alloc, format)?;
            Ok(blits(&mut display, &shown(), rounds))
        }
    }
}

fn format_named(name: &str) -> Format {
    match name {
        "24" => Format::Bgr24,
        "16" => Format::Rgb565,
        "15" => Format::Rgb555,
        _ => Format::Bgrx32,
    }
}

fn bytes_of_pixel(format: Format) -> u32
    ensures { result ≤ 4 }
{
    match format {
        Format::Bgrx32 => 4,
        Format::Bgr24 => 3,
        Format::Rgb565 | Format::Rgb555 => 2,
    }
}

/// A screen, and a GMRFB of its size over pages of which none is mapped twice.
fn prepared(alloc: Global, format: Format) -> Result<Display, AllocError> {
    let mut display = Display::new(alloc, LIMITS)?;
    let mut pages = [0u32; PAGES];
    for page in 0..PAGES {
        pages[page] = page as u32;
    }
    let _ = display.run(&screen());
    let _ = display.run(&CommandRef::DefineGmr2 {
        region: 1,
        pages: 1024,
    });
    let _ = display.run(&CommandRef::RemapGmr2 {
        region: 1,
        offset: 0,
        pages: 1024,
        entries: EntriesRef::Ppn32(&pages),
    });
    let _ = display.run(&CommandRef::DefineGmrfb(Gmrfb {
        region: 1,
        offset: 0,
        pitch: 1024 * bytes_of_pixel(format),
        format,
    }));
    Ok(display)
}

fn screen() -> CommandRef<'static>
    ensures { IsWellFormed (command_of result) }
{
    CommandRef::DefineScreen(ScreenDef {
        id: 0,
        flags: 1,
        width: 1024,
        height: 1024,
        x: 0,
        y: 0,
        backing: None,
    })
}

fn whole() -> Blit {
    Blit {
        point: Point { x: 0, y: 0 },
        rect: Rect {
            left: 0,
            top: 0,
            right: SIDE,
            bottom: SIDE,
        },
        screen: 0,
    }
}

fn shown() -> CommandRef<'static>
    ensures { IsWellFormed (command_of result) }
{
    CommandRef::BlitToScreen(whole())
}

fn read_back() -> CommandRef<'static>
    ensures { IsWellFormed (command_of result) }
{
    CommandRef::BlitToGmrfb(whole())
}

/// How often the command was done of so many times.
fn blits(display: &mut Display, command: &CommandRef<'_>, rounds: u32) -> u32
    requires { IsWellFormed (command_of command.now) }
{
    let mut count = 0u32;
    for _ in 0..rounds {
        if display.run(command).is_ok() {
            count = count.wrapping_add(1);
        }
    }
    count
}

/// Copies as many bytes as a blit moves, so many times.
fn copies(alloc: Global, format: Format, rounds: u32) -> Result<u32, AllocError> {
    let length = (1024 * 1024 * bytes_of_pixel(format)) as usize;
    let mut from = buffer(alloc, length)?;
    let mut to = buffer(alloc, length)?;
    let mut count = 0u32;
    for round in 0..rounds {
        count = count.wrapping_add(copy(&mut from, &mut to, round));
    }
    Ok(count)
}

fn buffer(alloc: Global, length: usize) -> Result<Vec<u8>, AllocError> {
    vec![in alloc; 0; length]
}

/// Copies the bytes, of which the first is new in each round. Answers 1 where there were any.
fn copy(from: &mut [u8], to: &mut [u8], round: u32) -> u32 {
    if let Some(first) = from.first_mut() {
        *first = (round % 256) as u8;
    }
    if to.len() == from.len() {
        to.copy_from_slice(from);
    }
    match to.first() {
        Some(first) => u32::from(*first) / 256 + 1,
        None => 0,
    }
}
