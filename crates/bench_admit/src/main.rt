//! Admits one blit many times, so that `bench/admit.py` can time it.
//!
//! Its argument says how wide the blit is: `wide` is 8,192 pixels, and anything else, or nothing, is one
//! pixel. It has 4,096 rows, each at the beginning of pages of its own.
#![tactic(auto)]

use std::alloc::{AllocError, Global};
use std::{env, io};
use svga_cmd::{Blit, CommandRef, EntriesRef, Format, Gmrfb, Limits, Point, Rect, ScreenDef};
use svga_shape::Shape;

/// How often the blit is admitted.
const TURNS: u32 = 5000;

fn main(rt: HostRuntime) -> Result<(), io::Error> {
    let mut arguments = env::args(&rt)?;
    let _program = arguments.next();
    let width = match arguments.next() {
        Some(work) => width_of(work.as_str()),
        None => 1,
    };
    match prepared(rt.alloc()) {
        Ok(shape) => println!(rt; "{}", admitted(&shape, width)),
        Err(_) => println!(rt; "no memory"),
    }
}

fn width_of(work: &str) -> i32 {
    match work {
        "wide" => 8192,
        _ => 1,
    }
}

/// A screen of 8,192 by 4,096 pixels, and a region of 256 MiB whose places are all one page.
fn prepared(alloc: Global) -> Result<Shape, AllocError> {
    let limits = Limits {
        pages: 16384,
        gfb_width: 1,
        gfb_height: 1,
        budget: 33554432,
    };
    let mut shape = Shape::new(alloc, limits)?;
    let commands = [
        CommandRef::DefineScreen(ScreenDef {
            id: 0,
            flags: 1,
            width: 8192,
            height: 4096,
            x: 0,
            y: 0,
            backing: None,
        }),
        CommandRef::DefineGmr2 {
            region: 1,
            pages: 65536,
        },
        CommandRef::RemapGmr2 {
            region: 1,
            offset: 0,
            pages: 65536,
            entries: EntriesRef::SinglePpn32(0),
        },
        CommandRef::DefineGmrfb(Gmrfb {
            region: 1,
            offset: 0,
            pitch: 4 * 8192,
            format: Format::Bgrx32,
        }),
    ];
    for command in commands {
        if shape.admit(&command).is_ok() {
            shape.apply(&command);
        }
    }
    Ok(shape)
}

/// How often the blit of all rows was admitted.
fn admitted(shape: &Shape, width: i32) -> u32 {
    let blit = CommandRef::BlitToScreen(Blit {
        point: Point { x: 0, y: 0 },
        rect: Rect {
            left: 0,
            top: 0,
            right: width,
            bottom: 4096,
        },
        screen: 0,
    });
    let mut count = 0u32;
    for _ in 0..TURNS {
        if shape.admit(&blit).is_ok() {
            count = count.wrapping_add(1);
        }
    }
    count
}
