//! Goes through one row of 4,096 pixels again and again, so that `bench/pixels.py` can time it.
//!
//! Its arguments are the work (`read`, `write` or `copy`), a format (`32`, `24`, `16` or `15`) and how
//! often. With no arguments each format is read and written once.
#![tactic(auto)]

use std::{env, io};
use svga_cmd::Format;
use svga_pixel::{pixel_length, read_row, write_row};

const PIXELS: usize = 4096;

const FORMATS: [Format; 4] = [
    Format::Bgrx32,
    Format::Bgr24,
    Format::Rgb565,
    Format::Rgb555,
];

fn main(rt: HostRuntime) -> Result<(), io::Error> {
    let mut words = env::args(&rt)?;
    let _program = words.next();
    let (work, format, rounds) = (words.next(), words.next(), words.next());
    let rounds = rounds
        .and_then(|text| text.parse::<u32>().ok())
        .unwrap_or(1);
    let sum = match (work, format) {
        (Some(work), Some(format)) => run(work.as_str(), format.as_str(), rounds),
        _ => each_once(),
    };
    println!(rt; "{sum}")
}

/// Every work at every format, once.
fn each_once() -> u32 {
    let mut sum = 0;
    for format in FORMATS {
        sum = add(sum, read(format, 1));
        sum = add(sum, write(format, 1));
        sum = add(sum, copy(format, 1));
    }
    sum
}

fn run(work: &str, format: &str, rounds: u32) -> u32 {
    let format = format_named(format);
    match work {
        "read" => read(format, rounds),
        "write" => write(format, rounds),
        _ => copy(format, rounds),
    }
}

fn format_named(name: &str) -> Format {
    match name {
        "24" => Format::Bgr24,
        "16" => Format::Rgb565,
        "15" => Format::Rgb555,
        _ => Format::Bgrx32,
    }
}

fn add(a: u32, b: u32) -> u32 {
    a.wrapping_add(b)
}

/// Reads the row so often, and sums a colour of each time.
fn read(format: Format, rounds: u32) -> u32 {
    let mut bytes = [0x5A; 4 * PIXELS];
    let mut colours = [0; PIXELS];
    let mut sum = 0;
    for round in 0..rounds {
        let place = round as usize % PIXELS;
        bytes[place] = (round % 256) as u8;
        read_row(
            format,
            &bytes[..PIXELS * pixel_length(format)],
            &mut colours,
        );
        sum = add(sum, colours[place]);
    }
    sum
}

/// Writes the row so often, and sums a byte of each time.
fn write(format: Format, rounds: u32) -> u32 {
    let mut bytes = [0x5A; 4 * PIXELS];
    let mut colours = [0; PIXELS];
    read_row(Format::Bgrx32, &bytes, &mut colours);
    let mut sum = 0;
    for round in 0..rounds {
        write_row(
            format,
            &colours,
            &mut bytes[..PIXELS * pixel_length(format)],
        );
        sum = add(sum, u32::from(bytes[round as usize % PIXELS]));
    }
    sum
}

/// Copies as many bytes so often, and sums a byte of each time.
fn copy(format: Format, rounds: u32) -> u32 {
    let mut from = [0x5A; 4 * PIXELS];
    let mut to = [0; 4 * PIXELS];
    let length = PIXELS * pixel_length(format);
    let mut sum = 0;
    for round in 0..rounds {
        let place = round as usize % PIXELS;
        from[place] = (round % 256) as u8;
        to[..length].copy_from_slice(&from[..length]);
        sum = add(sum, u32::from(to[place]));
    }
    sum
}
