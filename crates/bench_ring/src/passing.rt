//! A session of two threads.
ghost use Rattle.bench_ring.specs.Passing.{IsWaiting};
ghost use Rattle.std.specs.Prelude.{◌≤◌, ◌^◌};

use crate::receiving::take_all;
use crate::sending::send_all;
use std::alloc::Global;
use std::sync::Wait;
use std::thread::Threads;
use std::{io, thread};
use svga_cmd::{Limits, Session, Way};
use svga_link::make;

// The smallest ring.
pub const RING: u32 = 11404;

pub const LIMITS: Limits = Limits {
    pages: 2,
    gfb_width: 8,
    gfb_height: 2,
    budget: 64,
};

/// How many of so many commands are found on the other thread as they were sent.
pub fn pass<R: Threads + Wait + Copy + Send + 'static>(
    rt: R,
    alloc: Global,
    way: Way,
    count: u32,
) -> io::Result<u32>
    requires { count ≤ 2 ^ 20 }
{
    let Some(session) = Session::new(RING, LIMITS, 1, way) else {
        return Ok(0);
    };
    let (mut driver, device) = make(alloc, &session)?;
    let child = thread::spawn(
        &rt,
        move || -> u32
            requires { IsWaiting device.view }
        { take_all(rt, device, 1, count) },
    )?;
    send_all(&rt, &mut driver, 1, count);
    Ok(child.join(&rt))
}
