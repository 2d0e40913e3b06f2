//! How a driver stops.
ghost use Rattle.std.specs.Prelude.{◌≡◌, List, None};
ghost use Rattle.svga_driver.specs.Driving.{open_request};
ghost use Rattle.svga_head.specs.PlugStates.{PlugState};
ghost use Rattle.svga_pair.specs.RaceDrivers.{HasSettled, HasStopped};

use crate::waiter::Waiter;
use std::sync::Wait;
use svga_driver::Driver;
use svga_link::DriverEnd;

/// Waits until no request of the driver is open.
fn settle<R: Wait, W: Waiter>(rt: &R, driver: &mut Driver, waiter: &mut W)
    ensures none_open { open_request driver.new.view ≡ None }
    ensures settled { HasSettled driver.old driver.new }
    ensures table { W.table waiter.new ≡ W.table waiter.old }
    ensures shows { (first : List PlugState) → W.shows waiter.old first → W.shows waiter.new first }
{
    for _ in rt.forever() {
        match driver.settle() {
            Ok(()) => return,
            Err(_) => waiter.turn(rt),
        }
    }
    unreachable!()
}

/// Stops a driver, once no request of it is open.
pub(crate) fn stop<R: Wait, W: Waiter>(rt: &R, driver: Driver, waiter: &mut W) -> DriverEnd
    ensures stopped { HasStopped driver result }
    ensures table { W.table waiter.new ≡ W.table waiter.old }
    ensures shows { (first : List PlugState) → W.shows waiter.old first → W.shows waiter.new first }
{
    let mut driver = driver;
    settle(rt, &mut driver, waiter);
    match driver.close() {
        Ok(end) => end,
        Err(_) => unreachable!(),
    }
}
