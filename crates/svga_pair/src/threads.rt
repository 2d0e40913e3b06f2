//! A race: a script's driver and its device on two threads.
ghost use Rattle.std.specs.Prelude.{◌≡◌, IfErr, IfOk, List};
ghost use Rattle.std.specs.List.{flat_map};
ghost use Rattle.svga_device.specs.Devices.{Shows};
ghost use Rattle.svga_head.specs.PlugStates.{PlugState};
ghost use Rattle.svga_model.specs.Scripts.{meaning_of};
ghost use Rattle.svga_pair.specs.Going.{IsFresh};
ghost use Rattle.svga_pair.specs.RaceDevices.{RunsOn};
ghost use Rattle.svga_pair.specs.RaceDrivers.{IsStoppedFor};
ghost use Rattle.svga_pair.specs.Races.{IsRaced};
ghost use Rattle.svga_pair.specs.Refusals.{IsTold};
ghost use Rattle.svga_pair.specs.Written.{IsWritten};
ghost use Rattle.svga_ring.specs.Conditions.{MayJoin};
ghost use Rattle.svga_text.specs.RaceTexts.{told_text};

use crate::beside::Beside;
use crate::closing::close_sides;
use crate::ending::write_end;
use crate::opening::open;
use crate::pump::Pump;
use crate::race_end::{NoRace, RaceEnd};
use crate::raced::Raced;
use crate::racing::race_script;
use crate::running::{GivesBack, run_beside, run_device};
use crate::stopping::stop;
use crate::waiter::Waiter;
use std::alloc::{AllocError, Global};
use std::snapshot::Snapshot;
use std::sync::atomic::{AtomicBool, Ordering};
use std::sync::{Arc, Wait};
use std::thread;
use std::thread::Threads;
use svga_device::Device;
use svga_driver::Driver;
use svga_head::{Head, HeadsOf};
use svga_io::Sink;
use svga_link::DriverEnd;
use svga_script::Script;
use svga_text::Render;

/// Does a script on a driver, while its device is stepped on a thread of its own, and writes what it means.
pub fn race<R: Threads + Wait + Copy + Send + 'static, B: Head + Send + 'static, K: Sink>(
    rt: &R,
    alloc: Global,
    script: &Script,
    heads: HeadsOf<B>,
    render: &mut Render,
    sink: &mut K,
) -> Result<RaceEnd<B>, NoRace<B>>
    ensures raced { IfOk result (IsRaced B.state K.held K.faults script.now heads sink.old sink.new) }
    ensures no_memory { IfErr result (λ none. (none.heads ≡ heads) × (sink.new ≡ sink.old)) }
{
    // All memory is taken here, before anything is done.
    let alone = match flags(alloc) {
        Ok(alone) => alone,
        Err(_) => return Err(NoRace { heads }),
    };
    let (driver, device) = open(alloc, script.session(), heads)?;
    let ran = run(rt, alone, driver, device, script, render, sink);
    let left = close_sides(ran.driver, ran.device);
    let mut raced = ran.raced;
    raced.write_fault = write_end(render, sink, left.machine.screens(), &raced);
    Ok(RaceEnd {
        raced,
        closed: left.closed,
        heads: left.heads,
    })
}

/// What the two sides leave.
#[derive(Drop)]
struct Ran<B: Head> {
    raced: Raced,
    driver: DriverEnd,
    device: Device<B>,
}

/// One flag, for the device's thread and for the driver's: it is set where there is no thread for the device.
fn flags(alloc: Global) -> Result<(Arc<AtomicBool>, Arc<AtomicBool>), AllocError> {
    let mine = Arc::new(alloc, AtomicBool::new(false))?;
    let theirs = Arc::try_clone(&mine)?;
    Ok((mine, theirs))
}

/// Runs the two sides until both have stopped: beside each other where a thread can be made, and else the
/// device takes a step whenever the driver waits.
fn run<R: Threads + Wait + Copy + Send + 'static, B: Head + Send + 'static, K: Sink>(
    rt: &R,
    alone: (Arc<AtomicBool>, Arc<AtomicBool>),
    driver: Driver,
    device: Device<B>,
    script: &Script,
    render: &mut Render,
    sink: &mut K,
) -> Ran<B>
    requires fresh { IsFresh script.now.session driver }
    requires one_table { device.table ≡ driver.table }
    ensures driver { IsStoppedFor script.now.session (meaning_of script.now).client result.driver }
    ensures table { result.driver.table ≡ driver.table }
    ensures device { RunsOn device result.device }
    ensures ended { MayJoin result.device.view }
    ensures refused { IsTold result.raced.refused (meaning_of script.now).refused }
    ensures text { IsWritten K.held K.faults sink.old sink.new
        (flat_map told_text (meaning_of script.now).told) result.raced.write_fault }
{
    let (mine, theirs) = alone;
    let thread = *rt;
    let gives_back = GivesBack(Snapshot::of(&device));
    match thread::spawn_with(
        rt,
        gives_back,
        move || -> Device<B>
            ensures { RunsOn device result }
        { run_beside(thread, theirs, device) },
    ) {
        Ok(child) => {
            let (raced, driver) = drive(rt, driver, script, &mut Beside::new(), render, sink);
            let device = run_device(rt, child.join(rt));
            Ran {
                raced,
                driver,
                device,
            }
        }
        Err(refused) => {
            mine.store(true, Ordering::SeqCst);
            let mut pump = Pump::new((refused.value)());
            let (raced, driver) = drive(rt, driver, script, &mut pump, render, sink);
            let device = run_device(rt, pump.into_device());
            Ran {
                raced,
                driver,
                device,
            }
        }
    }
}

/// Does a script on a driver, and stops it.
fn drive<R: Wait, W: Waiter, K: Sink>(
    rt: &R,
    driver: Driver,
    script: &Script,
    waiter: &mut W,
    render: &mut Render,
    sink: &mut K,
) -> (Raced, DriverEnd)
    requires fresh { IsFresh script.now.session driver }
    ensures driver { IsStoppedFor script.now.session (meaning_of script.now).client result.1 }
    ensures driver_table { result.1.table ≡ driver.table }
    ensures refused { IsTold result.0.refused (meaning_of script.now).refused }
    ensures text { IsWritten K.held K.faults sink.old sink.new
        (flat_map told_text (meaning_of script.now).told) result.0.write_fault }
    ensures table { W.table waiter.new ≡ W.table waiter.old }
    ensures shows { (first : List PlugState) → W.shows waiter.old first → W.shows waiter.new first }
{
    let mut driver = driver;
    let raced = race_script(rt, &mut driver, script, waiter, render, sink);
    (raced, stop(rt, driver, waiter))
}
