//! A device on its thread.
ghost use Rattle.std.specs.Prelude.{◌≡◌};
ghost use Rattle.svga_pair.specs.RaceDevices.{RunsOn};
ghost use Rattle.svga_ring.specs.Conditions.{MayJoin};

use crossbeam_utils::Backoff;
use std::snapshot::Snapshot;
use std::sync::atomic::{AtomicBool, Ordering};
use std::sync::{Arc, Wait};
use std::thread::Promise;
use svga_device::{Device, Stepped};
use svga_head::Head;

/// Steps a device until its driver has stopped and all that was sent is taken.
pub(crate) fn run_device<R: Wait, B: Head>(rt: &R, device: Device<B>) -> Device<B>
    ensures runs { RunsOn device result }
    ensures ended { MayJoin result.view }
{
    let mut device = device;
    let backoff = Backoff::new();
    for _ in rt.forever() {
        match device.step() {
            Stepped::Ran => backoff.reset(),
            Stepped::Answered => backoff.reset(),
            Stepped::Idle { next: _ } => backoff.snooze(),
            Stepped::Stopped => return device,
        }
    }
    unreachable!()
}

/// Runs a device, unless it is not on a thread of its own: then the device comes back as it is.
pub(crate) fn run_beside<R: Wait + Copy, B: Head>(
    rt: R,
    alone: Arc<AtomicBool>,
    device: Device<B>,
) -> Device<B>
    ensures { RunsOn device result }
{
    if alone.load(Ordering::SeqCst) {
        return device;
    }
    run_device(&rt, device)
}

/// The device that a thread gives back is the one that it was given, some steps further.
#[derive(Drop)]
pub(crate) struct GivesBack<B: Head>(pub(crate) Snapshot<Device<B>>);

impl<B: Head> Promise<Device<B>> for GivesBack<B> {
    ghost use Rattle.svga_pair.specs.RaceDevices.{RunsOn};

    ghost kept_by = { λ p device. RunsOn p.0.value device };
}
