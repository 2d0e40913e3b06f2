//! A device beside a driver's end, on one thread.
ghost use Rattle.std.specs.Prelude.{◌≡◌, ◌*◌, length, false};
ghost use Rattle.svga_cmd.specs.declared.command.Command.TheVariants.{Fence};
ghost use Rattle.svga_link.specs.Reserving.{MaySend};
ghost use Rattle.svga_ring.specs.Conditions.{NoneOpen};
ghost use Rattle.svga_ring.specs.Views.{opening_device, opening_driver};

use super::*;
use std::alloc::{AllocError, Global};
use std::process::Abort;
use std::test::Fail;
use svga_cmd::constants::SVGA_CMD_FENCE;
use svga_cmd::{Limits, Session, Way};
use svga_head::{Flaky, Head, Heads, HeadsOf, Mirror, Plug};
use svga_link::{DeviceEnd, DriverEnd, make};

const LIMITS: Limits = Limits {
    pages: 2,
    gfb_width: 8,
    gfb_height: 2,
    budget: 64,
};

// A session whose first fence is 1.
fn session(rt: &impl Abort, way: Way) -> Session
    ensures { result.first ≡ 1 }
{
    Session::new(11404, LIMITS, 1, way).expect(rt, "numbers within their limits")
}

// The device of a new end, with these heads.
fn device<B: Head>(
    rt: &impl Abort,
    alloc: Global,
    end: DeviceEnd,
    session: &Session,
    heads: HeadsOf<B>,
) -> Device<B>
    requires { end.view ≡ opening_device session.now }
{
    match Device::new(alloc, end, session.limits, heads) {
        Ok(device) => device,
        Err(_) => panic!(rt; "memory"),
    }
}

// No heads.
fn no_heads(alloc: Global) -> HeadsOf<Mirror> {
    HeadsOf::new(Vec::new(alloc))
}

// Begins a reservation for a FENCE, and puts its words.
fn put_fence(rt: &impl Abort, driver: &mut DriverEnd, session: &Session)
    requires first { session.now.first ≡ 1 }
    requires view { driver.old.view ≡ opening_driver session.now }
    requires none_begun { driver.old.reserved ≡ 0 }
    ensures full { 4 * length driver.new.words ≡ driver.new.reserved }
    ensures may { MaySend driver.new.view driver.new.words (Fence 1) }
    ensures runs { driver.new.view.stopped ≡ false }
    ensures none_open { NoneOpen driver.new.view }
{
    let _reserved = driver.reserve(8).expect(rt, "room");
    driver.put(SVGA_CMD_FENCE);
    driver.put(1);
}

// Sends it.
fn send_fence(driver: &mut DriverEnd)
    requires full { 4 * length driver.old.words ≡ driver.old.reserved }
    requires may { MaySend driver.old.view driver.old.words (Fence 1) }
    requires runs { driver.old.view.stopped ≡ false }
    requires none_open { NoneOpen driver.old.view }
    ensures runs { driver.new.view.stopped ≡ false }
    ensures none_open { NoneOpen driver.new.view }
    ensures none_begun { driver.new.reserved ≡ 0 }
{
    driver.commit();
}

// A fence passes a device with these heads.
fn pass_fence<B: Head>(
    rt: &impl Abort,
    alloc: Global,
    heads: HeadsOf<B>,
) -> Result<HeadsOf<B>, AllocError> {
    let session = session(rt, Way::Reserve);
    let (mut driver, end) = make(alloc, &session)?;
    let mut device = device(rt, alloc, end, &session, heads);
    assert_eq!(rt; device.step(), Stepped::Idle { next: 1164 });
    put_fence(rt, &mut driver, &session);
    assert_eq!(rt; device.step(), Stepped::Idle { next: 1164 });
    send_fence(&mut driver);
    assert_eq!(rt; device.step(), Stepped::Ran);
    assert_eq!(rt; device.step(), Stepped::Idle { next: 1172 });
    driver.stop();
    assert_eq!(rt; device.step(), Stepped::Stopped);
    let closed = device.close();
    assert_eq!(rt; closed.machine.fence(), 1);
    Ok(closed.heads)
}

// No head is told of it: the first call of this one would fail.
#[test]
fn a_fence_is_run_once_it_is_sent(rt: HostRuntime) -> Result<(), Fail> {
    let alloc = rt.alloc();
    let mut plugs: Vec<Plug> = Vec::new(alloc);
    let flaky = Flaky::new(alloc, vec![in alloc; 0; 1]?);
    plugs.push(Plug::Plugged(Box::new(alloc, flaky)?))?;
    let heads = pass_fence(&rt, alloc, Heads::new(plugs))?;
    assert!(rt; matches!(heads.plug(0), Some(Plug::Plugged(_))));
    Ok(())
}

#[test]
fn by_dword_a_fence_is_run_and_seen(rt: HostRuntime) {
    let session = session(&rt, Way::Dword);
    let (mut driver, end) = make(rt.alloc(), &session).expect(&rt, "memory");
    let mut device = device(&rt, rt.alloc(), end, &session, no_heads(rt.alloc()));
    put_fence(&rt, &mut driver, &session);
    assert_eq!(rt; device.step(), Stepped::Idle { next: 1164 });
    send_fence(&mut driver);
    assert_eq!(rt; driver.read_fence(), 0);
    assert_eq!(rt; device.step(), Stepped::Ran);
    assert_eq!(rt; driver.read_fence(), 1);
}
