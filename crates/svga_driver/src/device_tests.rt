//! Sessions of a driver beside a device's end: a chain waits for what was sent, and its request is out until it
//! is answered; and 65,536 fences may be unseen.
ghost use Rattle.std.specs.FinMap as map;
ghost use Rattle.std.specs.Prelude.{◌≡◌, ◌*◌, ◌≤◌, [], length};
ghost use Rattle.svga_driver.specs.Driving.{MAX_SENT_WORDS};

use crate::tests::{Call, answer, ends};
use crate::{Driver, DriverFault, Posted};
use std::process::Abort;
use svga_cmd::constants::SVGA_CMD_FENCE;
use svga_link::DeviceEnd;

// The device takes the FENCE that was sent.
fn take_fence(rt: &impl Abort, device: &mut DeviceEnd)
    requires none_read { device.old.view.read ≡ [] }
    requires none_noted { device.old.view.noted ≡ map.empty }
    ensures none_read { device.new.view.read ≡ [] }
    ensures none_noted { device.new.view.noted ≡ map.empty }
{
    device.read_next();
    assert!(rt; device.known() >= 2);
    let id = device.next_word();
    if id != SVGA_CMD_FENCE {
        panic!(rt; "a FENCE was sent");
    }
    let number = device.next_word();
    device.store_fence(number);
    device.store_stop();
}

// The device answers the request that is out, whose chain has no table page.
fn answer_request(rt: &impl Abort, device: &mut DeviceEnd)
    requires none_noted { device.old.view.noted ≡ map.empty }
{
    match device.read_request() {
        None => panic!(rt; "a request is out"),
        Some(request) => {
            if request.descriptor != 0 {
                panic!(rt; "the chain has no table page");
            }
            device.reply(request.number);
        }
    }
}

#[test]
fn a_chain_waits_for_what_was_sent(rt: HostRuntime) {
    let (mut driver, mut device) = ends(&rt, rt.alloc(), 1);
    assert!(rt; driver.fence().is_ok());
    assert_eq!(rt;
        driver.describe(1, 0),
        Err(DriverFault::Busy {
            stop: 1164,
            next: 1172,
        })
    );
    take_fence(&rt, &mut device);
    assert_eq!(rt; driver.describe(1, 0), Ok(Posted { request: 1 }));
    assert_eq!(rt;
        driver.settle(),
        Err(DriverFault::Asked {
            request: 1,
            reply: 0,
        })
    );
    answer_request(&rt, &mut device);
    assert_eq!(rt; driver.settle(), Ok(()));
    assert!(rt; driver.close().is_ok());
}

// So many fences are sent, each of which the device takes before the next.
fn take_fences(rt: &impl Abort, driver: &mut Driver, device: &mut DeviceEnd, count: u32)
    requires none_sent { driver.old.view.sent ≡ [] }
    requires few { count ≤ 65536 }
    requires none_read { device.old.view.read ≡ [] }
    requires none_noted { device.old.view.noted ≡ map.empty }
    ensures { length driver.new.view.sent ≤ MAX_SENT_WORDS * 65536 }
{
    for k in 0..count {
        let _ = k;
        assert!(rt; answer(driver, &Call::Fence).is_ok());
        take_fence(rt, device);
    }
}

#[test]
fn at_most_65536_fences_are_unseen(rt: HostRuntime) {
    let (mut driver, mut device) = ends(&rt, rt.alloc(), 1);
    take_fences(&rt, &mut driver, &mut device, 65536);
    assert_eq!(rt;
        answer(&mut driver, &Call::Fence),
        Err(DriverFault::FenceWindow)
    );
    assert_eq!(rt; answer(&mut driver, &Call::Poll), Ok(65536));
    assert_eq!(rt; answer(&mut driver, &Call::Fence), Ok(65537));
    assert!(rt; driver.close().is_ok());
}
