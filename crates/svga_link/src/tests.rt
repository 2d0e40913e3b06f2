//! Worked values of the ends.
use super::*;
use std::process::Abort;
use svga_cmd::{Limits, Session, Way};

fn session(rt: &impl Abort, way: Way) -> Session {
    let limits = Limits {
        pages: 2,
        gfb_width: 8,
        gfb_height: 2,
        budget: 64,
    };
    Session::new(11404, limits, 1, way).expect(rt, "numbers within their limits")
}

#[test]
fn ten_bytes_are_unaligned(rt: HostRuntime) {
    let (mut driver, _device) = make(rt.alloc(), &session(&rt, Way::Reserve)).expect(&rt, "memory");
    assert!(rt; driver.reserve(10) == Err(ReserveFault::Unaligned));
}

#[test]
fn words_put_in_place_are_not_sent(rt: HostRuntime) {
    let (mut driver, mut device) = make(rt.alloc(), &session(&rt, Way::Reserve)).expect(
        &rt, "memory",
    );
    let reserved = driver.reserve(20).expect(&rt, "room");
    assert_eq!(rt; reserved.at, 1164);
    assert_eq!(rt; reserved.first, 20);
    driver.put(36);
    driver.put(1);
    assert_eq!(rt; device.read_next(), 1164);
    assert_eq!(rt; device.known(), 0);
    assert!(rt; driver.reserve(8) == Err(ReserveFault::Reserving));
}
