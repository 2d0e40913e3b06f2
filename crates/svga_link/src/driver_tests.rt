//! Worked values of the driver's end alone.
use super::*;
use std::process::Abort;
use svga_cmd::{Limits, PageKey, Session, Way};

fn session(rt: &impl Abort) -> Session {
    let limits = Limits {
        pages: 2,
        gfb_width: 8,
        gfb_height: 2,
        budget: 64,
    };
    Session::new(11404, limits, 1, Way::Reserve).expect(rt, "numbers within their limits")
}

// A byte is written, and the page stands in the table once it is lent.
#[test]
fn a_page_that_is_lent_is_not_with_the_driver(rt: HostRuntime) {
    let (mut driver, _device) = make(rt.alloc(), &session(&rt)).expect(&rt, "memory");
    let key = PageKey::Guest(1);
    match driver.page_mut(key) {
        Some(page) => page.bytes_mut()[7] = 9,
        None => panic!(rt; "the page is with the driver"),
    }
    let byte = match driver.page(key) {
        Some(page) => page.bytes()[7],
        None => 0,
    };
    assert_eq!(rt; byte, 9);
    driver.lend(key);
    assert!(rt; driver.page(key).is_none());
}

#[test]
fn a_page_past_the_last_is_none(rt: HostRuntime) {
    let (driver, _device) = make(rt.alloc(), &session(&rt)).expect(&rt, "memory");
    assert!(rt; driver.page(PageKey::Guest(2)).is_none());
    assert!(rt; driver.page(PageKey::Frame(0)).is_some());
    assert!(rt; driver.page(PageKey::Frame(1)).is_none());
}

#[test]
fn the_opening_fence_is_before_the_first(rt: HostRuntime) {
    let (mut driver, _device) = make(rt.alloc(), &session(&rt)).expect(&rt, "memory");
    assert_eq!(rt; driver.read_fence(), 0);
    assert_eq!(rt; driver.read_reply(), 0);
    driver.stop();
}
