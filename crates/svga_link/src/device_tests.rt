//! Worked values of the device's end.
use super::*;
use std::test::Fail;
use svga_cmd::{Limits, PageKey, Session, Way};

#[test]
fn a_new_device_is_asked_nothing(rt: HostRuntime) -> Result<(), Fail> {
    let limits = Limits {
        pages: 2,
        gfb_width: 8,
        gfb_height: 2,
        budget: 64,
    };
    let session = Session::new(11404, limits, 1, Way::Dword).expect(
        &rt,
        "numbers within their limits",
    );
    let (_driver, mut device) = make(rt.alloc(), &session)?;
    assert!(rt; device.read_config());
    assert_eq!(rt; device.read_request(), None);
    assert!(rt; !device.held(PageKey::Guest(1)));
    Ok(())
}
