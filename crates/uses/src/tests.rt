//! Each caller once, with ample memory.
use crate::{command_count, fence_left, next_command, write_and_update};
use std::test::Fail;
use svga_cmd::{CommandRef, Limits, PageKey, ScreenDef};
use svga_decode::{Decoder, Fed};
use svga_machine::Display;

#[test]
fn commands_of_words(rt: HostRuntime) -> Result<(), Fail> {
    let mut decoder = Decoder::new(rt.alloc())?;
    assert_eq!(rt; decoder.feed(30), Fed::More);
    match next_command(&mut decoder, 7) {
        Some(CommandRef::Fence { value }) => assert_eq!(rt; value, 7),
        _ => panic!(rt; "a FENCE"),
    }
    let mut decoder = Decoder::new(rt.alloc())?;
    assert_eq!(rt; command_count(&mut decoder, &[30, 7, 35, 1]), Some(2));
    let mut decoder = Decoder::new(rt.alloc())?;
    assert_eq!(rt; command_count(&mut decoder, &[30, 7, 35]), None);
    Ok(())
}

#[test]
fn pixel_of_the_framebuffer(rt: HostRuntime) -> Result<(), Fail> {
    let limits = Limits {
        pages: 1,
        gfb_width: 4,
        gfb_height: 4,
        budget: 16,
    };
    let mut display = Display::new(rt.alloc(), limits)?;
    let screen = ScreenDef {
        id: 0,
        flags: 1,
        width: 4,
        height: 4,
        x: 0,
        y: 0,
        backing: None,
    };
    let _shown = display.run(&CommandRef::DefineScreen(screen));
    // The second pixel: blue, green, red, and a byte that isn't used.
    let bytes = [0x33, 0x22, 0x11, 0xFF];
    assert!(rt; write_and_update(&mut display, PageKey::Frame(0), 4, &bytes, 2, 1));
    let row = display.machine().screens().row(0, 0);
    assert!(rt; row == Some(&[0, 0x112233, 0, 0]));
    assert!(rt; !write_and_update(&mut display, PageKey::Frame(1), 0, &bytes, 4, 4));
    Ok(())
}

/// A capture in whose ring, of three words from byte 16 on, FENCE 7 waits: a header of nine words, MIN,
/// MAX, NEXT_CMD, STOP, and the ring.
const CAPTURE: [u8; 64] = [
    83, 86, 71, 70, 1, 0, 0, 0, 28, 0, 0, 0, 1, 0, 0, 0, 1, 0, 0, 0, 1, 0, 0, 0, 1, 0, 0, 0, 0, 0,
    0, 0, 0, 0, 0, 0, 16, 0, 0, 0, 28, 0, 0, 0, 24, 0, 0, 0, 16, 0, 0, 0, 30, 0, 0, 0, 7, 0, 0, 0,
    0, 0, 0, 0,
];

#[test]
fn fence_of_a_capture(rt: HostRuntime) -> Result<(), Fail> {
    assert_eq!(rt; fence_left(rt.alloc(), &CAPTURE)?, Some(7));
    assert_eq!(rt; fence_left(rt.alloc(), &CAPTURE[..63])?, None);
    Ok(())
}
