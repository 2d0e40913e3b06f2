//! Screens that are defined, painted and destroyed, and rectangles that are clipped.
ghost use Rattle.std.specs.Prelude.{◌≡◌, replicate};

use crate::{Area, Screens, clip};
use std::alloc::AllocError;
use svga_cmd::{Fault, Rect, ScreenDef};
use svga_rows::Fill;

/// Two pixels of one colour.
struct Two;

impl Fill<u32> for Two {
    ghost values = { λ _. replicate 2 0x22 };

    fn fill(&self, part: &mut [u32]) {
        part.fill(0x22);
    }
}

fn def(id: u32, width: u32, height: u32) -> ScreenDef {
    ScreenDef {
        id,
        flags: 1,
        width,
        height,
        x: 0,
        y: 0,
        backing: None,
    }
}

/// Paints the colours, which are to lie on the screen, and says whether they do.
fn paint(screens: &mut Screens, id: u32, x: u32, y: u32, colours: &[u32]) -> bool {
    let Some(def) = screens.def(id) else {
        return false;
    };
    if y >= def.height || x as usize + colours.len() > def.width as usize {
        return false;
    }
    if !colours.iter().all(|colour| *colour < 0x1000000) {
        return false;
    }
    screens.paint(id, x, y, colours);
    true
}

/// Paints two pixels where they stand, if the screen has them, and says whether it does.
fn fill_two(screens: &mut Screens, id: u32, x: u32, y: u32) -> bool {
    let Some(def) = screens.def(id) else {
        return false;
    };
    if y >= def.height || x as usize + 2 > def.width as usize {
        return false;
    }
    screens.fill(id, x, y, 2, &Two);
    true
}

/// Destroys the middle one of three screens: the other two keep their rows.
#[test]
fn others_stay(rt: HostRuntime) -> Result<(), AllocError> {
    let mut screens = Screens::new(rt.alloc(), 100)?;
    for (id, width, height) in [(0, 3, 2), (7, 2, 2), (15, 4, 1)] {
        assert_eq!(rt; screens.define(&def(id, width, height)), Ok(()));
    }
    assert!(rt; paint(&mut screens, 0, 1, 1, &[0x10, 0x11]));
    assert!(rt; paint(&mut screens, 7, 0, 0, &[0x20, 0x21]));
    assert!(rt; paint(&mut screens, 15, 0, 0, &[0x30, 0x31, 0x32, 0xFFFFFF]));
    assert_eq!(rt; screens.destroy(7), Ok(()));

    assert_eq!(rt; screens.row(0, 0), Some(&[0, 0, 0][..]));
    assert_eq!(rt; screens.row(0, 1), Some(&[0, 0x10, 0x11][..]));
    assert_eq!(rt; screens.row(15, 0), Some(&[0x30, 0x31, 0x32, 0xFFFFFF][..]));
    assert_eq!(rt; screens.def(15), Some(&def(15, 4, 1)));
    assert_eq!(rt; screens.def(7), None);
    for (id, y) in [(0, 2), (7, 0), (15, 1), (16, 0)] {
        assert_eq!(rt; screens.row(id, y), None);
    }
    assert_eq!(rt; screens.destroy(7), Err(Fault::NoScreen));
    assert_eq!(rt; screens.destroy(16), Err(Fault::ScreenId));
    assert!(rt; fill_two(&mut screens, 15, 1, 0));
    assert_eq!(rt; screens.row(15, 0), Some(&[0x30, 0x22, 0x22, 0xFFFFFF][..]));
    Ok(())
}

/// At a full budget a screen may grow by what its own older picture had, and is black then.
#[test]
fn older_picture_is_counted_out(rt: HostRuntime) -> Result<(), AllocError> {
    let mut screens = Screens::new(rt.alloc(), 20)?;
    assert_eq!(rt; screens.define(&def(1, 2, 4)), Ok(()));
    assert_eq!(rt; screens.define(&def(2, 3, 4)), Ok(()));
    assert!(rt; paint(&mut screens, 1, 0, 0, &[1, 2]));
    assert!(rt; paint(&mut screens, 2, 0, 3, &[3, 4, 5]));

    assert_eq!(rt; screens.define(&def(1, 3, 3)), Err(Fault::PixelBudget));
    assert_eq!(rt; screens.define(&def(3, 1, 1)), Err(Fault::PixelBudget));
    assert_eq!(rt; screens.row(1, 0), Some(&[1, 2][..]));
    assert_eq!(rt; screens.define(&def(1, 8, 1)), Ok(()));
    assert_eq!(rt; screens.row(1, 0), Some(&[0; 8][..]));
    assert_eq!(rt; screens.row(2, 3), Some(&[3, 4, 5][..]));
    assert_eq!(rt; screens.destroy(2), Ok(()));
    assert_eq!(rt; screens.define(&def(1, 5, 4)), Ok(()));
    Ok(())
}

/// The longest sides, each way, and those that are refused.
#[test]
fn sides_at_their_ends(rt: HostRuntime) -> Result<(), AllocError> {
    let mut screens = Screens::new(rt.alloc(), 16384)?;
    assert_eq!(rt; screens.define(&def(0, 1, 8192)), Ok(()));
    assert_eq!(rt; screens.define(&def(1, 8192, 1)), Ok(()));
    assert!(rt; paint(&mut screens, 0, 0, 8191, &[7]));
    assert!(rt; paint(&mut screens, 1, 8191, 0, &[9]));
    assert_eq!(rt; screens.row(0, 8191), Some(&[7][..]));
    assert_eq!(rt; screens.row(1, 0).and_then(|row| row.last()), Some(&9));
    for (width, height) in [(0, 1), (1, 0), (8193, 1), (1, 8193)] {
        assert_eq!(rt;
            screens.define(&def(2, width, height)),
            Err(Fault::ScreenSize)
        );
    }
    assert_eq!(rt; screens.define(&def(16, 0, 0)), Err(Fault::ScreenId));
    Ok(())
}

/// Rectangles and what is left of them on an area.
#[test]
fn rectangles_are_clipped(rt: HostRuntime) {
    let (low, high) = (i32::MIN, i32::MAX);
    for ((left, top, right, bottom), (x, y, width, height), part) in [
        ((-1, -1, 2, 2), (0, 0, 4, 4), (0, 0, 2, 2)),
        ((1, 2, 9, 9), (0, 0, 4, 4), (1, 2, 3, 2)),
        (
            (low, low, high, high),
            (0, 0, 8192, 8192),
            (0, 0, 8192, 8192),
        ),
        ((low, low, high, high), (low, high, 3, 3), (0, 0, 0, 0)),
        ((low, 0, low, 3), (low, 0, 3, 3), (0, 0, 0, 0)),
        ((low, 0, low + 1, 3), (low, 1, 3, 3), (0, 0, 1, 2)),
        ((high - 1, 0, high, 1), (high - 2, 0, 8192, 1), (1, 0, 1, 1)),
        ((3, 0, 1, 4), (0, 0, 4, 4), (0, 0, 0, 0)),
        ((0, 4, 4, 0), (0, 0, 4, 4), (0, 0, 0, 0)),
        ((2, 2, 2, 3), (0, 0, 4, 4), (0, 0, 0, 0)),
        ((4, 0, 9, 4), (0, 0, 4, 4), (0, 0, 0, 0)),
        ((0, 0, 4, 4), (0, 0, 0, 0), (0, 0, 0, 0)),
    ] {
        let rect = Rect {
            left,
            top,
            right,
            bottom,
        };
        let (left, top, wide, tall) = part;
        let area = Area {
            screen: 0,
            left,
            top,
            width: wide,
            height: tall,
        };
        assert!(rt; width <= 8192);
        assert!(rt; height <= 8192);
        assert_eq!(rt; clip(rect, x, y, width, height), area);
    }
}
