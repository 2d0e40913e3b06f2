//! Heads that come, fail and go.
use crate::{Flaky, Head, HeadFault, Heads, HeadsOf, Mirror, Plug, PlugOf};
use std::test::Fail;

/// Takes so many rows and then fails. It tells no pictures.
#[derive(Drop)]
struct Quota {
    rows: u64,
    faults: u64,
}

impl Head for Quota {
    ghost use Rattle.std.specs.Prelude.{None};

    ghost state = { λ q. record { pictures = None; faults = q.faults; refusals = 0 } };

    fn show(&mut self, _id: u32, _width: u32, _height: u32) -> Result<(), HeadFault> {
        Ok(())
    }

    fn hide(&mut self, _id: u32) -> Result<(), HeadFault> {
        Ok(())
    }

    fn paint(&mut self, _id: u32, _x: u32, _y: u32, _colours: &[u32]) -> Result<(), HeadFault> {
        if self.rows == 0 {
            self.faults = self.faults.saturating_add(1);
            return Err(HeadFault::Failed);
        }
        self.rows -= 1;
        Ok(())
    }

    fn picture_row(&self, _id: u32, _y: u32) -> Option<&[u32]> {
        None
    }
}

/// Shows a picture of 3 by 2 pixels, and paints two of its row 1.
fn draw<B: Head>(heads: &mut HeadsOf<B>) {
    heads.show(3, 3, 2);
    heads.paint(3, 1, 1, &[5, 6]);
}

/// The same, and the picture goes.
fn draw_and_hide<B: Head>(heads: &mut HeadsOf<B>) {
    heads.show(3, 3, 2);
    heads.paint(3, 1, 1, &[5, 6]);
    heads.hide(3);
}

/// A head that fails at its second call is dropped there, and those beside it show the screen.
#[test]
fn a_faulty_head_is_dropped(rt: HostRuntime) -> Result<(), Fail> {
    let alloc = rt.alloc();
    let mut plugs: Vec<Plug> = Vec::new(alloc);
    plugs.push(Plug::Plugged(Box::new(alloc, Flaky::new(alloc, vec![in alloc; 1; 1]?))?))?;
    plugs.push(Plug::Empty)?;
    plugs.push(Plug::Plugged(Box::new(alloc, Mirror::new(alloc))?))?;
    plugs.push(Plug::Plugged(Box::new(alloc, Quota { rows: 1, faults: 0 })?))?;
    let mut heads = Heads::new(plugs);
    draw(&mut heads);

    // Each plugged head was told each change once: else the last one would be dropped.
    assert!(rt; matches!(heads.plug(1), Some(Plug::Empty)));
    assert!(rt; matches!(heads.plug(3), Some(Plug::Plugged(_))));
    assert!(rt; heads.plug(4).is_none());
    let Some(Plug::Plugged(mirror)) = heads.plug(2) else {
        panic!(rt; "the mirror is plugged");
    };
    assert_eq!(rt; mirror.picture_row(3, 0), Some(&[0, 0, 0][..]));
    assert_eq!(rt; mirror.picture_row(3, 1), Some(&[0, 5, 6][..]));
    assert_eq!(rt; mirror.picture_row(3, 2), None);
    assert_eq!(rt; mirror.picture_row(0, 0), None);

    // The head that was dropped is kept as the fault left it, and is told nothing more.
    heads.show(7, 1, 1);
    let Some(Plug::DroppedFault(flaky)) = heads.plug(0) else {
        panic!(rt; "the flaky head is dropped");
    };
    assert_eq!(rt; flaky.picture_row(3, 1), Some(&[0, 0, 0][..]));
    assert_eq!(rt; flaky.picture_row(7, 0), None);
    Ok(())
}

/// Heads of one type need no box. A picture that is shown again is black and has its new sides.
#[test]
fn pictures_come_and_go(rt: HostRuntime) -> Result<(), Fail> {
    let alloc = rt.alloc();
    let mut plugs = Vec::new(alloc);
    plugs.push(PlugOf::Plugged(Mirror::new(alloc)))?;
    let mut heads = HeadsOf::new(plugs);
    draw(&mut heads);
    // Fewer pixels, as many as there is room for, and more.
    for (width, height) in [(2, 1), (2, 3), (4, 3)] {
        heads.show(3, width, height);
        let Some(PlugOf::Plugged(mirror)) = heads.plug(0) else {
            panic!(rt; "the mirror is plugged");
        };
        for y in 0..height {
            let row = mirror.picture_row(3, y).map(|row| row.len());
            assert_eq!(rt; row, Some(width as usize));
        }
        assert_eq!(rt; mirror.picture_row(3, height), None);
    }
    draw_and_hide(&mut heads);
    let Some(PlugOf::Plugged(mirror)) = heads.plug(0) else {
        panic!(rt; "the mirror is plugged");
    };
    assert_eq!(rt; mirror.picture_row(3, 0), None);
    Ok(())
}
