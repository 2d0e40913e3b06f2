//! Heads that are told what a display's commands change.
ghost use Rattle.std.specs.FinMap as map;
ghost use Rattle.std.specs.Prelude.{◌≡◌, IfOk};
ghost use Rattle.svga_cmd.specs.Lent.{command_of};
ghost use Rattle.svga_cmd.specs.WellFormed.{IsWellFormed};
ghost use Rattle.svga_device.specs.Telling.{SomeShow};
ghost use Rattle.svga_head.specs.Plugs.{plug_states};
ghost use Rattle.svga_model.specs.Pictures.{pictures_of};

use crate::telling::tell;
use std::alloc::{AllocError, Global};
use std::test::Fail;
use svga_cmd::{CommandRef, Fault, Limits, PageKey, ScreenDef};
use svga_head::{Flaky, Head, Heads, HeadsOf, Mirror, Plug};
use svga_machine::Display;

const LIMITS: Limits = Limits {
    pages: 2,
    gfb_width: 8,
    gfb_height: 2,
    budget: 64,
};

/// The framebuffer's pixels, of the colours 1 to 16.
const PICTURE: [u8; 64] = [
    1, 0, 0, 0, 2, 0, 0, 0, 3, 0, 0, 0, 4, 0, 0, 0, 5, 0, 0, 0, 6, 0, 0, 0, 7, 0, 0, 0, 8, 0, 0, 0,
    9, 0, 0, 0, 10, 0, 0, 0, 11, 0, 0, 0, 12, 0, 0, 0, 13, 0, 0, 0, 14, 0, 0, 0, 15, 0, 0, 0, 16,
    0, 0, 0,
];

/// DEFINE_SCREEN with this left top corner.
fn screen(id: u32, width: u32, height: u32, corner: (i32, i32)) -> CommandRef<'static>
    ensures { IsWellFormed (command_of result) }
{
    CommandRef::DefineScreen(ScreenDef {
        id,
        flags: 1,
        width,
        height,
        x: corner.0,
        y: corner.1,
        backing: None,
    })
}

/// UPDATE.
fn update(x: u32, y: u32, width: u32, height: u32) -> CommandRef<'static>
    ensures { IsWellFormed (command_of result) }
{
    CommandRef::Update {
        x,
        y,
        width,
        height,
    }
}

/// A display without screens, whose framebuffer has the picture.
fn display(alloc: Global) -> Result<Display, AllocError>
    ensures { IfOk result (λ display. display.kept.screens ≡ map.empty) }
{
    let mut display = Display::new(alloc, LIMITS)?;
    let _ = display.write(PageKey::Frame(0), 0, &PICTURE);
    Ok(display)
}

/// Runs a command, and tells heads that show the display's screens what it changed.
fn run<B: Head>(
    display: &mut Display,
    heads: &mut HeadsOf<B>,
    command: &CommandRef<'_>,
) -> Result<(), Fault>
    requires well_formed { IsWellFormed (command_of command.now) }
    requires showing { SomeShow (pictures_of display.old.kept.screens) (plug_states B.state heads.old) }
    ensures { SomeShow (pictures_of display.new.kept.screens) (plug_states B.state heads.new) }
{
    // Whoever asks for the machine learns that its screens are valid.
    let _machine = display.machine();
    let effect = display.run(command)?;
    tell(heads, &effect, display.machine().screens());
    Ok(())
}

/// Screens are shown, painted, shown again and hidden. The heads are told of nine changes.
fn draw<B: Head>(alloc: Global, heads: &mut HeadsOf<B>) -> Result<Display, AllocError> {
    let mut display = display(alloc)?;
    let _ = run(&mut display, heads, &screen(3, 4, 3, (0, 0)));
    let _ = run(&mut display, heads, &screen(5, 2, 2, (7, 0)));
    // Two rows of each screen.
    let _ = run(&mut display, heads, &update(1, 0, 100, 100));
    let _ = run(&mut display, heads, &CommandRef::Fence { value: 1 });
    let _ = run(&mut display, heads, &screen(3, 3, 2, (4, 0)));
    let _ = run(&mut display, heads, &update(0, 0, 6, 1));
    let _ = run(&mut display, heads, &CommandRef::DestroyScreen { id: 5 });
    Ok(display)
}

#[test]
fn a_mirror_shows_the_screens_beside_heads_that_fail(rt: HostRuntime) -> Result<(), Fail> {
    let alloc = rt.alloc();
    let mut plugs: Vec<Plug> = Vec::new(alloc);
    for call in [4, 8, 9] {
        let flaky = Flaky::new(alloc, vec![in alloc; call; 1]?);
        plugs.push(Plug::Plugged(Box::new(alloc, flaky)?))?;
    }
    plugs.push(Plug::Plugged(Box::new(alloc, Mirror::new(alloc))?))?;
    let mut heads = Heads::new(plugs);
    let display = draw(alloc, &mut heads)?;

    // The calls are numbered from 0, so that no call has number 9.
    assert!(rt; matches!(heads.plug(0), Some(Plug::DroppedFault(_))));
    assert!(rt; matches!(heads.plug(1), Some(Plug::DroppedFault(_))));
    assert!(rt; matches!(heads.plug(2), Some(Plug::Plugged(_))));
    let Some(Plug::Plugged(mirror)) = heads.plug(3) else {
        panic!(rt; "the mirror is plugged");
    };
    assert_eq!(rt; mirror.picture_row(3, 0), Some(&[5, 6, 0][..]));
    let screens = display.machine().screens();
    for id in 0..16 {
        for y in 0..4 {
            assert_eq!(rt; mirror.picture_row(id, y), screens.row(id, y), "{id} {y}");
        }
    }
    // A head that was dropped shows what it was told before.
    let Some(Plug::DroppedFault(flaky)) = heads.plug(0) else {
        panic!(rt; "the head is dropped");
    };
    assert_eq!(rt; flaky.picture_row(3, 0), Some(&[0, 2, 3, 4][..]));
    assert_eq!(rt; flaky.picture_row(5, 0), Some(&[0, 0][..]));
    Ok(())
}
