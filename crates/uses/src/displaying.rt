//! A caller of a display.
ghost use Rattle.std.specs.Prelude.{◌≡◌, ◌+◌, ◌≤◌, ◌↔◌, IsTrue, false, length};
ghost use Rattle.svga_cmd.specs.Pages.{IsKey};
ghost use Rattle.svga_cmd.specs.declared.command.Command.TheVariants as commands;
ghost use Rattle.svga_model.specs.Acts.{Do, Put};
ghost use Rattle.svga_model.specs.Memories.{page_bytes};
ghost use Rattle.svga_model.specs.Screens.{painted_row};
ghost use Rattle.svga_model.specs.Steps.{step};

use svga_cmd::{CommandRef, PageKey};
use svga_machine::Display;

/// Writes bytes into a page from byte `at` on, and shows the left top part of the guest framebuffer. It is
/// false, and nothing changes, where the page isn't one of the device's or the bytes go past its end.
pub fn write_and_update(
    display: &mut Display,
    key: PageKey,
    at: usize,
    bytes: &[u8],
    width: u32,
    height: u32,
) -> bool
    ensures written { IsTrue result ↔ (IsKey display.old.kept.limits key × (at + length bytes.now ≤ 4096)) }
    ensures shown { IsTrue result →
        (let page = painted_row (page_bytes display.old.memory key) at bytes.now in
        display.new ≡ step (step display.old (Put key page)) (Do (commands.Update 0 0 width height))) }
    ensures refused { result ≡ false → display.new ≡ display.old }
{
    if !display.write(key, at, bytes) {
        return false;
    }
    let update = CommandRef::Update {
        x: 0,
        y: 0,
        width,
        height,
    };
    // UPDATE is never refused, so the areas that it painted are all that could be told.
    let _painted = display.run(&update);
    true
}
