//! What is written of a script's acts while they are done.
ghost use Rattle.std.specs.List.{flat_map};
ghost use Rattle.std.specs.Prelude.{option_to_list};
ghost use Rattle.svga_driver.specs.Driving.{client_in};
ghost use Rattle.svga_pair.specs.Answering.{CanTell, told_in};
ghost use Rattle.svga_pair.specs.Written.{IsWrittenOn};
ghost use Rattle.svga_text.specs.RaceTexts.{told_text};

use crate::answer::Told;
use svga_driver::Driver;
use svga_io::Sink;
use svga_text::{Line, Render};

/// Writes what an act tells, unless writing failed before. It gives whether it has failed by now.
pub(crate) fn tell<K: Sink>(
    driver: &Driver,
    render: &mut Render,
    sink: &mut K,
    told: Told,
    failed: bool,
) -> bool
    requires { CanTell (client_in driver.now) told }
    ensures { IsWrittenOn K.held K.faults failed sink.old sink.new
        (flat_map told_text (option_to_list (told_in (client_in driver.now) told))) result }
{
    if failed {
        return true;
    }
    match told {
        Told::Nothing => false,
        Told::Fence(value) => render.line(sink, &Line::Fence { value }).is_err(),
        Told::Page(key) => match driver.read_page(key) {
            Ok(page) => render.page(sink, key, page).is_err(),
            Err(_) => unreachable!(),
        },
    }
}
