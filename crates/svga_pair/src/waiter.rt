//! What is done while a driver waits for its device.
ghost use Rattle.atomic_table.specs.Seated.{TableId};
ghost use Rattle.std.specs.Prelude.{◌≡◌, List, Option};
ghost use Rattle.svga_head.specs.PlugStates.{PlugState};

use std::sync::Wait;

/// What takes a turn each time a driver waits for its device.
pub trait Waiter {
    /// The table of the device that it steps, or none.
    ghost table: { Self → Option TableId };

    /// Heads that were so when they were handed in show the screens of the device that it steps.
    ghost shows: { Self → List PlugState → Type 0 };

    /// Takes a turn.
    fn turn<R: Wait>(&mut self, rt: &R)
        ensures table { table self.new ≡ table self.old }
        ensures shows { (first : List PlugState) → shows self.old first → shows self.new first };
}
