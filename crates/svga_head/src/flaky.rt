//! A head in memory, some of whose calls fail.
ghost use Rattle.std.specs.FinMap as map;
ghost use Rattle.std.specs.Prelude.{◌≡◌, ◌≤◌, ◌↔◌, Contains, IsErrOf, IsOkUnless, OnErr, OnOk, length, option_copied};
ghost use Rattle.svga_cmd.specs.Limits.{IsBetween};
ghost use Rattle.svga_cmd.specs.declared.constants.TheConstants.{MAX_SCREEN_ID, MAX_SCREEN_SIDE};
ghost use Rattle.svga_io.specs.Rising.{one_more};
ghost use Rattle.svga_model.specs.Pictures.{picture_row as row_of_picture};
ghost use Rattle.svga_head.specs.Changes.{IsOnPicture, painted_picture, with_picture, without_picture};
ghost use Rattle.svga_head.specs.Mirrors.{FlakyState, IsFlakyTold, counted, new_flaky};

use crate::fault::HeadFault;
use crate::head::Head;
use crate::mirror::Mirror;
use std::alloc::Global;
use std::marker::Model;

/// A `Mirror` some of whose calls fail. A call that fails is counted as any other, and changes no picture.
#[derive(Drop)]
pub struct Flaky {
    mirror: Mirror,
    calls: u64,
    failing: Vec<u64>,
    faults: u64,
}

impl Model for Flaky {
    ghost use Rattle.svga_head.specs.Mirrors.{FlakyState, coded_flaky_state};

    ghost Value = { FlakyState };

    ghost coded = { coded_flaky_state };

    ghost view = { λ f. record {
      mirror = f.mirror;
      calls = f.calls;
      failing = f.failing.items;
      faults = f.faults;
    } };
}

impl Flaky {
    /// The calls of `show`, `hide` and `paint` whose numbers, from 0 on, stand in `failing` fail.
    pub fn new(alloc: Global, failing: Vec<u64>) -> Flaky
        ensures { result ≡ new_flaky failing.items }
    {
        Flaky {
            mirror: Mirror::new(alloc),
            calls: 0,
            failing,
            faults: 0,
        }
    }

    /// Counts a call, and says whether it goes on.
    fn call(&mut self) -> Result<(), HeadFault>
        ensures steady { self.old.faults ≤ self.new.faults }
        ensures fails { IsErrOf result HeadFault.Failed ↔ Contains self.old.failing self.old.calls }
        ensures one { IsOkUnless result HeadFault.Failed }
        ensures err { OnErr result
            (self.new ≡ record (counted self.old) { faults = one_more self.old.faults }) }
        ensures ok { OnOk result (self.new ≡ counted self.old) }
    {
        let fails = self.failing.contains(&self.calls);
        self.calls = self.calls.saturating_add(1);
        if fails {
            self.faults = self.faults.saturating_add(1);
            return Err(HeadFault::Failed);
        }
        Ok(())
    }
}

impl Head for Flaky {
    ghost use Rattle.svga_head.specs.Mirrors.{flaky_head};

    ghost state = { flaky_head };

    fn show(&mut self, id: u32, width: u32, height: u32) -> Result<(), HeadFault>
        requires id { id ≤ MAX_SCREEN_ID }
        requires width { IsBetween 1 MAX_SCREEN_SIDE width }
        requires height { IsBetween 1 MAX_SCREEN_SIDE height }
        ensures { IsFlakyTold (with_picture id width height) self.old self.new result }
    {
        self.call()?;
        self.mirror.show(id, width, height)
    }

    fn hide(&mut self, id: u32) -> Result<(), HeadFault>
        ensures told { IsFlakyTold (without_picture id) self.old self.new result }
        ensures one { IsOkUnless result HeadFault.Failed }
    {
        self.call()?;
        self.mirror.hide(id)
    }

    fn paint(&mut self, id: u32, x: u32, y: u32, colours: &[u32]) -> Result<(), HeadFault>
        requires { IsOnPicture (map.get self.old.mirror.pictures id) x y (length colours.now) }
        ensures told { IsFlakyTold (painted_picture id x y colours.now) self.old self.new result }
        ensures one { IsOkUnless result HeadFault.Failed }
    {
        self.call()?;
        self.mirror.paint(id, x, y, colours)
    }

    fn picture_row(&self, id: u32, y: u32) -> Option<&[u32]>
        ensures { option_copied result ≡ row_of_picture self.now.mirror.pictures id y }
    {
        self.mirror.picture_row(id, y)
    }
}
