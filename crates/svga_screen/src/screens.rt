//! Screens, seen as a finite map from ids to definitions and rows of colours.
ghost use Rattle.std.specs.FinMap as map;
ghost use Rattle.std.specs.Option.{option_copied};
ghost use Rattle.std.specs.Prelude.{◌≡◌, ◌<◌, All, IfOk, IfSome, None, OnErr, OnOk, is_some, length};
ghost use Rattle.std.specs.Result.{result_err};
ghost use Rattle.svga_cmd.specs.Limits.{IsBetween};
ghost use Rattle.svga_model.specs.Screens.{AreScreens, IsAsWide, IsDefinition, IsOnScreen, define_screen_tests, definitions_of, destroy_screen_tests, has_row, painted, row_of, with_screen, without_screen};
ghost use Rattle.svga_model.specs.Standing.{first_standing};
ghost use Rattle.svga_screen.specs.ScreenSet.{ScreenSet};

use crate::definitions::Definitions;
use crate::picture::row_in;
use std::alloc::{AllocError, Global};
use std::marker::Model;
use svga_cmd::constants::{COLOURS, MAX_PIXEL_BUDGET, SCREEN_IDS};
use svga_cmd::{Fault, ScreenDef};
use svga_rows::{Fill, Rows};

/// The screens of a device: their definitions, and list `id` of the pictures is that of the screen with
/// this id.
#[derive(Drop)]
pub struct Screens {
    defs: Definitions,
    pictures: Rows<u32>,
}

impl Model for Screens {
    ghost use Rattle.std.specs.FinMap as map;
    ghost use Rattle.svga_screen.specs.Kept.{AreKept, screens_from};
    ghost use Rattle.svga_screen.specs.ScreenSet.{ScreenSet, coded_screen_set};

    ghost Value = { ScreenSet };

    ghost coded = { coded_screen_set };

    ghost view = { λ s. record {
      budget = s.defs.budget;
      screens = screens_from
          (map.get s.defs.screens) s.pictures.lists;
    } };

    ghost invariant = { λ s. AreKept s.defs s.pictures.lists s.pictures.room };
}

impl Screens {
    /// No screens, with room for `budget` pixels.
    pub fn new(alloc: Global, budget: u32) -> Result<Screens, AllocError>
        requires { IsBetween 1 MAX_PIXEL_BUDGET budget }
        ensures { IfOk result (λ s. s ≡ record { budget = budget; screens = map.empty }) }
    {
        let pictures = Rows::new(alloc, SCREEN_IDS, budget as usize, 0)?;
        let defs = Definitions::new(budget);
        Ok(Screens { defs, pictures })
    }

    /// Defines a screen, whose picture is black.
    pub fn define(&mut self, def: &ScreenDef) -> Result<(), Fault>
        ensures fault { result_err result ≡ first_standing
            (define_screen_tests self.old.budget (definitions_of self.old.screens) def.now) }
        ensures ok { OnOk result (self.new ≡ record self.old
            { screens = with_screen self.old.screens def.now }) }
        ensures err { OnErr result (self.new ≡ self.old) }
    {
        self.may_define(def)?;
        self.define_allowed(def);
        Ok(())
    }

    /// `define`, where nothing refuses it.
    pub fn define_allowed(&mut self, def: &ScreenDef)
        requires { first_standing (define_screen_tests self.old.budget
            (definitions_of self.old.screens) def.now) ≡ None }
        ensures { self.new ≡ record self.old { screens = with_screen self.old.screens def.now } }
    {
        let pixels = def.width as usize * def.height as usize;
        self.defs.define(def);
        self.pictures.replace(def.id as usize, pixels, 0);
    }

    /// Removes a screen.
    pub fn destroy(&mut self, id: u32) -> Result<(), Fault>
        ensures fault { result_err result ≡ first_standing
            (destroy_screen_tests (definitions_of self.old.screens) id) }
        ensures ok { OnOk result (self.new ≡ record self.old
            { screens = without_screen self.old.screens id }) }
        ensures err { OnErr result (self.new ≡ self.old) }
    {
        self.may_destroy(id)?;
        self.destroy_allowed(id);
        Ok(())
    }

    /// `destroy`, where nothing refuses it.
    pub fn destroy_allowed(&mut self, id: u32)
        requires { first_standing (destroy_screen_tests (definitions_of self.old.screens) id) ≡ None }
        ensures { self.new ≡ record self.old { screens = without_screen self.old.screens id } }
    {
        self.defs.destroy(id);
        self.pictures.replace(id as usize, 0, 0);
    }

    /// What `define` would be refused with.
    pub fn may_define(&self, def: &ScreenDef) -> Result<(), Fault>
        ensures { result_err result ≡ first_standing
            (define_screen_tests self.now.budget (definitions_of self.now.screens) def.now) }
    {
        self.defs.may_define(def)
    }

    /// What `destroy` would be refused with.
    pub fn may_destroy(&self, id: u32) -> Result<(), Fault>
        ensures { result_err result ≡ first_standing
            (destroy_screen_tests (definitions_of self.now.screens) id) }
    {
        self.defs.may_destroy(id)
    }

    /// Paints a part of row `y`, from `x` on.
    pub fn paint(&mut self, id: u32, x: u32, y: u32, colours: &[u32])
        requires on_screen { IsOnScreen (definitions_of self.old.screens id) x y (length colours.now) }
        requires in_range { All (λ c. c < COLOURS) colours.now }
        ensures { self.new ≡ record self.old { screens = painted self.old.screens id x y colours.now } }
    {
        if let Some(def) = self.defs.def(id) {
            let start = y as usize * def.width as usize + x as usize;
            self.pictures.write(id as usize, start, colours);
        }
    }

    /// Lets a filler paint a part of row `y`, from `x` on, where it stands.
    pub fn fill<F: Fill<u32>>(&mut self, id: u32, x: u32, y: u32, count: usize, filler: &F)
        requires count { count ≡ length (F.values filler.now) }
        requires on_screen { IsOnScreen (definitions_of self.old.screens id) x y
            (length (F.values filler.now)) }
        requires in_range { All (λ c. c < COLOURS) (F.values filler.now) }
        ensures { self.new ≡ record self.old
            { screens = painted self.old.screens id x y (F.values filler.now) } }
    {
        if let Some(def) = self.defs.def(id) {
            let start = y as usize * def.width as usize + x as usize;
            self.pictures.fill(id as usize, start, count, filler);
        }
    }

    /// Row `y` of a screen.
    pub fn row(&self, id: u32, y: u32) -> Option<&[u32]>
        ensures row { option_copied result ≡ row_of self.now.screens id y }
        ensures present { is_some result ≡ has_row (definitions_of self.now.screens id) y }
        ensures width { IfSome result (λ row. IsAsWide (definitions_of self.now.screens id) row.now) }
        ensures in_range { IfSome result (λ row. All (λ c. c < COLOURS) row.now) }
    {
        match self.defs.def(id) {
            None => None,
            Some(def) => row_in(def, self.pictures.list(id as usize), y),
        }
    }

    /// The definition of a screen.
    pub fn def(&self, id: u32) -> Option<&ScreenDef>
        ensures def { option_copied result ≡ definitions_of self.now.screens id }
        ensures shaped { IfSome result (λ d. IsDefinition id d.now) }

        // Whoever asks for a definition learns what holds of all screens.
        ensures valid { AreScreens self.now.budget self.now.screens }
    {
        self.defs.def(id)
    }
}
