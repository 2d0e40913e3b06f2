//! The definitions of screens, without pictures.
ghost use Rattle.std.specs.FinMap as map;
ghost use Rattle.std.specs.Option.{option_copied};
ghost use Rattle.std.specs.Prelude.{◌≡◌, ◌<◌, ◌+◌, ◌-◌, ◌^◌, IfSome, None, sum_by};
ghost use Rattle.std.specs.Result.{result_err};
ghost use Rattle.svga_model.specs.Screens.{IsDefinition, define_screen_tests, destroy_screen_tests, pixel_count, pixels_of};
ghost use Rattle.svga_model.specs.Standing.{first_standing};
ghost use Rattle.svga_screen.specs.Definitions.{AreScreenDefinitions};

use crate::picture::has_sides;
use std::marker::Model;
use svga_cmd::constants::MAX_SCREEN_ID;
use svga_cmd::{Fault, ScreenDef};

/// The definitions by their ids, 0 to 15.
#[derive(Drop)]
pub struct Definitions {
    budget: u32,
    slots: [Option<ScreenDef>; 16],
}

impl Model for Definitions {
    ghost use Rattle.svga_screen.specs.Definitions.{AreDefinitions, DefinitionSet, coded_definition_set, screens_in};

    ghost Value = { DefinitionSet };

    ghost coded = { coded_definition_set };

    ghost view = { λ d. record { budget = d.budget; screens = screens_in d.slots } };

    ghost invariant = { λ d. AreDefinitions d.budget d.slots };
}

impl Definitions {
    /// No screen, and room for so many pixels.
    pub fn new(budget: u32) -> Definitions
        ensures empty { result ≡ record { budget = budget; screens = map.empty } }
        ensures valid { AreScreenDefinitions result }
    {
        Definitions {
            budget,
            slots: [None; 16],
        }
    }

    /// The definition of a screen.
    pub fn def(&self, id: u32) -> Option<&ScreenDef>
        ensures def { option_copied result ≡ map.get self.now.screens id }
        ensures shaped { IfSome result (λ d. IsDefinition id d.now) }
        ensures low { IfSome result (λ _. id < 16) }
        ensures valid { AreScreenDefinitions self.now }
    {
        // Named here, so that its facts are known on both branches.
        let _ = &self.slots;
        if id < 16 {
            self.slots[id as usize].as_ref()
        } else {
            None
        }
    }

    /// What DEFINE_SCREEN is refused with.
    pub fn may_define(&self, def: &ScreenDef) -> Result<(), Fault>
        ensures { result_err result ≡ first_standing
            (define_screen_tests self.now.budget (map.get self.now.screens) def.now) }
    {
        if def.id > MAX_SCREEN_ID {
            return Err(Fault::ScreenId);
        }
        if !has_sides(def) {
            return Err(Fault::ScreenSize);
        }
        let pixels = u64::from(def.width) * u64::from(def.height);
        if pixels > self.room_beside(def.id) {
            return Err(Fault::PixelBudget);
        }
        Ok(())
    }

    /// What DESTROY_SCREEN is refused with.
    pub fn may_destroy(&self, id: u32) -> Result<(), Fault>
        ensures { result_err result ≡ first_standing (destroy_screen_tests (map.get self.now.screens) id) }
    {
        if id > MAX_SCREEN_ID {
            return Err(Fault::ScreenId);
        }
        if self.slots[id as usize].is_none() {
            return Err(Fault::NoScreen);
        }
        Ok(())
    }

    /// Defines a screen.
    pub fn define(&mut self, def: &ScreenDef)
        requires { first_standing (define_screen_tests self.old.budget (map.get self.old.screens) def.now)
            ≡ None }
        ensures defined { self.new ≡ record self.old
            { screens = map.insert self.old.screens def.now.id def.now } }
        ensures valid { AreScreenDefinitions self.new }
    {
        self.slots[def.id as usize] = Some(*def);
    }

    /// Removes a screen.
    pub fn destroy(&mut self, id: u32)
        requires { first_standing (destroy_screen_tests (map.get self.old.screens) id) ≡ None }
        ensures removed { self.new ≡ record self.old { screens = map.remove self.old.screens id } }
        ensures valid { AreScreenDefinitions self.new }
    {
        self.slots[id as usize] = None;
    }

    /// How many pixels a screen with this id may have beside the others.
    fn room_beside(&self, id: u32) -> u64
        requires { id < 16 }
        ensures { result + (pixel_count (map.get self.now.screens) - pixels_of (map.get self.now.screens id))
            ≡ self.now.budget }
    {
        let budget = u64::from(self.budget);
        budget - (pixels_in_all(&self.slots) - pixels_in(&self.slots[id as usize]))
    }
}

/// How many pixels the slots stand for in all.
fn pixels_in_all(slots: &[Option<ScreenDef>]) -> u64
    requires { sum_by pixels_of slots.now < 2 ^ 64 }
    ensures { result ≡ sum_by pixels_of slots.now }
{
    slots.iter().map(|slot| pixels_in(slot)).sum()
}

/// How many pixels a slot stands for.
fn pixels_in(slot: &Option<ScreenDef>) -> u64
    ensures { result ≡ pixels_of slot.now }
{
    match slot {
        None => 0,
        Some(def) => u64::from(def.width) * u64::from(def.height),
    }
}
