//! Shapes, and what they tell of commands.
ghost use Rattle.std.specs.Prelude.{◌≡◌, ◌≢◌, IfOk, option_map};
ghost use Rattle.std.specs.Result.{result_err};
ghost use Rattle.svga_cmd.specs.Lent.{command_of, entries_of};
ghost use Rattle.svga_cmd.specs.Limits.{AreLimits, frame_page_count};
ghost use Rattle.svga_cmd.specs.WellFormed.{HasEntries, IsWellFormed};
ghost use Rattle.svga_model.specs.Acts.{Do};
ghost use Rattle.svga_model.specs.BlitFaults.{blit_tests};
ghost use Rattle.svga_model.specs.Faults.{ReadsNumbers, shape_tests};
ghost use Rattle.svga_model.specs.PointedNumbers.{pointed_by, pointer_tests};
ghost use Rattle.svga_model.specs.Standing.{least_standing};
ghost use Rattle.svga_model.specs.States.{State, shape_of};
ghost use Rattle.svga_model.specs.Steps.{new_gmrfb, step};
ghost use Rattle.svga_model.specs.Touches.{touched_region};
ghost use Rattle.svga_region.specs.ChainCalls.{FinishesChain, ReadsChain, StartsChain};
ghost use Rattle.svga_region.specs.Conditions.{IsChainBegun, IsChainWhole};
ghost use Rattle.svga_screen.specs.Definitions.{AreScreenDefinitions};
ghost use Rattle.svga_shape.specs.Admission.{IsAdmitted, region_of};
ghost use Rattle.svga_shape.specs.ShapeSet.{AreOfLimits, opening_shape, shape_in};

use crate::judging::{may_blit, may_name, may_remap};
use crate::touch::Touch;
use std::alloc::{AllocError, Global};
use std::marker::Model;
use svga_cmd::constants::{SVGA_GMR_FRAMEBUFFER, SVGA_GMR_NULL};
use svga_cmd::{Blit, CommandRef, Fault, Gmrfb, Limits, Page};
use svga_region::{ChainNext, Regions};
use svga_screen::Definitions;

/// The regions, the screens' definitions, the GMRFB and the limits of a device.
#[derive(Drop)]
pub struct Shape {
    limits: Limits,
    regions: Regions,
    gmrfb: Option<Gmrfb>,
    screens: Definitions,
}

impl Model for Shape {
    ghost use Rattle.svga_cmd.specs.Limits.{AreLimits};
    ghost use Rattle.svga_screen.specs.Definitions.{AreScreenDefinitions};
    ghost use Rattle.svga_shape.specs.ShapeSet.{AreOfLimits, ShapeSet, coded_shape_set};

    ghost Value = { ShapeSet };

    ghost coded = { coded_shape_set };

    ghost view = { λ s. record {
      limits = s.limits;
      regions = s.regions;
      gmrfb = s.gmrfb;
      screens = s.screens;
    } };

    ghost invariant = { λ s. AreLimits s.limits × AreOfLimits
        (record { limits = s.limits; regions = s.regions; gmrfb = s.gmrfb; screens = s.screens })
        × AreScreenDefinitions s.screens };
}

impl Shape {
    /// The shape of a device at its opening: no region but the framebuffer's, no screen, no GMRFB.
    pub fn new(alloc: Global, limits: Limits) -> Result<Shape, AllocError>
        requires { AreLimits limits }
        ensures { IfOk result (λ shape. shape ≡ opening_shape limits) }
    {
        let regions = Regions::new(alloc, limits.pages, limits.frame_pages())?;
        Ok(Shape::opened(limits, regions))
    }

    /// The same with regions that are there at the opening.
    pub fn opened(limits: Limits, regions: Regions) -> Shape
        requires limits { AreLimits limits }
        requires guest { regions.guest ≡ limits.pages }
        requires frame { regions.frame ≡ frame_page_count limits }
        ensures { result ≡ record (opening_shape limits) { regions = regions } }
    {
        Shape {
            limits,
            regions,
            gmrfb: None,
            screens: Definitions::new(limits.budget),
        }
    }

    /// The fault of a command, or the region whose pages it may read or write. Of a remap by VIA_GMR it
    /// judges all but the page numbers that stand in the region.
    pub fn admit(&self, command: &CommandRef<'_>) -> Result<Touch, Fault>
        requires { IsWellFormed (command_of command.now) }
        ensures fault { result_err result ≡ least_standing
            (shape_tests (shape_in self.now) (command_of command.now)) }
        ensures touch { IfOk result (λ touch. region_of touch
            ≡ touched_region self.now.gmrfb (command_of command.now)) }
    {
        match *command {
            CommandRef::Update { .. } => Ok(Touch::Region(SVGA_GMR_FRAMEBUFFER)),
            CommandRef::Fence { .. } => Ok(Touch::Nothing),
            CommandRef::DefineScreen(def) => {
                self.screens.may_define(&def)?;
                Ok(Touch::Nothing)
            }
            CommandRef::DestroyScreen { id } => {
                self.screens.may_destroy(id)?;
                Ok(Touch::Nothing)
            }
            CommandRef::DefineGmrfb(gmrfb) => {
                may_name(gmrfb.region)?;
                Ok(Touch::Nothing)
            }
            CommandRef::BlitToScreen(blit) => {
                self.may_blit(&blit)?;
                Ok(touch_of(self.gmrfb))
            }
            CommandRef::BlitToGmrfb(blit) => {
                self.may_blit(&blit)?;
                Ok(touch_of(self.gmrfb))
            }
            CommandRef::DefineGmr2 { region, pages } => {
                self.regions.may_define(region, pages)?;
                Ok(Touch::Nothing)
            }
            CommandRef::RemapGmr2 {
                region,
                offset,
                pages,
                entries,
            } => { may_remap(&self.regions, region, offset, pages, entries) }
        }
    }

    /// What a blit is refused with.
    fn may_blit(&self, blit: &Blit) -> Result<(), Fault>
        ensures { result_err result ≡ least_standing (blit_tests (shape_in self.now) blit.now) }
    {
        may_blit(&self.regions, &self.screens, self.gmrfb, blit)
    }

    /// Makes it the shape of the state after the command.
    pub fn apply(&mut self, command: &CommandRef<'_>)
        requires well_formed { IsWellFormed (command_of command.now) }
        requires admitted { IsAdmitted (shape_in self.old) (command_of command.now) }
        requires named { ¬ (ReadsNumbers (command_of command.now)) }
        ensures shape { (s : State) → shape_of s.kept ≡ shape_in self.old
            → shape_of (step s (Do (command_of command.now))).kept ≡ shape_in self.new }
        // A chain that is begun stays so.
        ensures chain { self.new.regions.chain ≡ self.old.regions.chain }
        ensures limits { self.new.limits ≡ self.old.limits }
        ensures valid { AreOfLimits self.new }
    {
        match *command {
            CommandRef::DefineScreen(def) => self.screens.define(&def),
            CommandRef::DestroyScreen { id } => self.screens.destroy(id),
            CommandRef::DefineGmrfb(gmrfb) => self.gmrfb = named_gmrfb(gmrfb),
            CommandRef::DefineGmr2 { region, pages } => self.regions.define_allowed(region, pages),
            CommandRef::RemapGmr2 {
                region,
                offset,
                pages,
                entries,
            } => self.regions.remap_allowed(region, offset, pages, entries),
            CommandRef::Update { .. } => {}
            CommandRef::Fence { .. } => {}
            CommandRef::BlitToScreen(_) => {}
            CommandRef::BlitToGmrfb(_) => {}
        }
    }

    /// The regions.
    pub fn regions(&self) -> &Regions
        ensures regions { result.now ≡ self.now.regions }

        // Whoever asks for them learns that they have the pages of the limits, and what holds of the
        // definitions beside them.
        ensures valid { AreOfLimits self.now }
        ensures definitions { AreScreenDefinitions self.now.screens }
    {
        &self.regions
    }

    /// The limits of the device.
    pub fn limits(&self) -> Limits
        ensures limits { result ≡ self.now.limits }
        ensures allowed { AreLimits result }
    {
        self.limits
    }

    /// The GMRFB, where there is one.
    pub fn gmrfb(&self) -> Option<Gmrfb>
        ensures { result ≡ self.now.gmrfb }
    {
        self.gmrfb
    }

    /// Begins a chain: `Regions::chain_start` of its regions.
    pub fn chain_start(&mut self, id: u32, first: u32) -> Result<(), Fault>
        requires { first ≢ 0 }
        ensures chain { StartsChain self.old.regions id first result self.new.regions }
        ensures kept { self.new ≡ record self.old { regions = self.new.regions } }
        ensures valid { AreOfLimits self.new }
    {
        self.regions.chain_start(id, first)
    }

    /// Reads the table page that is wanted next: `Regions::chain_page` of its regions.
    pub fn chain_page(&mut self, page: &Page) -> Result<ChainNext, Fault>
        requires { IsChainBegun self.old.regions.chain }
        ensures chain { ReadsChain self.old.regions page.now result self.new.regions }
        ensures kept { self.new ≡ record self.old { regions = self.new.regions } }
        ensures valid { AreOfLimits self.new }
    {
        self.regions.chain_page(page)
    }

    /// Gives the region the chain's list: `Regions::chain_finish` of its regions.
    pub fn chain_finish(&mut self) -> Result<(), Fault>
        requires { IsChainWhole self.old.regions.chain }
        ensures chain { FinishesChain self.old.regions result self.new.regions }
        ensures kept { self.new ≡ record self.old { regions = self.new.regions } }
        ensures valid { AreOfLimits self.new }
    {
        self.regions.chain_finish()
    }
}

/// The GMRFB's region, where there is a GMRFB.
fn touch_of(gmrfb: Option<Gmrfb>) -> Touch
    ensures { region_of result ≡ option_map (λ g. g.region) gmrfb }
{
    match gmrfb {
        None => Touch::Nothing,
        Some(gmrfb) => Touch::Region(gmrfb.region),
    }
}

/// The GMRFB that DEFINE_GMRFB names, or none where its region's id stands for none.
fn named_gmrfb(gmrfb: Gmrfb) -> Option<Gmrfb>
    ensures { result ≡ new_gmrfb gmrfb }
{
    if gmrfb.region == SVGA_GMR_NULL {
        None
    } else {
        Some(gmrfb)
    }
}
