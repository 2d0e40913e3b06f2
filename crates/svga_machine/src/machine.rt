//! The machine.
ghost use Rattle.std.specs.Prelude.{◌≡◌, ◌≢◌, IfOk, OnOk, OnErr, Some, None, length};
ghost use Rattle.std.specs.Result.{result_err};
ghost use Rattle.svga_cmd.specs.Lent.{command_of, entries_of};
ghost use Rattle.svga_cmd.specs.Limits.{AreLimits, frame_page_count};
ghost use Rattle.svga_cmd.specs.WellFormed.{IsWellFormed};
ghost use Rattle.svga_cmd.specs.declared.command.Command.TheVariants as commands;
ghost use Rattle.svga_model.specs.Acts.{Do};
ghost use Rattle.svga_model.specs.Faults.{fault_of};
ghost use Rattle.svga_model.specs.Regions.{frame_places, with_region};
ghost use Rattle.svga_model.specs.Screens.{definitions_of, with_screen, without_screen};
ghost use Rattle.svga_model.specs.States.{frame_pages, opening_kept, shape_of};
ghost use Rattle.svga_model.specs.Steps.{new_gmrfb, read_back, shown, step, updated, updated_colours};
ghost use Rattle.svga_model.specs.Touches.{touched_places};
ghost use Rattle.svga_region.specs.ChainCalls.{FinishesChain, ReadsChain, StartsChain};
ghost use Rattle.svga_region.specs.Conditions.{IsChainBegun, IsChainWhole};
ghost use Rattle.svga_shape.specs.Admission.{IsAdmitted};
ghost use Rattle.svga_shape.specs.ShapeSet.{AreOfLimits, shape_in};
ghost use Rattle.svga_transfer.specs.Areas.{ArePainted};
ghost use Rattle.svga_machine.specs.Effects.{IsEffect, blit_colours};
ghost use Rattle.svga_machine.specs.MachineSet.{opened_machine, regions_in, state_with, with_regions_of};
ghost use Rattle.svga_transfer.specs.Reach.{HasPages};
ghost use Rattle.svga_machine.specs.Touched.{HasTouched};

use crate::effect::Effect;
use crate::remap::remap;
use arrayvec::ArrayVec;
use std::alloc::{AllocError, Global};
use std::marker::Model;
use svga_cmd::constants::MAX_ENTRY_WORDS;
use svga_cmd::{Blit, CommandRef, EntriesRef, Fault, Gmrfb, Limits, Page, PageStore, ScreenDef};
use svga_region::{ChainNext, Regions};
use svga_screen::{Area, Screens};
use svga_shape::Shape;
use svga_transfer::{Extent, RowRoom, blit_to_region, blit_to_screens, update_screens};

/// A device without its pages and its queue: what each command does, one after another.
#[derive(Drop)]
pub struct Machine {
    /// The limits, the regions and the GMRFB, and what faults are judged by.
    shape: Shape,
    screens: Screens,
    fence: u32,
    row: RowRoom,
    /// Room for the page numbers that a remap by VIA_GMR reads: 65,536 of two words.
    numbers: Vec<u32>,
}

impl Model for Machine {
    ghost use Rattle.std.specs.Prelude.{◌≡◌, length};
    ghost use Rattle.svga_cmd.specs.declared.constants.TheConstants.{MAX_ENTRY_WORDS};
    ghost use Rattle.svga_machine.specs.MachineSet.{AreParts, MachineSet, coded_machine_set, kept_of};

    ghost Value = { MachineSet };

    ghost coded = { coded_machine_set };

    ghost view = { λ m. record { kept = kept_of m.shape m.screens m.fence; chain = m.shape.regions.chain } };

    ghost invariant = { λ m. AreParts (kept_of m.shape m.screens m.fence) m.shape m.screens
        × (length m.numbers.items ≡ MAX_ENTRY_WORDS) };
}

impl Machine {
    /// A machine at its opening: no region but the framebuffer's, no GMRFB, no screen, fence 0. It takes all
    /// memory that the other calls need.
    pub fn new(alloc: Global, limits: Limits) -> Result<Machine, AllocError>
        requires { AreLimits limits }
        ensures { IfOk result (λ machine. machine ≡ record { kept = opening_kept limits 1; chain = None }) }
    {
        let regions = Regions::new(alloc, limits.pages, limits.frame_pages())?;
        Machine::opened(alloc, limits, regions, 0)
    }

    /// The same with regions and a fence that are there at the opening. Beside `new` it is the only call that
    /// takes memory.
    pub fn opened(
        alloc: Global,
        limits: Limits,
        regions: Regions,
        fence: u32,
    ) -> Result<Machine, AllocError>
        requires limits { AreLimits limits }
        requires guest { regions.guest ≡ limits.pages }
        requires frame { regions.frame ≡ frame_page_count limits }
        ensures { IfOk result (λ machine. machine ≡ opened_machine limits regions fence) }
    {
        let shape = Shape::opened(limits, regions);
        let screens = Screens::new(alloc, limits.budget)?;
        let row = RowRoom::new(alloc)?;
        let numbers = vec![in alloc; 0; MAX_ENTRY_WORDS as usize]?;
        Ok(Machine {
            shape,
            screens,
            fence,
            row,
            numbers,
        })
    }

    /// Runs a command on the pages of a store. A fault changes nothing. Of the store's pages it needs those
    /// of the region that the command touches.
    pub fn run<P: PageStore>(
        &mut self,
        store: &mut P,
        command: &CommandRef<'_>,
    ) -> Result<Effect, Fault>
        requires well_formed { IsWellFormed (command_of command.now) }
        requires there { HasTouched self.old.kept (P.pages store.old) (command_of command.now) }
        ensures fault { result_err result ≡ fault_of (state_with self.old (P.pages store.old))
            (Do (command_of command.now)) }
        ensures ok { OnOk result (state_with self.new (P.pages store.new)
            ≡ step (state_with self.old (P.pages store.old)) (Do (command_of command.now))) }
        ensures effect { IfOk result (IsEffect (state_with self.old (P.pages store.old))
            (command_of command.now)) }
        ensures err { OnErr result ((self.new ≡ self.old) × (store.new ≡ store.old)) }
        // A chain that is begun stays so.
        ensures chain { self.new.chain ≡ self.old.chain }
        ensures rest { P.rest store.new ≡ P.rest store.old }
    {
        self.shape.admit(command)?;
        match *command {
            CommandRef::Update {
                x,
                y,
                width,
                height,
            } => {
                let extent = Extent {
                    x,
                    y,
                    width,
                    height,
                };
                Ok(Effect::Painted(self.update(store, extent)))
            }
            CommandRef::Fence { value } => {
                self.fence = value;
                Ok(Effect::Fence(value))
            }
            CommandRef::DefineScreen(def) => {
                self.define_screen(def);
                Ok(Effect::Shown(def.id))
            }
            CommandRef::DestroyScreen { id } => {
                self.destroy_screen(id);
                Ok(Effect::Hidden(id))
            }
            CommandRef::DefineGmrfb(gmrfb) => {
                self.define_gmrfb(gmrfb);
                Ok(Effect::Nothing)
            }
            CommandRef::BlitToScreen(blit) => Ok(Effect::Painted(self.blit_to_screens(
                store, &blit,
            ))),
            CommandRef::BlitToGmrfb(blit) => {
                self.blit_to_region(store, &blit);
                Ok(Effect::Nothing)
            }
            CommandRef::DefineGmr2 { region, pages } => {
                self.define_region(region, pages);
                Ok(Effect::Nothing)
            }
            CommandRef::RemapGmr2 {
                region,
                offset,
                pages,
                entries,
            } => {
                self.remap(store, region, offset, pages, entries)?;
                Ok(Effect::Nothing)
            }
        }
    }

    /// What the machine keeps without pixels, by which it judges commands.
    pub fn shape(&self) -> &Shape
        ensures shape { shape_in result.now ≡ shape_of self.now.kept }
        ensures chain { result.now.regions.chain ≡ self.now.chain }
        ensures valid { AreOfLimits result.now }
    {
        &self.shape
    }

    /// The limits of the device.
    pub fn limits(&self) -> Limits
        ensures limits { result ≡ self.now.kept.limits }
        ensures allowed { AreLimits result }
    {
        self.shape.limits()
    }

    /// The last fence, or that of the opening.
    pub fn fence(&self) -> u32
        ensures { result ≡ self.now.kept.fence }
    {
        self.fence
    }

    /// The screens.
    pub fn screens(&self) -> &Screens
        ensures { result.now ≡ record {
          budget = self.now.kept.limits.budget;
          screens = self.now.kept.screens;
        } }
    {
        &self.screens
    }

    /// Begins a chain: `Shape::chain_start` of its shape.
    pub fn chain_start(&mut self, id: u32, first: u32) -> Result<(), Fault>
        requires { first ≢ 0 }
        ensures chain { StartsChain (regions_in self.old) id first result (regions_in self.new) }
        ensures kept { self.new ≡ with_regions_of self.old self.new }
    {
        self.shape.chain_start(id, first)
    }

    /// Reads the table page that is wanted next: `Shape::chain_page` of its shape.
    pub fn chain_page(&mut self, page: &Page) -> Result<ChainNext, Fault>
        requires { IsChainBegun self.old.chain }
        ensures chain { ReadsChain (regions_in self.old) page.now result (regions_in self.new) }
        ensures kept { self.new ≡ with_regions_of self.old self.new }
    {
        self.shape.chain_page(page)
    }

    /// Gives the region the chain's list: `Shape::chain_finish` of its shape.
    pub fn chain_finish(&mut self) -> Result<(), Fault>
        requires { IsChainWhole self.old.chain }
        ensures chain { FinishesChain (regions_in self.old) result (regions_in self.new) }
        ensures kept { self.new ≡ with_regions_of self.old self.new }
    {
        self.shape.chain_finish()
    }

    /// UPDATE.
    fn update<P: PageStore>(&mut self, store: &P, extent: Extent) -> ArrayVec<Area, 16>
        requires { HasPages (P.pages store.now) (frame_places (frame_pages self.old.kept)) }
        ensures updated { self.new ≡ record self.old {
          kept = (updated (state_with self.old (P.pages store.now)) extent.x extent.y extent.width
              extent.height).kept;
        } }
        ensures areas { ArePainted (updated_colours
            (state_with self.old (P.pages store.now)) extent.x extent.y extent.width extent.height)
            (definitions_of self.old.kept.screens) result.items }
    {
        update_screens(
            self.shape.limits(),
            self.shape.regions(),
            &mut self.screens,
            store,
            extent,
            &mut self.row,
        )
    }

    /// DEFINE_SCREEN, which is admitted.
    fn define_screen(&mut self, def: ScreenDef)
        requires { IsAdmitted (shape_of self.old.kept) (commands.DefineScreen def) }
        ensures { self.new ≡ record self.old {
          kept = record self.old.kept
              { screens = with_screen self.old.kept.screens def };
        } }
    {
        self.shape.apply(&CommandRef::DefineScreen(def));
        self.screens.define_allowed(&def);
    }

    /// DESTROY_SCREEN, which is admitted.
    fn destroy_screen(&mut self, id: u32)
        requires { IsAdmitted (shape_of self.old.kept) (commands.DestroyScreen id) }
        ensures { self.new ≡ record self.old {
          kept = record self.old.kept
              { screens = without_screen self.old.kept.screens id };
        } }
    {
        self.shape.apply(&CommandRef::DestroyScreen { id });
        self.screens.destroy_allowed(id);
    }

    /// DEFINE_GMRFB, which is admitted.
    fn define_gmrfb(&mut self, gmrfb: Gmrfb)
        requires { IsAdmitted (shape_of self.old.kept) (commands.DefineGmrfb gmrfb) }
        ensures { self.new ≡ record self.old { kept = record self.old.kept { gmrfb = new_gmrfb gmrfb } } }
    {
        self.shape.apply(&CommandRef::DefineGmrfb(gmrfb));
    }

    /// DEFINE_GMR2, which is admitted.
    fn define_region(&mut self, region: u32, pages: u32)
        requires { IsAdmitted (shape_of self.old.kept) (commands.DefineGmr2 region pages) }
        ensures { self.new ≡ record self.old {
          kept = record self.old.kept
              { regions = with_region self.old.kept.regions region pages };
        } }
    {
        self.shape.apply(&CommandRef::DefineGmr2 { region, pages });
    }

    /// BLIT_GMRFB_TO_SCREEN, which is admitted.
    fn blit_to_screens<P: PageStore>(&mut self, store: &P, blit: &Blit) -> ArrayVec<Area, 16>
        requires admitted { IsAdmitted (shape_of self.old.kept) (commands.BlitToScreen blit.now) }
        requires there { HasPages (P.pages store.now)
            (touched_places self.old.kept (commands.BlitToScreen blit.now)) }
        ensures shown { self.new ≡ record self.old
            { kept = (shown (state_with self.old (P.pages store.now)) self.old.kept.gmrfb blit.now).kept } }
        ensures areas { ArePainted (blit_colours (state_with self.old (P.pages store.now)) self.old.kept.gmrfb
            blit.now) (definitions_of self.old.kept.screens) result.items }
    {
        match self.shape.gmrfb() {
            None => ArrayVec::new(),
            Some(gmrfb) => blit_to_screens(
                self.shape.regions(),
                &mut self.screens,
                store,
                &gmrfb,
                blit,
                &mut self.row,
            ),
        }
    }

    /// BLIT_SCREEN_TO_GMRFB, which is admitted.
    fn blit_to_region<P: PageStore>(&mut self, store: &mut P, blit: &Blit)
        requires admitted { IsAdmitted (shape_of self.old.kept) (commands.BlitToGmrfb blit.now) }
        requires there { HasPages (P.pages store.old)
            (touched_places self.old.kept (commands.BlitToGmrfb blit.now)) }
        ensures machine { self.new ≡ self.old }
        ensures written { P.pages store.new ≡ (read_back
            (state_with self.old (P.pages store.old)) self.old.kept.gmrfb blit.now).memory }
        ensures rest { P.rest store.new ≡ P.rest store.old }
    {
        if let Some(gmrfb) = self.shape.gmrfb() {
            blit_to_region(
                self.shape.regions(),
                &self.screens,
                store,
                &gmrfb,
                blit,
                &mut self.row,
            );
        }
    }

    /// REMAP_GMR2, of which all but numbers that are read is judged.
    fn remap<P: PageStore>(
        &mut self,
        store: &P,
        region: u32,
        offset: u32,
        pages: u32,
        entries: EntriesRef<'_>,
    ) -> Result<(), Fault>
        requires well_formed { IsWellFormed (commands.RemapGmr2 region offset pages (entries_of entries)) }
        requires admitted { IsAdmitted (shape_of self.old.kept)
            (commands.RemapGmr2 region offset pages (entries_of entries)) }
        requires there { HasPages (P.pages store.now)
            (touched_places self.old.kept (commands.RemapGmr2 region offset pages (entries_of entries))) }
        ensures fault { result_err result ≡ fault_of (state_with self.old (P.pages store.now))
            (Do (commands.RemapGmr2 region offset pages (entries_of entries.entry))) }
        ensures ok { OnOk result (self.new ≡ record self.old {
          kept = (step (state_with self.old (P.pages store.now))
              (Do (commands.RemapGmr2 region offset pages (entries_of entries.entry)))).kept;
        }) }
        ensures err { OnErr result (self.new ≡ self.old) }
    {
        remap(
            &mut self.shape,
            store,
            &mut self.numbers,
            region,
            offset,
            pages,
            entries,
        )
    }
}
