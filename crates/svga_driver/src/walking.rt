//! How a driver reads a chain of table pages, so that its shape gets the chain's region.
ghost use Rattle.std.specs.Prelude.{◌≡◌, ◌≢◌, ◌≤◌, ◌<◌, ◌⊎◌, None};
ghost use Rattle.svga_cmd.specs.declared.constants.TheConstants.{MAX_PLACES, MAX_REGION_ID};
ghost use Rattle.svga_driver.specs.DescribeAnswers.{IsReread};
ghost use Rattle.svga_driver.specs.Walking.{ChainAnswers, HasLentPages, IsAtRest, giving_again};
ghost use Rattle.svga_link.specs.Lending.{MayTakeBack};
ghost use Rattle.svga_model.specs.Acts.{Chain};
ghost use Rattle.svga_model.specs.Faults.{fault_of};
ghost use Rattle.svga_model.specs.Regions.{place_count};
ghost use Rattle.svga_model.specs.States.{State, shape_of};
ghost use Rattle.svga_model.specs.Steps.{step};
ghost use Rattle.svga_region.specs.ChainCalls.{ReadsChain};
ghost use Rattle.svga_region.specs.Conditions.{IsChainBegun};
ghost use Rattle.svga_ring.specs.TableSteps.{page_left};
ghost use Rattle.svga_shape.specs.ShapeSet.{shape_in};

use crate::fault::DriverFault;
use svga_cmd::constants::MAX_DESCRIPTORS;
use svga_cmd::{CommandRef, Fault, PageKey};
use svga_link::DriverEnd;
use svga_region::ChainNext;
use svga_shape::Shape;

/// Makes the shape that of the state after a chain, whose table pages are read, or tells the first obstacle
/// of this reading. By page 0 nothing is read, and the region goes.
pub(crate) fn read_chain(
    end: &mut DriverEnd,
    shape: &mut Shape,
    id: u32,
    first: u32,
) -> Result<(), DriverFault>
    requires at_rest { IsAtRest end.old.view }
    requires limits { shape.old.limits ≡ end.old.view.terms.limits }
    requires within { place_count shape.old.regions.regions ≤ MAX_PLACES }
    requires region { id ≤ MAX_REGION_ID }
    requires page { (first ≡ 0) ⊎ (first < end.old.view.terms.limits.pages) }
    ensures end { end.new ≡ record end.old { view = end.new.view } }
    ensures reread { IsReread end.old.view end.new.view }
    ensures answer { (s : State) → shape_of s.kept ≡ shape_in shape.old → HasLentPages s end.old.view
        → ChainAnswers s end.old.view.lent id first result shape.old shape.new }
{
    if first == 0 {
        forget(shape, id);
        return Ok(());
    }
    walk(end, shape, id, first)
}

// The region goes from the shape.
fn forget(shape: &mut Shape, id: u32)
    requires within { place_count shape.old.regions.regions ≤ MAX_PLACES }
    requires region { id ≤ MAX_REGION_ID }
    ensures admissible { (s : State) → shape_of s.kept ≡ shape_in shape.old
        → fault_of s (Chain id 0) ≡ None }
    ensures shape { (s : State) → shape_of s.kept ≡ shape_in shape.old
        → shape_of (step s (Chain id 0)).kept ≡ shape_in shape.new }
{
    shape.apply(&CommandRef::DefineGmr2 {
        region: id,
        pages: 0,
    });
}

// Reads a chain page by page, each of which has to be lent.
fn walk(end: &mut DriverEnd, shape: &mut Shape, id: u32, first: u32) -> Result<(), DriverFault>
    requires at_rest { IsAtRest end.old.view }
    requires limits { shape.old.limits ≡ end.old.view.terms.limits }
    requires region { id ≤ MAX_REGION_ID }
    requires some { first ≢ 0 }
    requires page { first < end.old.view.terms.limits.pages }
    ensures end { end.new ≡ record end.old { view = end.new.view } }
    ensures reread { IsReread end.old.view end.new.view }
    ensures answer { (s : State) → shape_of s.kept ≡ shape_in shape.old → HasLentPages s end.old.view
        → ChainAnswers s end.old.view.lent id first result shape.old shape.new }
{
    // Whoever asks for the regions learns that they have the pages of the limits.
    let _regions = shape.regions();
    match shape.chain_start(id, first) {
        Ok(()) => {}
        Err(_) => unreachable!(),
    }
    let mut wanted = first;
    for _step in 0..MAX_DESCRIPTORS as u32 {
        end.facts();
        let key = PageKey::Guest(wanted);
        if end.page(key).is_some() {
            return Err(DriverFault::PageOut(key));
        }
        match read_table(end, shape, key) {
            Ok(ChainNext::Page(next)) => wanted = next,
            Ok(ChainNext::Whole) => return match shape.chain_finish() {
                Ok(()) => Ok(()),
                Err(fault) => Err(DriverFault::Refused(fault)),
            },
            Err(fault) => return Err(DriverFault::Refused(fault)),
        }
    }
    // No chain goes on behind 4,096 descriptors.
    unreachable!()
}

// Reads a lent page for the chain that wants it: the page is taken, and lent again as it was.
fn read_table(end: &mut DriverEnd, shape: &mut Shape, key: PageKey) -> Result<ChainNext, Fault>
    requires begun { IsChainBegun shape.old.regions.chain }
    requires may { MayTakeBack end.old.view key }
    ensures end { end.new ≡ record end.old { view = giving_again end.old.view key } }
    ensures chain { ReadsChain shape.old.regions (page_left end.old.view key) result shape.new.regions }
    ensures shape { shape.new ≡ record shape.old { regions = shape.new.regions } }
{
    end.facts();
    end.take(key);
    let answer = match end.page(key) {
        Some(page) => shape.chain_page(page),
        None => unreachable!(),
    };
    end.lend(key);
    answer
}
