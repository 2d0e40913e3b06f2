//! A request for a chain is loaded, and answered.
ghost use Rattle.std.specs.FinMap as map;
ghost use Rattle.std.specs.Prelude.{◌≡◌, ◌≢◌, ◌+◌, ◌<◌, ◌≤◌, ℕ, ◌++◌, ◌∷◌, [], List, None, false, length, true};
ghost use Rattle.svga_cmd.specs.Pages.{HasPage, IsKey};
ghost use Rattle.svga_cmd.specs.declared.constants.TheConstants.{MAX_PLACES};
ghost use Rattle.svga_cmd.specs.declared.page.PageKey.TheVariants.{Guest};
ghost use Rattle.svga_device.specs.Chains.{AreAmong, HasAnswered, HasWalked, IsAnsweredBy, IsAnswering, IsChainRun, IsOut, IsWalked, IsWalking};
ghost use Rattle.svga_device.specs.Devices.{IsResting};
ghost use Rattle.svga_device.specs.Serving.{AreListed, IsHolding};
ghost use Rattle.svga_link.specs.Holding.{HasNumbers, RequestTold};
ghost use Rattle.svga_ring.specs.Conditions.{IsInHand};
ghost use Rattle.svga_ring.specs.Core.{chain_of};
ghost use Rattle.svga_ring.specs.Noting.{MayHold};
ghost use Rattle.svga_ring.specs.Views.{DeviceView};

use crate::giving::give_all;
use crate::held_pages::HeldPages;
use svga_cmd::constants::MAX_DESCRIPTORS;
use svga_cmd::{CommandRef, PageKey, PageStore};
use svga_link::{DeviceEnd, Request};
use svga_machine::Machine;
use svga_region::ChainNext;

/// Loads the driver's last request, and answers it if it is out. It says whether it was.
pub(crate) fn answer_request(
    end: &mut DeviceEnd,
    held: &mut HeldPages,
    machine: &mut Machine,
) -> bool
    requires resting { IsResting end.old machine.old }
    requires empty { held.old ≡ [] }
    ensures table { end.new.table ≡ end.old.table }
    ensures answered { result ≡ true → HasAnswered end.old.view end.new.view }
    ensures none { result ≡ false → RequestTold end.old.view end.new.view None }
    ensures resting { IsResting end.new machine.new }
    ensures chain { machine.old.chain ≡ None → machine.new.chain ≡ None }
    ensures empty { held.new ≡ [] }
{
    match end.read_request() {
        Some(request) => {
            answer(end, held, machine, request);
            true
        }
        None => false,
    }
}

/// Serves the request that was loaded and isn't answered: reads its chain from the pages that it enters,
/// gives the region the chain's list, gives the pages back as they were found, and stores the reply. No chain
/// that is asked for has a fault.
fn answer(end: &mut DeviceEnd, held: &mut HeldPages, machine: &mut Machine, request: Request)
    requires out { IsOut end.old.view request }
    requires resting { IsResting end.old machine.old }
    requires empty { held.old ≡ [] }
    ensures table { end.new.table ≡ end.old.table }
    ensures answered { IsAnsweredBy end.old.view end.new.view }
    ensures resting { IsResting end.new machine.new }
    ensures chain { machine.old.chain ≡ None → machine.new.chain ≡ None }
    ensures empty { held.new ≡ [] }
{
    end.facts();
    run_chain(end, held, machine, request);
    give_all(end, held);
    end.reply(request.number);
}

/// Runs the chain on the pages that it touches, and holds them. With first page 0 it touches none, and its
/// region goes.
fn run_chain(end: &mut DeviceEnd, held: &mut HeldPages, machine: &mut Machine, request: Request)
    requires answering { IsAnswering end.old machine.old }
    requires numbers { HasNumbers request end.old.view.wanted }
    requires pages { end.old.pages ≡ map.empty }
    requires empty { held.old ≡ [] }
    ensures table { end.new.table ≡ end.old.table }
    ensures holding { IsHolding end.old.view end.new.view end.new.pages }
    ensures listed { AreListed end.old.view.terms.limits end.new.pages held.new }
    ensures ran { IsChainRun end.old.view.kept end.new.pages end.old.view.wanted machine.new.kept }
    ensures chain { machine.old.chain ≡ None → machine.new.chain ≡ None }
{
    if request.descriptor == 0 {
        remove_region(end, machine, request.id);
    } else {
        start_chain(end, machine, request);
        read_tables(end, held, machine, request.descriptor);
        finish_chain(end, machine);
    }
}

/// Removes the region, as a definition of no places does. It needs no room, so that only its id could be
/// refused.
fn remove_region(end: &mut DeviceEnd, machine: &mut Machine, region: u32)
    requires answering { IsAnswering end.old machine.old }
    requires region { region ≡ end.old.view.wanted.id }
    requires none { end.old.view.wanted.descriptor ≡ 0 }
    ensures end { end.new ≡ end.old }
    ensures ran { IsChainRun end.old.view.kept end.old.pages end.old.view.wanted machine.new.kept }
    ensures chain { machine.new.chain ≡ machine.old.chain }
{
    end.facts();
    match machine.run(end, &CommandRef::DefineGmr2 { region, pages: 0 }) {
        Ok(_effect) => {}
        Err(_) => unreachable!(),
    }
}

/// Begins the chain.
fn start_chain(end: &DeviceEnd, machine: &mut Machine, request: Request)
    requires answering { IsAnswering end.now machine.old }
    requires numbers { HasNumbers request end.now.view.wanted }
    requires some { request.descriptor ≢ 0 }
    ensures left { machine.new ≡ record machine.old { chain = machine.new.chain } }
    ensures walking { IsWalking end.now machine.new [] request.descriptor }
{
    end.facts();
    match machine.chain_start(request.id, request.descriptor) {
        Ok(()) => {}
        Err(_) => unreachable!(),
    }
}

/// Reads the table pages that the walk enters, one after another, and holds them.
fn read_tables(end: &mut DeviceEnd, held: &mut HeldPages, machine: &mut Machine, first: u32)
    requires answering { IsAnswering end.old machine.old }
    requires walking { IsWalking end.old machine.old [] first }
    requires pages { end.old.pages ≡ map.empty }
    requires empty { held.old ≡ [] }
    ensures table { end.new.table ≡ end.old.table }
    ensures left { machine.new ≡ record machine.old { chain = machine.new.chain } }
    ensures answering { IsAnswering end.new machine.new }
    ensures holding { IsHolding end.old.view end.new.view end.new.pages }
    ensures listed { AreListed end.old.view.terms.limits end.new.pages held.new }
    ensures walked { (read : List ℕ) × IsWalked end.new machine.new read }
{
    let mut wanted = first;
    for k in 0..MAX_DESCRIPTORS {
        let _ = k;
        match read_table(end, held, machine, wanted) {
            ChainNext::Page(next) => wanted = next,
            ChainNext::Whole => return,
        }
    }
    unreachable!()
}

/// Reads the table page that is wanted, which it holds, and says what the chain asks for next.
fn read_table(
    end: &mut DeviceEnd,
    held: &mut HeldPages,
    machine: &mut Machine,
    wanted: u32,
) -> ChainNext
    requires answering { IsAnswering end.old machine.old }
    requires walking { (read : List ℕ) × IsWalking end.old machine.old read wanted }
    requires room { length held.old < MAX_PLACES }
    ensures table { end.new.table ≡ end.old.table }
    ensures left { machine.new ≡ record machine.old { chain = machine.new.chain } }
    ensures answering { IsAnswering end.new machine.new }
    ensures view { end.new.view ≡ record end.old.view { noted = end.new.view.noted } }
    ensures listed { AreListed end.old.view.terms.limits end.old.pages held.old
        → AreListed end.old.view.terms.limits end.new.pages held.new }
    ensures most { length held.new ≤ length held.old + 1 }
    ensures walked { (read : List ℕ) → IsWalking end.old machine.old read wanted
        → HasWalked end.new machine.new (read ++ wanted ∷ []) result }
{
    hold_table(end, held, wanted);
    end.facts();
    match machine.chain_page(end.page(PageKey::Guest(wanted))) {
        Ok(next) => next,
        Err(_) => unreachable!(),
    }
}

/// Holds a table page, unless it is held already.
fn hold_table(end: &mut DeviceEnd, held: &mut HeldPages, page: u32)
    requires key { IsKey end.old.view.terms.limits (Guest page) }
    requires in_hand { IsInHand end.old.view (chain_of end.old.view.wanted) }
    requires touched { MayHold end.old.view (chain_of end.old.view.wanted) (Guest page) }
    requires room { length held.old < MAX_PLACES }
    ensures table { end.new.table ≡ end.old.table }
    ensures holding { (first : DeviceView) → IsHolding first end.old.view end.old.pages
        → IsHolding first end.new.view end.new.pages }
    ensures listed { AreListed end.old.view.terms.limits end.old.pages held.old
        → AreListed end.old.view.terms.limits end.new.pages held.new }
    ensures most { length held.new ≤ length held.old + 1 }
    ensures there { HasPage end.new.pages (Guest page) }
    ensures among { AreAmong end.old.pages end.new.pages }
{
    end.facts();
    let key = PageKey::Guest(page);
    if !end.held(key) {
        end.hold(key);
        held.push(key);
    }
}

/// Gives the region the chain's list.
fn finish_chain(end: &DeviceEnd, machine: &mut Machine)
    requires answering { IsAnswering end.now machine.old }
    requires walked { (read : List ℕ) × IsWalked end.now machine.old read }
    ensures ran { IsChainRun end.now.view.kept end.now.pages end.now.view.wanted machine.new.kept }
    ensures chain { machine.new.chain ≡ None }
{
    end.facts();
    match machine.chain_finish() {
        Ok(()) => {}
        Err(_) => unreachable!(),
    }
}
