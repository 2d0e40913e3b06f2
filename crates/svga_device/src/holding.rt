//! Pages are held for a command.
ghost use Rattle.std.specs.FinMap as map;
ghost use Rattle.std.specs.Prelude.{◌≡◌, ℕ, ◌+◌, ◌<◌, ◌≤◌, [], Some, IfSome, length, option_map, unwrap_or, true};
ghost use Rattle.svga_cmd.specs.Lent.{command_of};
ghost use Rattle.svga_cmd.specs.Pages.{HasPage, IsKey};
ghost use Rattle.svga_cmd.specs.Spelling.{Spells};
ghost use Rattle.svga_cmd.specs.WellFormed.{IsWellFormed};
ghost use Rattle.svga_cmd.specs.declared.constants.TheConstants.{MAX_PLACES};
ghost use Rattle.svga_cmd.specs.declared.page.PageKey.{PageKey};
ghost use Rattle.svga_device.specs.Serving.{AreListed, IsHolding};
ghost use Rattle.svga_machine.specs.Touched.{HasTouched};
ghost use Rattle.svga_model.specs.Regions.{places_of};
ghost use Rattle.svga_model.specs.Touches.{has_page, touched_places};
ghost use Rattle.svga_model.specs.ValidStates.{ArePlaces, IsKept};
ghost use Rattle.svga_ring.specs.Views.{DeviceView};
ghost use Rattle.svga_transfer.specs.Reach.{HasPages};

use crate::held_pages::HeldPages;
use svga_cmd::{CommandRef, PageKey};
use svga_link::DeviceEnd;
use svga_machine::Machine;
use svga_region::Regions;
use svga_shape::Touch;

/// Holds the pages that the command touches.
pub(crate) fn hold_touched(
    end: &mut DeviceEnd,
    held: &mut HeldPages,
    machine: &Machine,
    command: &CommandRef<'_>,
)
    requires well_formed { IsWellFormed (command_of command.now) }
    requires kept { end.old.view.kept ≡ machine.now.kept }
    requires limits { end.old.view.terms.limits ≡ end.old.view.kept.limits }
    requires valid { IsKept end.old.view.kept }
    requires read { Spells (command_of command.now) end.old.view.read }
    requires noted { end.old.view.noted ≡ map.empty }
    requires pages { end.old.pages ≡ map.empty }
    requires empty { held.old ≡ [] }
    ensures table { end.new.table ≡ end.old.table }
    ensures holding { IsHolding end.old.view end.new.view end.new.pages }
    ensures listed { AreListed end.old.view.terms.limits end.new.pages held.new }
    ensures there { HasTouched machine.now.kept end.new.pages (command_of command.now) }
{
    if let Ok(Touch::Region(id)) = machine.shape().admit(command) {
        let regions = machine.shape().regions();
        if let Some(count) = regions.length(id) {
            hold_places(end, held, regions, id, count, command);
        }
    }
}

/// Holds the pages of a region's places.
fn hold_places(
    end: &mut DeviceEnd,
    held: &mut HeldPages,
    regions: &Regions,
    id: u32,
    count: u32,
    command: &CommandRef<'_>,
)
    requires count { Some count
        ≡ option_map length (places_of regions.now.frame regions.now.regions id) }
    requires few { count ≤ MAX_PLACES }
    requires keys { ArePlaces end.old.view.terms.limits
        (unwrap_or (places_of regions.now.frame regions.now.regions id) []) }
    requires touched { touched_places end.old.view.kept (command_of command.now)
        ≡ unwrap_or (places_of regions.now.frame regions.now.regions id) [] }
    requires read { Spells (command_of command.now) end.old.view.read }
    requires noted { end.old.view.noted ≡ map.empty }
    requires pages { end.old.pages ≡ map.empty }
    requires empty { held.old ≡ [] }
    ensures table { end.new.table ≡ end.old.table }
    ensures holding { IsHolding end.old.view end.new.view end.new.pages }
    ensures listed { AreListed end.old.view.terms.limits end.new.pages held.new }
    ensures there { HasPages end.new.pages
        (unwrap_or (places_of regions.now.frame regions.now.regions id) []) }
{
    for k in 0..count {
        hold_place(end, held, regions.place(id, k), command);
    }
}

/// Holds the page of a place.
fn hold_place(
    end: &mut DeviceEnd,
    held: &mut HeldPages,
    place: Option<PageKey>,
    command: &CommandRef<'_>,
)
    requires key { IfSome place (IsKey end.old.view.terms.limits) }
    requires touched { IfSome place (λ key.
        has_page (touched_places end.old.view.kept (command_of command.now)) key ≡ true) }
    requires read { Spells (command_of command.now) end.old.view.read }
    requires room { length held.old < MAX_PLACES }
    ensures table { end.new.table ≡ end.old.table }
    ensures holding { (first : DeviceView) → IsHolding first end.old.view end.old.pages
        → IsHolding first end.new.view end.new.pages }
    ensures listed { AreListed end.old.view.terms.limits end.old.pages held.old
        → AreListed end.old.view.terms.limits end.new.pages held.new }
    ensures most { length held.new ≤ length held.old + 1 }
    ensures there { IfSome place (HasPage end.new.pages) }
    ensures more { (key : PageKey) → HasPage end.old.pages key → HasPage end.new.pages key }
{
    if let Some(key) = place {
        end.facts();
        if !end.held(key) {
            end.hold(key);
            held.push(key);
        }
    }
}
