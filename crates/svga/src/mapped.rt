//! Which pages of guest memory stand in a region.
ghost use Rattle.std.specs.Prelude.{◌≡◌, ◌<◌, ◌≤◌, ℕ, Some, IfOk, length};
ghost use Rattle.svga.specs.Mapped.{AreBelow, AreMapped, AreMarked, in_first, defined_list};
ghost use Rattle.svga_cmd.specs.declared.page.PageKey.TheVariants as key;
ghost use Rattle.svga_model.specs.Touches.{has_page, is_page};
ghost use Rattle.svga_model.specs.ValidStates.{IsKept};

use std::alloc::{AllocError, Global};
use svga_cmd::PageKey;
use svga_cmd::constants::REGION_IDS;
use svga_machine::Machine;
use svga_region::Regions;

/// Whether each page of guest memory stands in a region, the framebuffer's aside. It takes time in
/// the number of places.
pub fn mapped_pages(alloc: Global, machine: &Machine) -> Result<Vec<bool>, AllocError>
    requires { IsKept machine.now.kept }
    ensures { IfOk result (λ mapped. AreMapped machine.now.kept mapped.items) }
{
    let mut mapped = vec![in alloc; false; machine.limits().pages as usize]?;
    mark_regions(machine.shape().regions(), REGION_IDS as u32, &mut mapped);
    Ok(mapped)
}

// Marks the pages that stand in the regions with ids below `count`.
fn mark_regions(regions: &Regions, count: u32, mapped: &mut [bool])
    requires ids { count ≤ REGION_IDS }
    requires below { (id : ℕ) → AreBelow (length mapped.old) (defined_list regions.now.regions id) }
    ensures { AreMarked (in_first regions.now.regions count) mapped.old mapped.new }
{
    for id in 0..count {
        mark_region(regions, id, mapped);
    }
}

// Marks the pages that stand in one region.
fn mark_region(regions: &Regions, id: u32, mapped: &mut [bool])
    requires id { id < REGION_IDS }
    requires below { AreBelow (length mapped.old) (defined_list regions.now.regions id) }
    ensures { AreMarked (has_page (defined_list regions.now.regions id)) mapped.old mapped.new }
{
    if let Some(count) = regions.length(id) {
        for k in 0..count {
            mark_place(regions.place(id, k), mapped);
        }
    }
}

// Marks the page that a place is mapped to, if it is one of guest memory.
fn mark_place(place: Option<PageKey>, mapped: &mut [bool])
    requires { (p : ℕ) → place ≡ Some (key.Guest p) → p < length mapped.old }
    ensures { AreMarked (λ page. is_page page place) mapped.old mapped.new }
{
    match place {
        Some(PageKey::Guest(p)) => mapped[p as usize] = true,
        Some(PageKey::Frame(_)) => {}
        None => {}
    }
}
