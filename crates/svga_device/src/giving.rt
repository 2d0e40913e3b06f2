//! Pages are given back.
ghost use Rattle.std.specs.Prelude.{◌≡◌, ◌<◌, ◌+◌, [], length, None, false};
ghost use Rattle.svga_cmd.specs.Pages.{IsKey, Memory, page_at};
ghost use Rattle.svga_cmd.specs.declared.page.PageKey.{PageKey};
ghost use Rattle.svga_device.specs.Serving.{AreListed, IsGiving};
ghost use Rattle.svga_ring.specs.Noting.{given_back, holds};
ghost use Rattle.svga_ring.specs.Views.{DeviceView};

use crate::held_pages::HeldPages;
use svga_cmd::PageKey;
use svga_link::DeviceEnd;

/// Gives all pages back that are held.
pub(crate) fn give_all(end: &mut DeviceEnd, held: &mut HeldPages)
    requires listed { AreListed end.old.view.terms.limits end.old.pages held.old }
    requires none_back { (key : PageKey) → given_back end.old.view.noted key ≡ None }
    ensures table { end.new.table ≡ end.old.table }
    ensures giving { IsGiving end.old.view end.new.view end.old.pages end.new.pages }
    ensures none_held { (key : PageKey) → holds end.new.view.noted key ≡ false }
    ensures none_there { (key : PageKey) → page_at end.new.pages key ≡ None }
    ensures none_listed { held.new ≡ [] }
{
    for k in 0..held.len() {
        let _ = k;
        give_last(end, held);
    }
    end.facts();
}

/// Gives the page back that is listed last.
fn give_last(end: &mut DeviceEnd, held: &mut HeldPages)
    requires some { 0 < length held.old }
    requires listed { AreListed end.old.view.terms.limits end.old.pages held.old }
    ensures table { end.new.table ≡ end.old.table }
    ensures giving { (first : DeviceView) (before : Memory)
        → IsGiving first end.old.view before end.old.pages
        → IsGiving first end.new.view before end.new.pages }
    ensures listed { AreListed end.old.view.terms.limits end.new.pages held.new }
    ensures fewer { length held.new + 1 ≡ length held.old }
{
    if let Some(key) = held.pop() {
        give_page(end, key);
    }
}

/// Gives the page back if it is held.
fn give_page(end: &mut DeviceEnd, key: PageKey)
    requires key { IsKey end.old.view.terms.limits key }
    ensures table { end.new.table ≡ end.old.table }
    ensures giving { (first : DeviceView) (before : Memory)
        → IsGiving first end.old.view before end.old.pages
        → IsGiving first end.new.view before end.new.pages }
    ensures gone { page_at end.new.pages key ≡ None }
    ensures none { (q : PageKey) → page_at end.old.pages q ≡ None → page_at end.new.pages q ≡ None }
{
    end.facts();
    if end.held(key) {
        end.give(key);
    }
}
