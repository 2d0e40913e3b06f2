//! The pages that steps find. The functions do nothing: their contracts are the laws.
ghost use Rattle.std.specs.Prelude.{◌≡◌, None, Some, true};
ghost use Rattle.svga_cmd.specs.declared.page.PageKey.{PageKey};
ghost use Rattle.svga_cmd.specs.declared.session.Session.{Session};
ghost use Rattle.svga_model.specs.Acts.{Act};
ghost use Rattle.svga_model.specs.Memories.{page_bytes};
ghost use Rattle.svga_model.specs.Runs.{run};
ghost use Rattle.svga_model.specs.States.{opening_state};
ghost use Rattle.svga_ring.specs.Conditions.{Can};
ghost use Rattle.svga_ring.specs.Core.{Core, HeldSlotOut, Hold, SlotOut, Take, page_at_home};
ghost use Rattle.svga_ring.specs.Noting.{bytes_at_home, holds};
ghost use Rattle.svga_ring.specs.Requests.{is_chain_out};
ghost use Rattle.svga_ring.specs.SharedTable.{slot_number};
ghost use Rattle.svga_ring.specs.Sound.{IsSound};
ghost use Rattle.svga_ring.specs.SoundPages.{TouchesInHand, reached};
ghost use Rattle.svga_ring.specs.TableSteps.{page_left};
ghost use lib.ListN.{get_elem?};
ghost use mathlib.Core.Option as maybe;

/// What the driver finds in a page's slot, in the session's words and in those of its own view.
pub fn driver_steps_on_pages()
    // A page that may be taken is at home, and holds what running all acts leaves, though some have still to
    // run.
    ensures taken { (k : Session) (c : Core) (key : PageKey) → IsSound k c → Can (Take key) c
        → get_elem? c.homes (slot_number k.limits key)
        ≡ maybe.some (maybe.some (Some (page_bytes
        (run (opening_state k.limits k.first) c.driver.acts).memory key))) }
    ensures taken_by_view { (k : Session) (c : Core) (key : PageKey) → IsSound k c → Can (Take key) c
        → get_elem? c.homes (slot_number c.driver.terms.limits key)
        ≡ maybe.some (maybe.some (Some (page_left c.driver key))) }

    // The slot of a page that is with it, and isn't out, is empty.
    ensures empty { (k : Session) (c : Core) (key : PageKey) → IsSound k c → Can (SlotOut key) c
        → get_elem? c.homes (slot_number k.limits key) ≡ maybe.some (maybe.some None) }
    ensures empty_by_view { (k : Session) (c : Core) (key : PageKey) → IsSound k c → Can (SlotOut key) c
        → get_elem? c.homes (slot_number c.driver.terms.limits key) ≡ maybe.some (maybe.some None) }
{}

/// What the device finds in a page's slot.
pub fn device_steps_on_pages()
    // A page that may be held is at home, and holds what was given back for the act in hand, or else what is
    // settled leaves.
    ensures found { (k : Session) (c : Core) (key : PageKey) (act : Act) → IsSound k c → Can (Hold key act) c
        → get_elem? c.homes (slot_number k.limits key)
        ≡ maybe.some (maybe.some (Some (bytes_at_home c.device.noted key
        (page_bytes (reached (opening_state k.limits k.first) c.device.done
        (is_chain_out c.driver.request c.device.answered) c.driver.acts).memory key)))) }
    ensures found_by_view { (k : Session) (c : Core) (key : PageKey) (act : Act) → IsSound k c
        → Can (Hold key act) c
        → get_elem? c.homes (slot_number c.device.terms.limits key)
        ≡ maybe.some (maybe.some (Some (page_at_home c.device.terms.limits c.homes key))) }

    // The slot of a page that is held, and isn't out, is empty.
    ensures empty { (k : Session) (c : Core) (key : PageKey) → IsSound k c → Can (HeldSlotOut key) c
        → get_elem? c.homes (slot_number k.limits key) ≡ maybe.some (maybe.some None) }
    ensures empty_by_view { (k : Session) (c : Core) (key : PageKey) → IsSound k c → Can (HeldSlotOut key) c
        → get_elem? c.homes (slot_number c.device.terms.limits key) ≡ maybe.some (maybe.some None) }

    // The act in hand touches each page that is held.
    ensures touched { (k : Session) (c : Core) (key : PageKey) → IsSound k c → holds c.device.noted key ≡ true
        → TouchesInHand (opening_state k.limits k.first) c.driver.acts c.device.done c.device.read
        c.driver.request
        c.device.wanted c.device.answered key }
{}
