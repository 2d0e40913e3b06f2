//! The law over every list of steps of either seat. The function does nothing: its contract is the law.
ghost use Rattle.std.specs.Prelude.{◌≡◌, ℕ, List, slice_index, take, Some, None};
ghost use Rattle.svga_cmd.specs.Pages.{IsKey};
ghost use Rattle.svga_cmd.specs.declared.page.PageKey.{PageKey};
ghost use Rattle.svga_cmd.specs.declared.session.Session.{Session};
ghost use Rattle.svga_model.specs.Memories.{page_bytes};
ghost use Rattle.svga_model.specs.Runs.{run};
ghost use Rattle.svga_model.specs.Sentences.{spelling_all};
ghost use Rattle.svga_model.specs.States.{opening_state};
ghost use Rattle.svga_ring.specs.Committed.{commands};
ghost use Rattle.svga_ring.specs.Core.{Core, Event, opening_core};
ghost use Rattle.svga_ring.specs.Lists.{CanAll, after_all};
ghost use Rattle.svga_ring.specs.Noting.{given_back};
ghost use Rattle.svga_ring.specs.SharedTable.{page_word, slot_number};
ghost use Rattle.svga_ring.specs.Sound.{IsSound};
ghost use lib.ListN.{get_elem?};
ghost use mathlib.Core.Option as maybe;

/// Whatever steps the two ends of a session make, in whichever order, as long as each makes its own under its
/// conditions.
pub fn two_party_law()
    // What is sound holds after each list of steps, and so after each step of a list.
    ensures sound { (k : Session) (events : List Event) → CanAll events (opening_core k)
        → IsSound k (after_all events (opening_core k)) }

    // The commands taken are, in order and whole, the first of those that were committed.
    ensures taken { (k : Session) (events : List Event) (c : Core) → CanAll events (opening_core k)
        → c ≡ after_all events (opening_core k)
        → c.device.taken ≡ spelling_all (take c.device.done (commands c.driver.acts)) }

    // Once all that is sent is taken and no request is out, the device keeps what running all acts leaves,
    // and so does each page at home that isn't given back for an act.
    ensures kept { (k : Session) (events : List Event) (c : Core) → CanAll events (opening_core k)
        → c ≡ after_all events (opening_core k)
        → c.driver.sent ≡ c.device.taken → c.driver.request.number ≡ c.device.answered
        → c.device.kept ≡ (run (opening_state k.limits k.first) c.driver.acts).kept }
    ensures pages { (k : Session) (events : List Event) (c : Core) (key : PageKey)
        → CanAll events (opening_core k) → c ≡ after_all events (opening_core k)
        → c.driver.sent ≡ c.device.taken → c.driver.request.number ≡ c.device.answered
        → IsKey k.limits key → slice_index c.words (page_word k.limits key) ≡ 1
        → given_back c.device.noted key ≡ None
        → get_elem? c.homes (slot_number k.limits key)
        ≡ maybe.some (maybe.some (Some (page_bytes
        (run (opening_state k.limits k.first) c.driver.acts).memory key))) }
{}
