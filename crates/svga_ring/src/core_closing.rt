//! What the joined seat knows. The function does nothing: its contract is the law.
ghost use Rattle.std.specs.Prelude.{◌≡◌, length, slice_index, Some};
ghost use Rattle.svga_cmd.specs.declared.page.PageKey.{PageKey};
ghost use Rattle.svga_cmd.specs.declared.session.Session.{Session};
ghost use Rattle.svga_model.specs.Fences.{fences, register_after};
ghost use Rattle.svga_model.specs.Memories.{page_bytes};
ghost use Rattle.svga_model.specs.Runs.{run};
ghost use Rattle.svga_model.specs.States.{opening_state};
ghost use Rattle.svga_ring.specs.Committed.{commands};
ghost use Rattle.svga_ring.specs.Conditions.{Can, first_state};
ghost use Rattle.svga_ring.specs.Core.{Core, TakeJoined};
ghost use Rattle.svga_ring.specs.Layouts.{word_address};
ghost use Rattle.svga_ring.specs.SharedTable.{config_word, fence_word, max_word, next_word, slot_number, stop_word};
ghost use Rattle.svga_ring.specs.Sound.{IsSound};
ghost use Rattle.svga_ring.specs.TableSteps.{page_left};
ghost use Rattle.svga_ring.specs.Views.{Joined};
ghost use lib.ListN.{get_elem?};
ghost use mathlib.Core.Option as maybe;

/// What the joined seat knows determines the five words with which a session ends, and what it kept; and a
/// page that it takes holds what running all acts leaves.
pub fn joined_seat_knows()
    ensures words { (k : Session) (c : Core) → IsSound k c → c.seats ≡ Joined
        → (slice_index c.words max_word ≡ c.driver.layout.max)
        × (slice_index c.words next_word ≡ word_address c.driver.layout (length c.driver.sent))
        × (slice_index c.words stop_word ≡ word_address c.driver.layout (length c.driver.sent))
        × (slice_index c.words fence_word ≡ register_after k.first
        (length (fences (commands c.driver.acts)))) × (slice_index c.words config_word ≡ 0) }
    ensures kept { (k : Session) (c : Core) → IsSound k c → c.seats ≡ Joined
        → c.device.kept ≡ (run (opening_state k.limits k.first) c.driver.acts).kept }
    ensures taken { (k : Session) (c : Core) (key : PageKey) → IsSound k c → Can (TakeJoined key) c
        → get_elem? c.homes (slot_number k.limits key)
        ≡ maybe.some (maybe.some (Some (page_bytes
        (run (opening_state k.limits k.first) c.driver.acts).memory key))) }
    ensures taken_by_view { (k : Session) (c : Core) (key : PageKey) → IsSound k c → Can (TakeJoined key) c
        → get_elem? c.homes (slot_number c.driver.terms.limits key)
        ≡ maybe.some (maybe.some (Some (page_left c.driver key))) }

    // The same of FENCE and of what is kept in the words of the seat's own views.
    ensures fence_by_view { (k : Session) (c : Core) → IsSound k c → c.seats ≡ Joined
        → slice_index c.words fence_word
        ≡ register_after c.driver.terms.first (length (fences (commands c.driver.acts))) }
    ensures kept_by_view { (k : Session) (c : Core) → IsSound k c → c.seats ≡ Joined
        → c.device.kept ≡ (run (first_state c.driver) c.driver.acts).kept }
{}
