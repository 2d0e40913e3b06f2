//! Steps of wrong ends on pages, each of which leaves a state that isn't sound. The function does nothing:
//! its contract is the law.
ghost use Rattle.std.specs.Prelude.{◌≡◌, ◌≤◌, ℕ, true};
ghost use Rattle.svga_cmd.specs.Pages.{IsKey};
ghost use Rattle.svga_cmd.specs.declared.command.Command.{Command};
ghost use Rattle.svga_cmd.specs.declared.page.PageKey.{PageKey};
ghost use Rattle.svga_cmd.specs.declared.session.Session.{Session};
ghost use Rattle.svga_model.specs.States.{opening_state};
ghost use Rattle.svga_ring.specs.Core.{Core, StoreStop, Take, after};
ghost use Rattle.svga_ring.specs.Noting.{NotedPages, holds};
ghost use Rattle.svga_ring.specs.Sound.{IsSound};
ghost use Rattle.svga_ring.specs.SoundPages.{TouchesAt, known_done};
ghost use Rattle.svga_ring.specs.WrongSteps.{with_notes};

/// No end that is sound makes such a step. The sentence that each breaks has a name.
pub fn wrong_page_steps_are_refused()
    // STOP is stored while a page is still held, whatever is noted then: `noted_touched`, since its word says
    // that it is held, and nothing is in hand any more that could touch it.
    ensures early_stop { (k : Session) (c : Core) (command : Command) (key : PageKey) (noted : NotedPages)
        → IsSound k c → IsKey k.limits key
        → holds c.device.noted key ≡ true → IsSound k (with_notes noted (after (StoreStop command) c)) → ⊥ }

    // A page is taken behind any fence that was seen, though a command touches it that isn't known to be
    // taken: `with_driver_free`.
    ensures any_fence { (k : Session) (c : Core) (key : PageKey) (n : ℕ)
        → known_done c.driver.acts c.driver.passed c.driver.seen ≤ n
        → TouchesAt (opening_state k.limits k.first) c.driver.acts n key → IsSound k (after (Take key) c)
        → ⊥ }
{}
