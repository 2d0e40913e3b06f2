//! Steps of wrong ends on requests and on words that are sent, each of which leaves a state that isn't sound.
//! The function does nothing: its contract is the law.
ghost use Rattle.std.specs.Prelude.{◌≡◌, ◌≢◌, ◌<◌, [], ℕ, length, slice_index, true};
ghost use Rattle.svga_cmd.specs.Pages.{IsKey};
ghost use Rattle.svga_cmd.specs.declared.page.PageKey.{PageKey};
ghost use Rattle.svga_cmd.specs.declared.session.Session.{Session};
ghost use Rattle.svga_cmd.specs.declared.session.Way.TheVariants.{Reserve};
ghost use Rattle.svga_ring.specs.Committed.{commands};
ghost use Rattle.svga_ring.specs.Core.{Core, StoreReply, StoreRequest, StoreReserved, after, put_count};
ghost use Rattle.svga_ring.specs.Layouts.{word_cell};
ghost use Rattle.svga_ring.specs.Noting.{NotedPages, holds};
ghost use Rattle.svga_ring.specs.Sound.{IsSound, IsSoundOfWords};
ghost use Rattle.svga_ring.specs.WrongSteps.{sending_ahead, with_notes};

/// No end that is sound makes such a step. The sentence that each breaks has a name.
pub fn wrong_request_steps_are_refused()
    // NEXT_CMD is stored before the cell of its last word, which holds another one: `cells`.
    ensures next_before_cell { (k : Session) (c : Core) (word : ℕ) → IsSoundOfWords k c
        → slice_index c.words (word_cell c.driver.layout (put_count c.driver)) ≢ word
        → IsSoundOfWords k (sending_ahead word c) → ⊥ }

    // RESERVED is 0 before NEXT_CMD is stored: `while_pending`.
    ensures reserved_early { (k : Session) (c : Core) → c.driver.terms.way ≡ Reserve → c.driver.pending ≢ []
        → IsSound k (after (StoreReserved 0) c) → ⊥ }

    // A chain is asked for while commands are under way: `chains_done`.
    ensures ask_under_way { (k : Session) (c : Core) (id first : ℕ)
        → c.device.done < length (commands c.driver.acts)
        → IsSound k (after (StoreRequest id first) c) → ⊥ }

    // The reply is stored while a page is still held, whatever is noted then: `noted_touched`, since its word
    // says that it is held, and no chain is out any more that could touch it.
    ensures early_reply { (k : Session) (c : Core) (key : PageKey) (noted : NotedPages) → IsSound k c
        → IsKey k.limits key
        → c.device.wanted ≡ c.driver.request → c.device.read ≡ [] → holds c.device.noted key ≡ true
        → IsSound k (with_notes noted (after StoreReply c)) → ⊥ }
{}
