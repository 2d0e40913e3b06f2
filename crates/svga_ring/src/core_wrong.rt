//! Steps of wrong ends, each of which leaves a state that isn't sound. The function does nothing: its
//! contract is the law.
ghost use Rattle.std.specs.Prelude.{◌≡◌, ◌≢◌, ◌+◌, ◌<◌, ◌≤◌, ℕ, slice_index};
ghost use Rattle.svga_cmd.specs.Spelling.{Spells};
ghost use Rattle.svga_cmd.specs.declared.command.Command.{Command};
ghost use Rattle.svga_cmd.specs.declared.command.Command.TheVariants.{Fence};
ghost use Rattle.svga_cmd.specs.declared.session.Session.{Session};
ghost use Rattle.svga_ring.specs.Committed.{commands, fences_passed};
ghost use Rattle.svga_ring.specs.Core.{Core, StoreCell, StoreStop, after, put_count};
ghost use Rattle.svga_ring.specs.Layouts.{ring_dwords, word_cell};
ghost use Rattle.svga_ring.specs.Sound.{IsSoundOfWords};
ghost use Rattle.svga_ring.specs.WrongSteps.{claiming_seen, storing_fence, straight_offset, straight_on};

/// No end that is sound makes such a step. The sentence that each breaks has a name.
pub fn wrong_steps_are_refused()
    // The ring is filled wholly, so that full looks empty: `room`.
    ensures full_looks_empty { (k : Session) (c : Core) (word : ℕ) → c.driver.layout ≡ c.device.layout
        → c.driver.stop + ring_dwords c.driver.layout ≤ put_count c.driver + 1
        → IsSoundOfWords k (after (StoreCell word) c) → ⊥ }

    // A word is written straight on past MAX, where its own cell holds another one: `cells`.
    ensures past_max { (k : Session) (c : Core) (word : ℕ) → IsSoundOfWords k c
        → ring_dwords c.driver.layout ≤ straight_offset c.driver
        → slice_index c.words (word_cell c.driver.layout (put_count c.driver)) ≢ word
        → IsSoundOfWords k (straight_on word c) → ⊥ }

    // STOP is stored though no whole command was read: `taken_whole`.
    ensures early_start { (k : Session) (c : Core) (claimed : Command) → IsSoundOfWords k c
        → ((command : Command) → Spells command c.device.read → ⊥)
        → IsSoundOfWords k (after (StoreStop claimed) c) → ⊥ }

    // FENCE is stored though its fence isn't the command in hand, say before the commands ahead of it are
    // taken: `in_hand` or `register_is`.
    ensures early_fence { (k : Session) (c : Core) (value : ℕ) → IsSoundOfWords k c
        → (Spells (Fence value) c.device.read → ⊥)
        → IsSoundOfWords k (storing_fence value c) → ⊥ }

    // Fences are taken for passed that aren't, as plain numbers say where they wrap: `seen_passed`. The other
    // error, to miss a fence that has passed, is refused by `loads_tell`.
    ensures plain_fence_order { (k : Session) (c : Core) (j : ℕ) → IsSoundOfWords k c
        → fences_passed (commands c.driver.acts) c.device.done c.device.stored < j
        → IsSoundOfWords k (claiming_seen j c) → ⊥ }
{}
