//! What the words that are loaded tell, and what is taken. The functions do nothing: their contracts are the
//! laws.
ghost use Rattle.std.specs.Prelude.{◌≡◌, ◌+◌, ◌<◌, ◌≤◌, ◌++◌, ℕ, List, length, slice_index, take, Some};
ghost use Rattle.std.specs.List.{slice_get};
ghost use Rattle.svga_cmd.specs.Spelling.{Spells};
ghost use Rattle.svga_cmd.specs.declared.command.Command.{Command};
ghost use Rattle.svga_cmd.specs.declared.session.Session.{Session};
ghost use Rattle.svga_model.specs.Sentences.{spelling_all};
ghost use Rattle.svga_ring.specs.Committed.{commands, fences_passed};
ghost use Rattle.svga_model.specs.Fences.{fences};
ghost use Rattle.svga_ring.specs.Conditions.{Can};
ghost use Rattle.svga_ring.specs.Core.{Core, Event, after};
ghost use Rattle.svga_ring.specs.Layouts.{ring_dwords, word_address};
ghost use Rattle.svga_ring.specs.Seen.{IsSeen};
ghost use Rattle.svga_ring.specs.SharedTable.{fence_word, next_word, stop_word};
ghost use Rattle.svga_ring.specs.Sound.{IsSoundOfWords};

/// A load tells a count, though its word is an address or a number that comes round again.
pub fn loads_tell()
    // STOP: of the counts from the one known up to what is sent, one alone has this address, and so many
    // words are taken.
    ensures stop { (k : Session) (c : Core) (n : ℕ) → IsSoundOfWords k c → c.driver.stop ≤ n
        → n ≤ length c.driver.sent
        → word_address c.driver.layout n ≡ slice_index c.words stop_word → n ≡ length c.device.taken }
    ensures stop_fits { (k : Session) (c : Core) → IsSoundOfWords k c
        → (c.driver.stop ≤ length c.device.taken) × (length c.device.taken ≤ length c.driver.sent)
        × (word_address c.driver.layout (length c.device.taken) ≡ slice_index c.words stop_word) }

    // So many words are so many commands.
    ensures passed { (k : Session) (c : Core) (m : ℕ) → IsSoundOfWords k c
        → m ≤ length (commands c.driver.acts)
        → length c.device.taken ≡ length (spelling_all (take m (commands c.driver.acts)))
        → m ≡ c.device.done }

    // NEXT_CMD: of the counts from the one known on, less than a turn further, one alone has this address,
    // and so many are sent.
    ensures next { (k : Session) (c : Core) (n : ℕ) → IsSoundOfWords k c → c.device.next ≤ n
        → n < c.device.next + ring_dwords c.device.layout
        → word_address c.device.layout n ≡ slice_index c.words next_word → n ≡ length c.driver.sent }
    ensures next_fits { (k : Session) (c : Core) → IsSoundOfWords k c
        → (c.device.next ≤ length c.driver.sent)
        × (length c.driver.sent < c.device.next + ring_dwords c.device.layout)
        × (word_address c.device.layout (length c.driver.sent) ≡ slice_index c.words next_word) }

    // FENCE: of the counts from the one seen up to the fences sent, one alone has this number, also where the
    // numbers wrap.
    ensures fence { (k : Session) (c : Core) (j : ℕ) → IsSoundOfWords k c
        → IsSeen k.first c.driver.seen (length (fences (commands c.driver.acts)))
        (slice_index c.words fence_word) j
        → j ≡ fences_passed (commands c.driver.acts) c.device.done c.device.stored }
    ensures fence_fits { (k : Session) (c : Core) → IsSoundOfWords k c
        → IsSeen k.first c.driver.seen (length (fences (commands c.driver.acts)))
        (slice_index c.words fence_word) (fences_passed (commands c.driver.acts) c.device.done
        c.device.stored) }

    // The same by the first fence that the driver's view has.
    ensures fence_by_view { (k : Session) (c : Core) (j : ℕ) → IsSoundOfWords k c
        → IsSeen c.driver.terms.first c.driver.seen (length (fences (commands c.driver.acts)))
        (slice_index c.words fence_word) j
        → j ≡ fences_passed (commands c.driver.acts) c.device.done c.device.stored }
    ensures fence_fits_by_view { (k : Session) (c : Core) → IsSoundOfWords k c
        → IsSeen c.driver.terms.first c.driver.seen (length (fences (commands c.driver.acts)))
        (slice_index c.words fence_word)
        (fences_passed (commands c.driver.acts) c.device.done c.device.stored) }

    // What is known never falls, whichever step is made.
    ensures never_falls { (k : Session) (c : Core) (event : Event) → IsSoundOfWords k c → Can event c
        → (c.driver.stop ≤ (after event c).driver.stop) × (c.device.next ≤ (after event c).device.next)
        × (c.driver.seen ≤ (after event c).driver.seen) }
{}

/// Commands are taken in order and whole.
pub fn taken_in_order()
    // The words that are taken are those of the first so many of the committed commands.
    ensures prefix { (k : Session) (c : Core) → IsSoundOfWords k c
        → (c.device.done ≤ length (commands c.driver.acts))
        × (c.device.taken ≡ spelling_all (take c.device.done (commands c.driver.acts))) }

    // The command that is read is the next of them.
    ensures in_hand { (k : Session) (c : Core) (command : Command) → IsSoundOfWords k c
        → Spells command c.device.read
        → slice_get (commands c.driver.acts) c.device.done ≡ Some command }

    // Where all that is sent is taken, all committed commands are.
    ensures all { (k : Session) (c : Core) → IsSoundOfWords k c → c.driver.sent ≡ c.device.taken
        → c.device.done ≡ length (commands c.driver.acts) }
{}
