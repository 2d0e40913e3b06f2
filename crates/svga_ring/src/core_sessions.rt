//! Whole sessions. The function does nothing: its contract is the law.
ghost use Rattle.std.specs.Prelude.{◌≡◌, ◌<◌, ◌≤◌, ◌^◌, [], ◌∷◌, ℕ, replicate};
ghost use Rattle.svga_cmd.specs.Limits.{frame_page_count};
ghost use Rattle.svga_cmd.specs.declared.command.Command.TheVariants.{Fence, Update};
ghost use Rattle.svga_cmd.specs.declared.page.PageKey.TheVariants.{Guest, Frame};
ghost use Rattle.svga_cmd.specs.declared.session.Session.{Session};
ghost use Rattle.svga_cmd.specs.declared.session.Way.TheVariants.{Reserve, Dword};
ghost use Rattle.svga_model.specs.Acts.{Chain, Do};
ghost use Rattle.svga_model.specs.Fences.{number_of_fence};
ghost use Rattle.svga_ring.specs.Conditions.{NoneOpen};
ghost use Rattle.svga_ring.specs.Core.{Commit, Core, Give, GiveBack, HeldSlotHome, HeldSlotOut, Hold, Join, LoadCell, LoadConfig, LoadFence, LoadNext, LoadReply, LoadRequest, LoadStop, SendMore, SlotHome, SlotOut, Split, StoreCell, StoreConfig, StoreFence, StoreReply, StoreRequest, StoreReserved, StoreStop, Take, TakeJoined, opening_core};
ghost use Rattle.svga_ring.specs.Lists.{CanAll};
ghost use Rattle.svga_ring.specs.Sound.{IsSound};
ghost use Rattle.svga_ring.specs.Views.{Apart};

/// There are sessions: lists of steps from the opening on, in which each one's condition holds in its turn.
/// The first three end with the joined seat, and each kind of step is in one of them.
pub fn sessions_happen()
    // A FENCE is written under RESERVED, read, stored and taken; the driver learns it and stops, and the
    // seats join.
    ensures by_reservation { (k : Session) (value : ℕ) → value ≡ number_of_fence k.first 0 → value < 2 ^ 32
        → k.way ≡ Reserve
        → CanAll (Split ∷ StoreReserved 8 ∷ StoreCell 30 ∷ StoreCell value ∷ Commit (Fence value)
        ∷ StoreReserved 0 ∷ LoadNext
        ∷ LoadCell ∷ LoadCell ∷ StoreFence value ∷ StoreStop (Fence value) ∷ LoadStop ∷ LoadFence
        ∷ StoreConfig ∷ LoadConfig ∷ LoadNext ∷ Join ∷ []) (opening_core k) }

    // The same where it is sent dword by dword.
    ensures dword_by_dword { (k : Session) (value : ℕ) → value ≡ number_of_fence k.first 0 → value < 2 ^ 32
        → k.way ≡ Dword
        → CanAll (Split ∷ StoreCell 30 ∷ Commit (Fence value) ∷ LoadNext ∷ StoreCell value ∷ SendMore
        ∷ LoadNext
        ∷ LoadCell ∷ LoadCell ∷ StoreFence value ∷ StoreStop (Fence value) ∷ LoadStop ∷ LoadFence
        ∷ StoreConfig ∷ LoadConfig ∷ LoadNext ∷ Join ∷ []) (opening_core k) }

    // A page of zeros is given, and a chain with it alone is asked for; the device holds the page, puts its
    // empty slot home and takes it out again, gives the page back and answers. The driver takes the page,
    // puts the slot home, gives the page again and stops; the joined seat takes it.
    ensures with_chain { (k : Session) (id : ℕ) → id ≤ 4095 → 1 < k.limits.pages
        → CanAll (Split ∷ SlotOut (Guest 1) ∷ Give (Guest 1) (replicate 4096 0) ∷ StoreRequest id 1
        ∷ LoadRequest
        ∷ Hold (Guest 1) (Chain id 1) ∷ HeldSlotHome (Guest 1) ∷ HeldSlotOut (Guest 1)
        ∷ GiveBack (Guest 1) (replicate 4096 0)
        ∷ StoreReply ∷ LoadReply
        ∷ Take (Guest 1) ∷ SlotHome (Guest 1) ∷ SlotOut (Guest 1) ∷ Give (Guest 1) (replicate 4096 0)
        ∷ StoreConfig ∷ LoadConfig ∷ LoadNext ∷ Join ∷ TakeJoined (Guest 1) ∷ []) (opening_core k) }

    // The framebuffer's one page is given, and an UPDATE and a FENCE are sent. The device serves the UPDATE
    // with the page, and stores the number of the FENCE; the driver sees it and takes the page.
    ensures with_page { (k : Session) (value : ℕ) → value ≡ number_of_fence k.first 0 → value < 2 ^ 32
        → k.way ≡ Reserve → frame_page_count k.limits ≡ 1
        → CanAll (Split ∷ SlotOut (Frame 0) ∷ Give (Frame 0) (replicate 4096 0)
        ∷ StoreReserved 20 ∷ StoreCell 1 ∷ StoreCell 0 ∷ StoreCell 0 ∷ StoreCell 1 ∷ StoreCell 1
        ∷ Commit (Update 0 0 1 1)
        ∷ StoreReserved 8 ∷ StoreCell 30 ∷ StoreCell value ∷ Commit (Fence value) ∷ StoreReserved 0 ∷ LoadNext
        ∷ LoadCell ∷ LoadCell ∷ LoadCell ∷ LoadCell ∷ LoadCell
        ∷ Hold (Frame 0) (Do (Update 0 0 1 1)) ∷ GiveBack (Frame 0) (replicate 4096 0)
        ∷ StoreStop (Update 0 0 1 1)
        ∷ LoadCell ∷ LoadCell ∷ StoreFence value ∷ LoadFence ∷ Take (Frame 0) ∷ []) (opening_core k) }

    // A region goes by a chain with no page.
    ensures region_goes { (k : Session) (id : ℕ) → id ≤ 4095
        → CanAll (Split ∷ StoreRequest id 0 ∷ LoadRequest ∷ StoreReply ∷ LoadReply ∷ []) (opening_core k) }

    // Whatever was done, while there are two seats the session may be closed once all that is sent is taken,
    // no word is pending, no request open and, by reservations, RESERVED 0.
    ensures closes { (k : Session) (c : Core) → IsSound k c → c.seats ≡ Apart → NoneOpen c.driver
        → c.driver.pending ≡ [] → (c.driver.terms.way ≡ Reserve → c.driver.reserved ≡ 0)
        → c.driver.sent ≡ c.device.taken
        → CanAll (StoreConfig ∷ LoadConfig ∷ LoadNext ∷ Join ∷ []) c }
{}
