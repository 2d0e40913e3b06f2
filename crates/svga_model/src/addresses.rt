//! What holds of the addresses of words. The function does nothing: its contract is the law.
ghost use Rattle.std.specs.Prelude.{◌≡◌, ℕ, ◌+◌, ◌<◌};
ghost use Rattle.svga_model.specs.Addresses.{address};

/// Where words of the ring stand apart, and why one dword of it stays free.
pub fn one_turn()
    // Words that are less than a full ring apart have two addresses.
    ensures apart { (low dwords i j : ℕ) → i < j → j < i + dwords
        → ¬ (address low dwords i ≡ address low dwords j) }

    // Words that are a full ring apart have one, so a full ring would look like an empty one.
    ensures full { (low dwords n : ℕ) → address low dwords (n + dwords) ≡ address low dwords n }
{}
