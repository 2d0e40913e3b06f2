//! What holds of the numbers of fences. The function does nothing: its contract is the law.
ghost use Rattle.std.specs.Prelude.{ℕ, ◌<◌, ◌≤◌, ◌↔◌};
ghost use Rattle.svga_model.specs.Fences.{IsFenceNumber, AreNear, HasPassed, LooksPassed, number_of_fence, register_after};

use svga_cmd::constants::FENCE_WINDOW;

/// Among fences that are near one another the signed test of two numbers gives their order.
pub fn fence_order()
    ensures order { (first j k : ℕ) → IsFenceNumber first → AreNear j k
        → (LooksPassed (number_of_fence first j) (number_of_fence first k) ↔ (k ≤ j)) }

    // Before the first fence none of those to come looks passed.
    ensures opening { (first k : ℕ) → IsFenceNumber first → k < FENCE_WINDOW
        → ¬ (LooksPassed (register_after first 0) (number_of_fence first k)) }

    // So the register after j fences shows which fences have passed.
    ensures register { (first j k : ℕ) → IsFenceNumber first → AreNear j k
        → (LooksPassed (register_after first j) (number_of_fence first k) ↔ HasPassed j k) }
{}
