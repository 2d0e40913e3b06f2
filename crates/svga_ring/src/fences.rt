//! The numbers of fences, and what the register FENCE tells of them.
ghost use Rattle.std.specs.Prelude.{◌≡◌, ℕ, ◌+◌, ◌≤◌, ◌↔◌, IsTrue};
ghost use Rattle.svga_cmd.specs.declared.constants.TheConstants.{FENCE_WINDOW};
ghost use Rattle.svga_model.specs.Fences.{LooksPassed, number_of_fence};
ghost use Rattle.svga_ring.specs.Seen.{IsSeen};

use svga_cmd::constants::MAX_FENCE;

/// How many numbers there are for fences: from 1 to the greatest.
const NUMBERS: u32 = MAX_FENCE;

/// The number of fence `k`, counted from 0, in a session whose first fence has the number `first`.
pub fn fence_number(first: u32, k: u64) -> u32
    requires { 1 ≤ first }
    ensures { result ≡ number_of_fence first k }
{
    let steps = u128::from(first - 1) + u128::from(k);
    1 + (steps % u128::from(NUMBERS)) as u32
}

/// Whether the register shows that the fence with this number has passed. It is right for fences that are
/// near the one that the register shows; for older ones the order of their counts decides.
pub fn passed(register: u32, fence: u32) -> bool
    ensures { IsTrue result ↔ LooksPassed register fence }
{
    register.wrapping_sub(fence) < 1 << 31
}

/// How many fences the value of the register shows: at least `seen`, the count that is known from before, and
/// at most `emitted`, the count that was sent.
pub fn seen_index(first: u32, seen: u64, emitted: u64, register: u32) -> u64
    requires first { 1 ≤ first }
    requires order { seen ≤ emitted }
    requires window { emitted ≤ seen + FENCE_WINDOW }
    requires shown { (j : ℕ) × IsSeen first seen emitted register j }
    ensures seen { IsSeen first seen emitted register result }
    ensures only { (j : ℕ) → IsSeen first seen emitted register j → result ≡ j }
{
    // Each fence moves the register one step round the numbers, where the opening value 0 stands for the last
    // one.
    let numbers = u64::from(NUMBERS);
    let before = (u64::from(first - 1) + seen % numbers) % numbers;
    seen + (u64::from(register) + numbers - before) % numbers
}
