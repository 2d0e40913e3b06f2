//! What holds of every chain. The function does nothing: its contract is the law.
ghost use Rattle.std.specs.Prelude.{◌≢◌, ℕ, ◌<◌, List, [], ◌∷◌, ◌++◌, length, Result};
ghost use Rattle.svga_cmd.specs.declared.constants.TheConstants.{MAX_DESCRIPTORS};
ghost use Rattle.svga_cmd.specs.declared.fault.Fault.{Fault};
ghost use Rattle.svga_region.specs.ChainCalls.{FinishesChain, ReadsChain, StartsChain};
ghost use Rattle.svga_region.specs.Conditions.{IsChainBegun, IsChainWhole};
ghost use Rattle.svga_region.specs.RegionSet.{RegionSet};
ghost use Rattle.svga_region.specs.WholeChains.{HasBegun, HasRead, IsDone, IsRead, IsUnderWay, WholeChain};
ghost use Rattle.svga_region.specs.declared.chain.ChainNext.{ChainNext};

/// The three calls of a chain, made one after another over pages that have the same bytes wherever they are
/// given, come to what its walk gives: the table pages that are asked for are those that the walk enters,
/// in order, and the answer and the regions are the chain's.
pub fn whole_chain()
    ensures start { (w : WholeChain) (answer : Result (Unit {0}) Fault) (new : RegionSet) → w.first ≢ 0
        → StartsChain w.regions w.id w.first answer new → HasBegun w answer new }
    // It can be given the table page that it wants, which is one of the guest, and ends after 4,096 of them
    // at most.
    ensures begun { (w : WholeChain) (read : List ℕ) (wanted : ℕ) (now : RegionSet)
        → IsUnderWay w read wanted now
        → IsChainBegun now.chain × (wanted < w.regions.guest) × (length read < MAX_DESCRIPTORS) }
    ensures page { (w : WholeChain) (read : List ℕ) (wanted : ℕ) (now : RegionSet)
        (answer : Result ChainNext Fault)
        (new : RegionSet) → IsUnderWay w read wanted now → ReadsChain now (w.tables wanted) answer new
        → HasRead w (read ++ wanted ∷ []) answer new }
    ensures whole { (w : WholeChain) (read : List ℕ) (now : RegionSet) → IsRead w read now
        → IsChainWhole now.chain }
    ensures finish { (w : WholeChain) (read : List ℕ) (now : RegionSet) (answer : Result (Unit {0}) Fault)
        (new : RegionSet) → IsRead w read now → FinishesChain now answer new → IsDone w answer new }
{}
