//! What gives bytes piece by piece, and counts its faults.
ghost use Rattle.std.specs.Prelude.{◌≡◌, ◌↔◌, ℕ, ◌<◌, ◌≤◌, List, [], length, take, Option, IsSome, IfSome, IfOk, OnErr};
ghost use Rattle.std.specs.Io.KnownBytes.{Consumes, Keeps};
ghost use Rattle.svga_io.specs.Rising.{Rises};

use crate::Failed;

pub trait Source {
    /// The bytes that are left to give, in order, or `None` where the source doesn't tell them.
    ghost left: { Self → Option (List ℕ) };

    /// How often the source has failed so far.
    ghost faults: { Self → ℕ };

    /// Puts the next bytes at the front of `buf` and answers how many they are, 0 at the end.
    fn next(&mut self, buf: &mut [u8]) -> Result<usize, Failed>
        requires room { 0 < length buf.old }

        ensures bound { IfOk result (λ n. n ≤ length buf.old) }
        ensures taken { IfOk result (λ n. Consumes (left self.old) (left self.new) (take n buf.new)) }
        ensures end { IfOk result (λ n. IfSome (left self.old) (λ bytes. (n ≡ 0) ↔ (bytes ≡ []))) }
        ensures kept { OnErr result (Keeps (left self.old) (left self.new)) }
        ensures told { IsSome (left self.old) → IsSome (left self.new) }

        ensures steady { faults self.old ≤ faults self.new }
        ensures cause { OnErr result (Rises (faults self.old) (faults self.new)) };
}
