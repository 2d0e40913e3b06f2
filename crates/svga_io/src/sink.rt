//! What takes bytes piece by piece, and counts its faults.
ghost use Rattle.std.specs.Prelude.{◌≡◌, ℕ, ◌<◌, ◌≤◌, List, length, take, Option, IsSome, IfOk, OnErr};
ghost use Rattle.std.specs.Io.KnownBytes.{Appends, Keeps};
ghost use Rattle.svga_io.specs.Rising.{Rises};

use crate::Failed;

pub trait Sink {
    /// The bytes that the sink holds, in order, or `None` where it doesn't tell them.
    ghost held: { Self → Option (List ℕ) };

    /// How often the sink has failed so far. An answer of 0 bytes for a piece that has some counts too.
    ghost faults: { Self → ℕ };

    /// Appends the first bytes of `piece` and answers how many they are.
    fn put(&mut self, piece: &[u8]) -> Result<usize, Failed>
        ensures bound { IfOk result (λ n. n ≤ length piece.now) }
        ensures appended { IfOk result (λ n. Appends (held self.old) (held self.new) (take n piece.now)) }
        ensures kept { OnErr result (Keeps (held self.old) (held self.new)) }
        ensures told { IsSome (held self.old) → IsSome (held self.new) }

        ensures steady { faults self.old ≤ faults self.new }
        ensures cause { OnErr result (Rises (faults self.old) (faults self.new)) }
        ensures nothing { IfOk result (λ n. n ≡ 0 → 0 < length piece.now
            → Rises (faults self.old) (faults self.new)) };
}
