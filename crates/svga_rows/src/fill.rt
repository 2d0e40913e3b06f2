//! Parts of a list that are filled where they stand.
ghost use Rattle.std.specs.Prelude.{◌≡◌, ℕ, ◌+◌, ◌≤◌, ◌<◌, List, length, slice_index_or};

/// What fills a part of a list with values of its own.
pub trait Fill<T> {
    ghost values: { Self → List T };

    fn fill(&self, part: &mut [T])
        requires { length part.old ≡ length (Self.values self.now) }
        ensures { part.new ≡ Self.values self.now };
}

/// Fills `count` items from a number on.
pub(crate) fn fill_part<T, F: Fill<T>>(items: &mut [T], from: usize, count: usize, filler: &F)
    requires count { count ≡ length (F.values filler.now) }
    requires fits { from + count ≤ length items.old }
    ensures before { (k : ℕ) (d : T) → k < from
        → slice_index_or items.new k d ≡ slice_index_or items.old k d }
    ensures there { (k : ℕ) (d : T) → k < length (F.values filler.now)
        → slice_index_or items.new (from + k) d ≡ slice_index_or (F.values filler.now) k d }
    ensures behind { (k : ℕ) (d : T) → from + length (F.values filler.now) ≤ k
        → slice_index_or items.new k d ≡ slice_index_or items.old k d }
{
    filler.fill(&mut items[from..from + count]);
}
