//! Runs of equal neighbours.
ghost use Rattle.std.specs.Prelude.{◌≡◌, ◌∷◌, ◌<◌, ◌≤◌, drop, length, slice_index_or};
ghost use Rattle.svga_text.specs.Runs.{largest_runs};

/// How many items at the front equal the first.
pub fn run_length<T: PartialEq>(items: &[T]) -> usize
    requires { 0 < length items.now }
    ensures some { 0 < result }
    ensures within { result ≤ length items.now }
    ensures first { (d : T) → largest_runs T.eq items.now
        ≡ (result, slice_index_or items.now 0 d) ∷ largest_runs T.eq (drop result items.now) }
{
    let mut count = 1;
    while count < items.len() && items[count] == items[0] {
        count += 1;
    }
    count
}
