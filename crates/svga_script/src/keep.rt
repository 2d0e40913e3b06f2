//! Lists that are filled as long as memory is found.
ghost use Rattle.std.specs.Prelude.{◌≡◌, ◌++◌, ◌∷◌, [], false};

/// Puts an item behind the others, unless memory is short or was short before.
pub(crate) fn keep<T: Drop>(items: &mut Vec<T>, item: T, short: &mut bool)
    ensures before { short.new ≡ false → short.old ≡ false }
    ensures items { short.new ≡ false → items.new.items ≡ items.old.items ++ item ∷ [] }
{
    if *short {
        return;
    }
    if items.push(item).is_err() {
        *short = true;
    }
}
