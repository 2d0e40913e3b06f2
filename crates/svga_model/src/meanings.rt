//! What holds of what calls mean. The functions do nothing: their contracts are the laws.
ghost use Rattle.std.specs.Prelude.{◌≡◌, ◌≢◌, ◌++◌, List, length, None};
ghost use Rattle.svga_model.specs.Clients.{Client, HasFence};
ghost use Rattle.svga_model.specs.Scripts.{Script, meaning_of};
ghost use Rattle.svga_model.specs.Meanings.{LineCall, joined, meaning_from};
ghost use Rattle.svga_model.specs.Runs.{done, run};

/// Calls mean the same by parts, and their acts are run whole.
pub fn meaning_in_parts()
    ensures whole { (c : Client) (xs ys : List LineCall) → (meaning_from c xs).refused ≡ None
        → meaning_from c (xs ++ ys) ≡ joined (meaning_from c xs)
        (meaning_from (meaning_from c xs).client ys) }
    ensures ended { (c : Client) (xs ys : List LineCall) → (meaning_from c xs).refused ≢ None
        → meaning_from c (xs ++ ys) ≡ meaning_from c xs }
    ensures run { (c : Client) (calls : List LineCall)
        → run c.state (meaning_from c calls).acts ≡ (meaning_from c calls).client.state }
    ensures done { (c : Client) (calls : List LineCall)
        → done c.state (meaning_from c calls).acts ≡ length (meaning_from c calls).acts }

    // The fence that a script leaves is what the register shows after its fences.
    ensures fence { (s : Script) → HasFence (meaning_of s).client }
{}
