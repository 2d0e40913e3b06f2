//! Laws of what is noted of pages that commands touch. The function does nothing: its contract is the laws.
ghost use Rattle.std.specs.Prelude.{◌≡◌, ℕ, suc, ◌<◌, ◌++◌, ◌∷◌, [], List, length, nat_lt, None, Some};
ghost use Rattle.svga_client.specs.Marks.{fence_behind};
ghost use Rattle.svga_cmd.specs.declared.command.Command.{Command};
ghost use Rattle.svga_cmd.specs.declared.page.PageKey.{PageKey};
ghost use Rattle.svga_model.specs.Acts.{Do};
ghost use Rattle.svga_model.specs.Clients.{is_unfenced};
ghost use Rattle.svga_model.specs.Fences.{fence_value, fences};
ghost use Rattle.svga_model.specs.States.{State};
ghost use Rattle.svga_model.specs.Touches.{Touches};

/// How many fences there are up to the first one behind a command.
pub fn fences_behind()
    // It is one more than there are as the command is committed, which is no fence where it touches a page,
    // and stays so.
    ensures last { (cs : List Command) (c : Command) → fence_value c ≡ None
        → fence_behind (cs ++ c ∷ []) (length cs) ≡ suc (length (fences cs)) }
    ensures touching { (s : State) (c : Command) (key : PageKey) → Touches s (Do c) key
        → fence_value c ≡ None }
    ensures kept { (cs : List Command) (c : Command) (place : ℕ) → place < length cs
        → fence_behind (cs ++ c ∷ []) place ≡ fence_behind cs place }

    // None stands there while fewer are committed.
    ensures unfenced { (cs : List Command) (place : ℕ)
        → is_unfenced cs (Some place) ≡ nat_lt (length (fences cs)) (fence_behind cs place) }
{}
