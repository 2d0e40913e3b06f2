//! The client that a driver stands for. The functions do nothing: their contracts are the laws.
ghost use Rattle.std.specs.FinSet as set;
ghost use Rattle.std.specs.Prelude.{◌≡◌, List, true, ℕ, IsSome, None, Some};
ghost use Rattle.svga_client.specs.Closing.{IsClosed};
ghost use Rattle.svga_client.specs.Following.{IsFollowed, Known, client_of, refusal_by, state_of};
ghost use Rattle.svga_client.specs.OwnPages.{IsWithPages, with_own};
ghost use Rattle.svga_cmd.specs.Pages.{Memory, page_at};
ghost use Rattle.svga_cmd.specs.declared.command.Command.{Command};
ghost use Rattle.svga_cmd.specs.declared.limits.Limits.{Limits};
ghost use Rattle.svga_cmd.specs.declared.page.PageKey.{PageKey};
ghost use Rattle.svga_cmd.specs.declared.session.Session.{Session};
ghost use Rattle.svga_model.specs.ClientActs.{Commit};
ghost use Rattle.svga_model.specs.Clients.{Client, HasFence, refusal_of};
ghost use Rattle.svga_model.specs.Closings.{Closed, IsMeant};
ghost use Rattle.svga_model.specs.Faults.{ReadsNumbers};
ghost use Rattle.svga_model.specs.Meanings.{Meaning};
ghost use Rattle.svga_model.specs.States.{State};

/// What a driver knows by itself determines its client, and how the client's calls are judged.
pub fn client_of_driver()
    ensures client { (l : Limits) (c : Client) (k : Known) → IsFollowed l c k
        → c ≡ client_of l c.first c.touched k }
    ensures with_own { (own : Memory) (s : State) → IsWithPages own s (with_own own s) }
    ensures limits { (l : Limits) (c : Client) (k : Known) → IsFollowed l c k → c.state.kept.limits ≡ l }

    // A command that reads no numbers from a region is judged by what the acts keep, and by the lent pages.
    ensures refused { (l : Limits) (c : Client) (k : Known) (command : Command) → IsFollowed l c k
        → ¬ (ReadsNumbers command)
        → refusal_of c (Commit command) ≡ refusal_by (state_of l c k).kept k.lent command }

    // Each page reads for the client as the driver has it, or, while it is lent, as the acts leave it.
    ensures own { (l : Limits) (c : Client) (k : Known) (key : PageKey) (bytes : List ℕ) → IsFollowed l c k
        → page_at k.own key ≡ Some bytes → page_at c.state.memory key ≡ Some bytes }
    ensures lent { (l : Limits) (c : Client) (k : Known) (key : PageKey) → IsFollowed l c k
        → set.contains k.lent key ≡ true
        → page_at c.state.memory key ≡ page_at (state_of l c k).memory key }
    ensures all_pages { (l : Limits) (c : Client) (k : Known) (all : Memory) → IsFollowed l c k
        → ((key : PageKey) → page_at k.own key ≡ None
        → page_at all key ≡ page_at (state_of l c k).memory key)
        → ((key : PageKey) → IsSome (page_at k.own key) → page_at all key ≡ page_at k.own key)
        → all ≡ c.state.memory }
{}

/// A session that is closed is what its client's calls mean.
pub fn closing_session()
    ensures { (l : Limits) (session : Session) (m : Meaning) (k : Known) (c : Closed)
        → IsFollowed l m.client k
        → HasFence m.client → session.first ≡ m.client.first
        → IsClosed session k (state_of l m.client k) c → IsMeant session m c }
{}
