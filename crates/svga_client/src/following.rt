//! Laws of a client's calls and of the driver's acts for them. The functions do nothing: their contracts are
//! the laws.
ghost use Rattle.std.specs.FinMap as map;
ghost use Rattle.std.specs.FinSet as set;
ghost use Rattle.std.specs.Prelude.{◌≡◌, ℕ, ◌<◌, ◌≤◌, List, length, true, None};
ghost use Rattle.svga_client.specs.Following.{IsFollowed, Known, acting, giving_again, lending, opening_known, state_of, taking};
ghost use Rattle.svga_client.specs.Marks.{IsSeenBehind};
ghost use Rattle.svga_client.specs.OwnPages.{writing};
ghost use Rattle.svga_cmd.specs.Pages.{IsKey};
ghost use Rattle.svga_cmd.specs.declared.command.Command.{Command};
ghost use Rattle.svga_cmd.specs.declared.limits.Limits.{Limits};
ghost use Rattle.svga_cmd.specs.declared.page.PageKey.{PageKey};
ghost use Rattle.svga_model.specs.Acts.{Chain, Do};
ghost use Rattle.svga_model.specs.ClientActs.{Commit, DescribeRegion, LendPage, TakePage, WritePage};
ghost use Rattle.svga_model.specs.Clients.{Client, after_call, opening_client, refusal_of};
ghost use Rattle.svga_model.specs.Faults.{IsAdmissible};
ghost use Rattle.svga_model.specs.Fences.{fences};
ghost use Rattle.svga_model.specs.States.{opening_state};
ghost use Rattle.svga_model.specs.Touches.{Touches};
ghost use Rattle.svga_ring.specs.Committed.{commands};
ghost use Rattle.svga_ring.specs.SoundPages.{TouchesAt, known_done};

/// A client stays what the driver's acts mean: each of its calls that isn't refused is one act, or is done to
/// the pages that are with the driver.
pub fn client_follows()
    ensures opening { (l : Limits) (first : ℕ) → IsFollowed l (opening_client l first) (opening_known l) }

    // A command is committed, or a chain is asked for.
    ensures commit { (l : Limits) (c : Client) (k : Known) (command : Command) → IsFollowed l c k
        → refusal_of c (Commit command) ≡ None
        → IsFollowed l (after_call c (Commit command)) (acting k (Do command)) }
    ensures describe { (l : Limits) (c : Client) (k : Known) (id first : ℕ) → IsFollowed l c k
        → refusal_of c (DescribeRegion id first) ≡ None
        → IsFollowed l (after_call c (DescribeRegion id first)) (acting k (Chain id first)) }

    // A page that is with the driver is written in place, which is no act of the driver's, or is lent.
    ensures write { (l : Limits) (c : Client) (k : Known) (key : PageKey) (offset : ℕ) (bytes : List ℕ)
        → IsFollowed l c k → refusal_of c (WritePage key offset bytes) ≡ None
        → IsFollowed l (after_call c (WritePage key offset bytes))
        (record k { own = writing k.own key offset bytes }) }
    ensures lend { (l : Limits) (c : Client) (k : Known) (key : PageKey) → IsFollowed l c k
        → refusal_of c (LendPage key) ≡ None
        → IsFollowed l (after_call c (LendPage key)) (lending k key) }

    // One that is lent is taken back once no command that isn't known to be done can touch it.
    ensures take { (l : Limits) (c : Client) (k : Known) (key : PageKey) → IsFollowed l c k
        → refusal_of c (TakePage key) ≡ None → IsSeenBehind c k.seen key
        → IsFollowed l (after_call c (TakePage key)) (taking l c k key) }

    // What the driver does beside: it learns of more that is done, and gives a lent page again as it was.
    ensures known { (l : Limits) (c : Client) (k : Known) (passed seen : ℕ) → IsFollowed l c k
        → k.passed ≤ passed → k.seen ≤ seen → seen ≤ length (fences (commands k.acts))
        → IsFollowed l c (record k { passed = passed; seen = seen }) }
    ensures again { (l : Limits) (c : Client) (k : Known) (key : PageKey) → IsFollowed l c k → IsKey l key
        → IsFollowed l c (giving_again l c k key) }
{}

/// What the driver may do for a call that isn't refused: its act is admissible after all acts and touches
/// lent pages alone, and no command that isn't known to be done touches a page that is taken back.
pub fn driver_may()
    ensures commit { (l : Limits) (c : Client) (k : Known) (command : Command) → IsFollowed l c k
        → refusal_of c (Commit command) ≡ None → IsAdmissible (state_of l c k) (Do command) }
    ensures touches { (l : Limits) (c : Client) (k : Known) (command : Command) (key : PageKey)
        → IsFollowed l c k → refusal_of c (Commit command) ≡ None
        → Touches (state_of l c k) (Do command) key → set.contains k.lent key ≡ true }
    ensures describe { (l : Limits) (c : Client) (k : Known) (id first : ℕ) → IsFollowed l c k
        → refusal_of c (DescribeRegion id first) ≡ None → IsAdmissible (state_of l c k) (Chain id first) }
    ensures reads { (l : Limits) (c : Client) (k : Known) (id first : ℕ) (key : PageKey) → IsFollowed l c k
        → refusal_of c (DescribeRegion id first) ≡ None
        → Touches (state_of l c k) (Chain id first) key → set.contains k.lent key ≡ true }
    ensures take { (l : Limits) (c : Client) (k : Known) (key : PageKey) (n : ℕ) → IsFollowed l c k
        → IsSeenBehind c k.seen key → known_done k.acts k.passed k.seen ≤ n
        → ¬ (TouchesAt (opening_state l c.first) k.acts n key) }
{}
