//! What is told of requests, the reply to one, and words that are sent one by one. The functions do nothing:
//! their contracts are the laws.
ghost use Rattle.std.specs.FinMap as map;
ghost use Rattle.std.specs.Prelude.{◌≡◌, ◌≢◌, ◌<◌, ◌^◌, ◌++◌, [], List, ℕ, false, length, slice_index, true};
ghost use Rattle.svga_cmd.specs.Spelling.{spelling};
ghost use Rattle.svga_cmd.specs.declared.command.Command.{Command};
ghost use Rattle.svga_cmd.specs.declared.page.PageKey.{PageKey};
ghost use Rattle.svga_cmd.specs.declared.session.Session.{Session};
ghost use Rattle.svga_cmd.specs.declared.session.Way.TheVariants.{Reserve, Dword};
ghost use Rattle.svga_model.specs.Faults.{IsAdmissible};
ghost use Rattle.svga_model.specs.States.{opening_state};
ghost use Rattle.svga_model.specs.Steps.{step};
ghost use Rattle.svga_model.specs.Touches.{Touches};
ghost use Rattle.svga_ring.specs.Committed.{commands};
ghost use Rattle.svga_ring.specs.Conditions.{Can, unsent};
ghost use Rattle.svga_ring.specs.Core.{Commit, Core, SendMore, StoreReply, StoreRequest, after, chain_of};
ghost use Rattle.svga_ring.specs.Noting.{known_state};
ghost use Rattle.svga_ring.specs.Requests.{IsChainOut, IsRequest, Request, request_of, request_value};
ghost use Rattle.svga_ring.specs.SharedTable.{reply_word, request_word};
ghost use Rattle.svga_ring.specs.Sound.{IsSound, IsSoundOfWords};
ghost use Rattle.svga_ring.specs.SoundPages.{reached};

/// What the words of requests tell.
pub fn requests_tell()
    // The request: one alone has this word, the driver's last.
    ensures request { (k : Session) (c : Core) (r : Request) → IsSound k c → IsRequest r
        → request_value r ≡ slice_index c.words request_word → r ≡ c.driver.request }
    ensures request_fits { (k : Session) (c : Core) → IsSound k c → IsRequest c.driver.request
        × (request_value c.driver.request ≡ slice_index c.words request_word) }

    // Each word of 64 bits stands for one request, and each request is such a word.
    ensures word { (word : ℕ) → word < 2 ^ 64 → IsRequest (request_of word)
        × (request_value (request_of word) ≡ word) }
    ensures value { (r : Request) → IsRequest r → request_value r < 2 ^ 64 }

    // The reply: the number of the last one that was answered.
    ensures reply { (k : Session) (c : Core) → IsSound k c
        → slice_index c.words reply_word ≡ c.device.answered }
    ensures reply_fits { (k : Session) (c : Core) → IsSound k c → c.device.answered < 2 ^ 20 }

    // A request that was loaded, and isn't the last one that was answered, is the driver's last.
    ensures wanted { (k : Session) (c : Core) → IsSound k c → c.device.wanted.number ≢ c.device.answered
        → c.device.wanted ≡ c.driver.request }

    // A request that is out asks for a chain, since until a ring grows each request does.
    ensures out_is_chain { (k : Session) (c : Core) → IsSound k c
        → c.driver.request.number ≢ c.device.answered → IsChainOut c.driver.request c.device.answered }
    ensures chain_is_out { (r : Request) (answered : ℕ) → IsChainOut r answered → r.number ≢ answered }

    // A chain is asked for where all that is sent is taken, and while it is out that stays so, and no word is
    // read.
    ensures asked { (k : Session) (c : Core) (id first : ℕ) → IsSound k c → Can (StoreRequest id first) c
        → c.driver.sent ≡ c.device.taken }
    ensures alone { (k : Session) (c : Core) → IsSound k c → c.driver.request.number ≢ c.device.answered
        → (c.driver.sent ≡ c.device.taken) × (c.device.read ≡ [])
        × (c.device.done ≡ length (commands c.driver.acts)) }

    // Where the driver has stopped, no request is out.
    ensures stopped { (k : Session) (c : Core) → IsSound k c → c.driver.stopped ≡ true
        → c.driver.request.number ≡ c.device.answered }
{}

/// Once the chain that is out is served, what is settled is its step further.
pub fn step_on_reply()
    ensures settled { (k : Session) (c : Core) → IsSound k c → Can StoreReply c
        → reached (opening_state k.limits k.first) c.device.done false c.driver.acts
        ≡ step (reached (opening_state k.limits k.first) c.device.done true c.driver.acts)
        (chain_of c.driver.request) }
    ensures kept { (k : Session) (c : Core) → IsSound k c → Can StoreReply c
        → (after StoreReply c).device.kept ≡ (reached (opening_state k.limits k.first) c.device.done false
        c.driver.acts).kept }

    // No chain that is out has a fault: not in what is settled, and not as far as the device knows the state,
    // once the pages that it touches there are noted.
    ensures admissible { (k : Session) (c : Core) → IsSound k c
        → IsChainOut c.driver.request c.device.answered
        → IsAdmissible (reached (opening_state k.limits k.first) c.device.done true c.driver.acts)
        (chain_of c.driver.request) }
    ensures judged { (k : Session) (c : Core) → IsSound k c → IsChainOut c.driver.request c.device.answered
        → ((key : PageKey) → Touches (known_state c.device) (chain_of c.driver.request) key
        → map.contains_key c.device.noted key ≡ true)
        → IsAdmissible (known_state c.device) (chain_of c.driver.request) }
{}

/// A command's words that are sent one by one: what is left of them. And how often NEXT_CMD is stored.
pub fn sent_in_turn()
    ensures first { (k : Session) (c : Core) (command : Command) (more : List ℕ) → IsSoundOfWords k c
        → Can (Commit command) c
        → spelling command ≡ c.driver.pending ++ more → unsent (after (Commit command) c).driver ≡ more }
    ensures next { (k : Session) (c : Core) (more : List ℕ) → IsSoundOfWords k c
        → unsent c.driver ≡ c.driver.pending ++ more → unsent (after SendMore c).driver ≡ more }

    // Where the driver has stopped, nothing is left of any.
    ensures stopped { (k : Session) (c : Core) → IsSound k c → c.driver.stopped ≡ true
        → unsent c.driver ≡ [] }

    // NEXT_CMD is stored once for each command by reservations, and by dword once for each word that is sent.
    ensures stores { (k : Session) (c : Core) → IsSound k c → c.driver.terms.way ≡ Reserve
        → c.driver.next_stores ≡ length (commands c.driver.acts) }
    ensures stores_by_dword { (k : Session) (c : Core) → IsSound k c → c.driver.terms.way ≡ Dword
        → (c.driver.next_stores ≡ length c.driver.sent) × (c.driver.reserved ≡ 0) }
{}
