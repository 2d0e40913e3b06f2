//! What is settled. The function does nothing: its contract is the law.
ghost use Rattle.std.specs.Prelude.{◌≡◌, ◌∷◌, ◌++◌, List, false, true};
ghost use Rattle.svga_cmd.specs.declared.session.Session.{Session};
ghost use Rattle.svga_model.specs.Acts.{Act};
ghost use Rattle.svga_ring.specs.Committed.{settled, without_commands_from};
ghost use Rattle.svga_ring.specs.Core.{Core, chain_of};
ghost use Rattle.svga_ring.specs.Requests.{IsChainOut, is_chain_out};
ghost use Rattle.svga_ring.specs.Sound.{IsSound};

/// Settled are all acts but the commands that aren't taken and the chain that is out.
pub fn settled_acts()
    ensures no_chain_out { (k : Session) (c : Core) → IsSound k c
        → is_chain_out c.driver.request c.device.answered ≡ false
        → settled c.device.done false c.driver.acts ≡ without_commands_from c.device.done c.driver.acts }

    // While a chain is out all commands are taken.
    ensures chain_out { (k : Session) (c : Core) → IsSound k c → IsChainOut c.driver.request c.device.answered
        → (front : List Act) × (rest : List Act)
        × (c.driver.acts ≡ front ++ chain_of c.driver.request ∷ rest)
        × (settled c.device.done true c.driver.acts ≡ front ++ rest) }
{}
