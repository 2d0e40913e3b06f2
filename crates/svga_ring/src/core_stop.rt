//! The store of STOP. The function does nothing: its contract is the law.
ghost use Rattle.std.specs.FinMap as map;
ghost use Rattle.std.specs.Prelude.{◌≡◌, ◌+◌, false, true};
ghost use Rattle.svga_cmd.specs.Spelling.{Spells};
ghost use Rattle.svga_cmd.specs.declared.command.Command.{Command};
ghost use Rattle.svga_cmd.specs.declared.page.PageKey.{PageKey};
ghost use Rattle.svga_cmd.specs.declared.session.Session.{Session};
ghost use Rattle.svga_model.specs.Acts.{Do};
ghost use Rattle.svga_model.specs.Faults.{IsAdmissible};
ghost use Rattle.svga_model.specs.States.{opening_state};
ghost use Rattle.svga_model.specs.Steps.{step};
ghost use Rattle.svga_model.specs.Touches.{Touches};
ghost use Rattle.svga_ring.specs.Conditions.{Can};
ghost use Rattle.svga_ring.specs.Core.{Core, StoreStop, after};
ghost use Rattle.svga_ring.specs.Noting.{known_state};
ghost use Rattle.svga_ring.specs.Sound.{IsSound};
ghost use Rattle.svga_ring.specs.SoundPages.{reached};

/// Once a command is served, its words are taken, and what is settled is its step further.
pub fn step_on_stop()
    ensures settled { (k : Session) (c : Core) (command : Command) → IsSound k c → Can (StoreStop command) c
        → reached (opening_state k.limits k.first) (c.device.done + 1) false c.driver.acts
        ≡ step (reached (opening_state k.limits k.first) c.device.done false c.driver.acts) (Do command) }
    ensures kept { (k : Session) (c : Core) (command : Command) → IsSound k c → Can (StoreStop command) c
        → (after (StoreStop command) c).device.kept
        ≡ (reached (opening_state k.limits k.first) (c.device.done + 1) false c.driver.acts).kept }

    // No command that was read has a fault: not in what is settled, and not as far as the device knows the
    // state, once the pages that it touches there are noted.
    ensures admissible { (k : Session) (c : Core) (command : Command) → IsSound k c
        → Spells command c.device.read
        → IsAdmissible (reached (opening_state k.limits k.first) c.device.done false c.driver.acts)
        (Do command) }
    ensures judged { (k : Session) (c : Core) (command : Command) → IsSound k c → Spells command c.device.read
        → ((key : PageKey) → Touches (known_state c.device) (Do command) key
        → map.contains_key c.device.noted key ≡ true)
        → IsAdmissible (known_state c.device) (Do command) }
{}
