//! Commands one after another.
ghost use Rattle.std.specs.Prelude.{◌≡◌, All, true};
ghost use Rattle.svga_cmd.specs.Lent.{command_of};
ghost use Rattle.svga_cmd.specs.Pages.{HasPage};
ghost use Rattle.svga_cmd.specs.WellFormed.{IsWellFormed};
ghost use Rattle.svga_cmd.specs.declared.page.PageKey.{PageKey};
ghost use Rattle.svga_model.specs.Runs.{done, is_met, run, stopping_fault};
ghost use Rattle.svga_machine.specs.Listed.{lent_acts};
ghost use Rattle.svga_machine.specs.MachineSet.{state_with};

use crate::machine::Machine;
use svga_cmd::{CommandRef, Fault, PageStore};

/// How far a list of commands was run.
#[derive(Clone, Copy, Debug, PartialEq, Eq)]
pub struct Ran {
    /// How many ran.
    pub count: usize,
    /// The fault of the command behind them, at which it stopped. None where all ran.
    pub fault: Option<Fault>,
}

impl Machine {
    /// Runs commands one after another, and stops at the first that is refused. Of the store's pages it needs
    /// those that stand in a region at some point of the run.
    pub fn run_all<P: PageStore>(&mut self, store: &mut P, commands: &[CommandRef<'_>]) -> Ran
        requires well_formed { All (λ c. IsWellFormed (command_of c)) commands.now }
        requires there { (key : PageKey) → is_met (state_with self.old (P.pages store.old))
            (lent_acts commands.now) key ≡ true → HasPage (P.pages store.old) key }
        ensures run { state_with self.new (P.pages store.new)
            ≡ run (state_with self.old (P.pages store.old)) (lent_acts commands.now) }
        ensures count { result.count ≡ done (state_with self.old (P.pages store.old))
            (lent_acts commands.now) }
        // The fault is that of the command behind those that ran.
        ensures fault { result.fault ≡ stopping_fault (state_with self.old (P.pages store.old))
            (lent_acts commands.now) }
        // A chain that is begun stays so.
        ensures chain { self.new.chain ≡ self.old.chain }
        ensures rest { P.rest store.new ≡ P.rest store.old }
    {
        for (count, command) in commands.iter().enumerate() {
            if let Err(fault) = self.run(store, command) {
                return Ran {
                    count,
                    fault: Some(fault),
                };
            }
        }
        Ran {
            count: commands.len(),
            fault: None,
        }
    }
}
