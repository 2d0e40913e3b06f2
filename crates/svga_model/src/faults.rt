//! Which of several faults is told, and what of it without bytes. The functions do
//! nothing: their contracts are the laws.
ghost use Rattle.std.specs.Prelude.{◌≡◌, ◌↔◌, ◌≤◌, ◌⊎◌, ℕ, List, Bool, Option, None, Some, IfSome};
ghost use Rattle.svga_cmd.specs.Fault.{number_of};
ghost use Rattle.svga_cmd.specs.declared.blit.Blit.{Blit};
ghost use Rattle.svga_cmd.specs.declared.command.Command.{Command};
ghost use Rattle.svga_cmd.specs.declared.fault.Fault.{Fault};
ghost use Rattle.svga_cmd.specs.declared.fault.Fault.TheVariants as fault;
ghost use Rattle.svga_cmd.specs.declared.screen.ScreenDef.{ScreenDef};
ghost use Rattle.svga_model.specs.Acts.{Act, Do};
ghost use Rattle.svga_model.specs.BlitFaults.{blit_tests};
ghost use Rattle.svga_model.specs.Faults.{HasFault, IsAdmissible, ReadsNumbers, fault_of, gmrfb_tests, shape_tests};
ghost use Rattle.svga_model.specs.PointedNumbers.{Pointed, pointer_tests};
ghost use Rattle.svga_model.specs.RegionBytes.{byte_tests};
ghost use Rattle.svga_model.specs.Regions.{Regions, define_tests, remap_tests};
ghost use Rattle.svga_model.specs.Screens.{define_screen_tests, destroy_screen_tests};
ghost use Rattle.svga_model.specs.Standing.{AreAtLeast, AreOrdered, first_standing, least_standing};
ghost use Rattle.svga_model.specs.States.{Shape, State, shape_of};
ghost use Rattle.svga_model.specs.Walks.{Descriptor, TablePosition, Tables, chain_tests, last_tests, start_tests};

/// The fault that an act is refused with is the least of those that it
/// has, and there is one where it has any.
pub fn fault_of_act()
    ensures some { (s : State) (act : Act) (f : Fault) → fault_of s act ≡ Some f
        → HasFault s act f × ((g : Fault) → HasFault s act g → number_of f ≤ number_of g) }
    ensures none { (s : State) (act : Act) → IsAdmissible s act ↔ ((f : Fault) → ¬ (HasFault s act f)) }
{}

/// The first fault of ordered tests is the one with the least number. The tests of a chain are ordered, and
/// those of each command but a remap by VIA_GMR, whose tests are two ordered lists one behind the other.
pub fn least_fault()
    ensures first { (rules : List (Bool × Fault)) → AreOrdered 0 rules
        → first_standing rules ≡ least_standing rules }
    ensures least { (rules : List (Bool × Fault)) → AreOrdered 0 rules
        → IfSome (first_standing rules) (λ f. AreAtLeast (number_of f) rules) }
    ensures define { (regions : Regions) (id pages : ℕ) → AreOrdered 0 (define_tests regions id pages) }
    ensures remap { (regions : Regions) (guest id offset pages : ℕ) (numbers : List ℕ)
        → AreOrdered 0 (remap_tests guest regions id offset pages numbers) }
    ensures byte { (regions : Regions) (frame id i : ℕ) → AreOrdered 0 (byte_tests frame regions id i) }
    ensures chain_start { (guest id first : ℕ) → AreOrdered 0 (start_tests guest id first) }
    ensures chain_end { (guest count : ℕ) (at : TablePosition) (d : Descriptor)
        → AreOrdered 0 (last_tests guest count at d) }
    ensures chain { (regions : Regions) (guest id first : ℕ) (tables : Tables)
        → AreOrdered 0 (chain_tests guest regions tables id first) }
    ensures pointer { (regions : Regions) (frame pages : ℕ) (at : Pointed)
        → AreOrdered 0 (pointer_tests frame regions at pages) }
    ensures gmrfb { (region : ℕ) → AreOrdered 0 (gmrfb_tests region) }
    ensures blit { (s : Shape) (b : Blit) → AreOrdered 0 (blit_tests s b) }
    ensures define_screen { (definitions : ℕ → Option ScreenDef) (budget : ℕ) (d : ScreenDef)
        → AreOrdered 0 (define_screen_tests budget definitions d) }
    ensures destroy_screen { (definitions : ℕ → Option ScreenDef) (id : ℕ)
        → AreOrdered 0 (destroy_screen_tests definitions id) }
{}

/// What can be told of a command's fault without bytes: all of it, but for the page
/// numbers that a remap by VIA_GMR reads.
pub fn judged_without_bytes()
    // A fault that is told so is the command's.
    ensures refused { (s : State) (c : Command) (f : Fault)
        → least_standing (shape_tests (shape_of s.kept) c) ≡ Some f → fault_of s (Do c) ≡ Some f }

    // Where none is told there is none, or one of the numbers is no guest page's.
    ensures admitted { (s : State) (c : Command) → least_standing (shape_tests (shape_of s.kept) c) ≡ None
        → IsAdmissible s (Do c) ⊎ (fault_of s (Do c) ≡ Some fault.BadPage) }
    ensures whole { (s : State) (c : Command) → ¬ (ReadsNumbers c)
        → fault_of s (Do c) ≡ least_standing (shape_tests (shape_of s.kept) c) }
{}
