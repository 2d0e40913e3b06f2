//! The lesser of two refusals.
ghost use Rattle.std.specs.Prelude.{◌≡◌, ◌++◌, List, Bool};
ghost use Rattle.std.specs.Result.{result_err};
ghost use Rattle.svga_cmd.specs.declared.fault.Fault.{Fault};
ghost use Rattle.svga_model.specs.Standing.{least_standing};

use svga_cmd::Fault;

/// Of two refusals the one with the lesser number; the first one where the two are one.
pub(crate) fn lesser(a: Result<(), Fault>, b: Result<(), Fault>) -> Result<(), Fault>
    ensures { (xs ys : List (Bool × Fault)) → result_err a ≡ least_standing xs → result_err b
        ≡ least_standing ys → result_err result ≡ least_standing (xs ++ ys) }
{
    match (a, b) {
        (Err(f), Err(g)) => Err(if f.number() <= g.number() { f } else { g }),
        (Err(f), Ok(())) => Err(f),
        (Ok(()), b) => b,
    }
}
