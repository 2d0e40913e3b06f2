//! The numbers of pages, as a call has them, and the keys behind one.
ghost use Rattle.arrayvec.specs.ArrayVec.{array_vec_len};
ghost use Rattle.std.specs.Prelude.{◌≡◌, ◌+◌, ◌≤◌, ◌<◌, ◌^◌, ◌++◌, map, true};
ghost use Rattle.std.specs.List.{list_all};
ghost use Rattle.svga_cmd.specs.Pages.{number_in_kind};
ghost use Rattle.svga_cmd.specs.declared.constants.TheConstants.{MAX_MAP_PAGES};
ghost use Rattle.svga_model.specs.ClientActs.{key_behind as the_key_behind, run_numbers, runs_numbers};
ghost use Rattle.svga_model.specs.ScriptBounds.{pages_in, run_ends};
ghost use Rattle.svga_script.specs.Acts.{run_of};

use arrayvec::ArrayVec;
use svga_cmd::PageKey;
use svga_cmd::constants::MAX_MAP_PAGES;
use svga_script::Run;

// As many pages as an act maps at most.
const MOST: usize = MAX_MAP_PAGES as usize;

/// The numbers of the runs' pages, in order.
pub(crate) fn page_numbers(runs: &[Run]) -> ArrayVec<u32, MOST>
    requires ends { list_all run_ends (map run_of runs.now) ≡ true }
    requires few { pages_in (map run_of runs.now) ≤ MAX_MAP_PAGES }
    ensures { result.items ≡ runs_numbers (map run_of runs.now) }
{
    let mut numbers = ArrayVec::new();
    for run in runs {
        add_run(&mut numbers, *run);
    }
    numbers
}

// The numbers of a run's pages, behind those that there are.
fn add_run(numbers: &mut ArrayVec<u32, MOST>, run: Run)
    requires ends { run_ends (run_of run) ≡ true }
    requires few { array_vec_len numbers.old + run.count ≤ MAX_MAP_PAGES }
    ensures items { numbers.new.items ≡ numbers.old.items ++ run_numbers (run_of run) }
    ensures length { array_vec_len numbers.new ≡ array_vec_len numbers.old + run.count }
{
    for k in 0..run.count {
        numbers.push(run.first + k);
    }
}

/// The key so many pages behind one.
pub(crate) fn key_behind(first: PageKey, k: u32) -> PageKey
    requires { number_in_kind first + k < 2 ^ 32 }
    ensures { result ≡ the_key_behind first k }
{
    match first {
        PageKey::Guest(p) => PageKey::Guest(p + k),
        PageKey::Frame(g) => PageKey::Frame(g + k),
    }
}
