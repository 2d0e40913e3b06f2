//! The reading of one table page.
ghost use Rattle.std.specs.Prelude.{◌≡◌, ◌+◌, ◌≤◌, ◌<◌, ℕ, List, true, false, length, All, IfOk, Some, take, ◌++◌};
ghost use Rattle.svga_cmd.specs.Limits.{IsBetween};
ghost use Rattle.svga_model.specs.Walks.{Tables, descriptor_in, is_good_run as good_run};
ghost use Rattle.svga_region.specs.Chains.{ReadsTable};
ghost use Rattle.svga_region.specs.Kept.{IsReading, IsShortRun, as_descriptor, chain_of, kept_pages, table_pages};

use crate::chain::Reading;
use crate::descriptor::{Descriptor, is_good_run, read_descriptor};
use svga_cmd::Fault;
use svga_cmd::constants::{
    MAX_DESCRIPTORS, MAX_GUEST_PAGES, MAX_REGION_ID, PAGE_SIZE, TABLE_PAIRS,
};

/// Takes the good runs that a table page begins with, as far as a chain may go, and answers how many there
/// are.
fn take_runs(bytes: &[u8], guest: u32, runs: &mut [Descriptor], count: usize) -> usize
    requires bytes { length bytes.now ≡ PAGE_SIZE }
    requires room { length runs.old ≡ MAX_DESCRIPTORS }
    requires few { count ≤ MAX_DESCRIPTORS }
    requires guest { guest ≤ MAX_GUEST_PAGES }
    requires short { All IsShortRun runs.old }
    ensures most { result ≤ TABLE_PAIRS }
    ensures fits { count + result ≤ MAX_DESCRIPTORS }
    ensures good { (k : ℕ) → k < result → good_run guest (descriptor_in bytes.now k) ≡ true }
    ensures stop { result < TABLE_PAIRS → count + result < MAX_DESCRIPTORS
        → good_run guest (descriptor_in bytes.now result) ≡ false }
    ensures pages { kept_pages (take (count + result) runs.new) ≡ kept_pages (take count runs.old)
        ++ table_pages bytes.now result }
    ensures short { All IsShortRun runs.new }
{
    for pair in 0..TABLE_PAIRS {
        if count + pair == MAX_DESCRIPTORS {
            return pair;
        }
        let run = read_descriptor(bytes, pair);
        if !is_good_run(run, guest) {
            return pair;
        }
        runs[count + pair] = run;
    }
    TABLE_PAIRS
}

/// Reads a table page from its first descriptor on, up to where the chain links, ends or is refused. What
/// it lists is kept in `runs`, the last descriptor too, which lists no pages.
pub fn read_table(
    bytes: &[u8],
    guest: u32,
    runs: &mut [Descriptor],
    reading: Reading,
) -> Result<Reading, Fault>
    requires bytes { length bytes.now ≡ PAGE_SIZE }
    requires guest { IsBetween 1 MAX_GUEST_PAGES guest }
    requires room { length runs.old ≡ MAX_DESCRIPTORS }
    requires short { All IsShortRun runs.old }
    requires id { reading.id ≤ MAX_REGION_ID }
    requires few { reading.count < MAX_DESCRIPTORS }
    ensures answer { (p : ℕ) (tables : Tables) → reading.wants ≡ Some p → tables p ≡ bytes.now
        → ReadsTable guest tables p (chain_of runs.old reading) result runs.new }
    ensures short { All IsShortRun runs.new }
    ensures reading { IfOk result (λ r. IsReading r) }
{
    let taken = take_runs(bytes, guest, runs, reading.count);
    if taken == TABLE_PAIRS {
        return Err(Fault::ChainEnd);
    }
    let count = reading.count + taken;
    if count == MAX_DESCRIPTORS {
        return Err(Fault::ChainLimit);
    }
    let last = read_descriptor(bytes, taken);
    if last.count > 0 {
        return Err(Fault::BadPage);
    }
    if last.page == 0 {
        runs[count] = last;
        return Ok(Reading {
            id: reading.id,
            count: count + 1,
            wants: None,
        });
    }
    if last.page >= guest {
        return Err(Fault::BadPage);
    }
    if count + 1 == MAX_DESCRIPTORS {
        return Err(Fault::ChainLimit);
    }
    runs[count] = last;
    Ok(Reading {
        id: reading.id,
        count: count + 1,
        wants: Some(last.page),
    })
}
