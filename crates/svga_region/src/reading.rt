//! A whole chain, read from the pages of a guest by the three calls, one after another.
ghost use Rattle.std.specs.Prelude.{◌≡◌, ◌≤◌, ◌<◌, OnOk, OnErr, [], length, slice_index_or};
ghost use Rattle.std.specs.Result.{result_err};
ghost use Rattle.svga_model.specs.Standing.{first_standing};
ghost use Rattle.svga_model.specs.Walks.{chain_tests, with_chain};

use crate::{ChainNext, Regions, whole_chain};
use svga_cmd::constants::MAX_DESCRIPTORS;
use svga_cmd::{Fault, Page};

/// Makes a region of a chain, or deletes it where the first page is 0; page p of the guest is number p of
/// the pages.
pub fn read_chain(regions: &mut Regions, id: u32, first: u32, pages: &[Page]) -> Result<(), Fault>
    requires { regions.old.guest ≤ length pages.now }
    ensures fault { result_err result ≡ first_standing
        (chain_tests regions.old.guest regions.old.regions (λ p. slice_index_or pages.now p []) id first) }
    ensures ok { OnOk result (regions.new.regions ≡ with_chain regions.old.guest regions.old.regions
        (λ p. slice_index_or pages.now p []) id first) }
    ensures err { OnErr result (regions.new.regions ≡ regions.old.regions) }
{
    whole_chain();
    if first == 0 {
        return regions.define(id, 0);
    }
    regions.chain_start(id, first)?;
    let mut wanted = first;
    for _step in 0..MAX_DESCRIPTORS as u32 {
        match regions.chain_page(&pages[wanted as usize]) {
            Ok(ChainNext::Page(next)) => wanted = next,
            Ok(ChainNext::Whole) => return regions.chain_finish(),
            Err(fault) => return Err(fault),
        }
    }
    // Never reached, since no chain goes on behind 4,096 descriptors.
    Err(Fault::ChainLimit)
}
