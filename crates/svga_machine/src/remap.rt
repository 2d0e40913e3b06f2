//! REMAP_GMR2: page numbers that are named, or that are read from a region.
ghost use Rattle.std.specs.Prelude.{◌≡◌, ◌≤◌, [], length};
ghost use Rattle.std.specs.Result.{result_err};
ghost use Rattle.svga_cmd.specs.Lent.{entries_of};
ghost use Rattle.svga_cmd.specs.WellFormed.{IsWellFormed};
ghost use Rattle.svga_cmd.specs.declared.command.Command.TheVariants.{RemapGmr2};
ghost use Rattle.svga_cmd.specs.declared.remap.RemapData.TheVariants.{ViaGmr32, ViaGmr64};
ghost use Rattle.svga_model.specs.Faults.{ReadsNumbers};
ghost use Rattle.svga_model.specs.PointedNumbers.{pointed};
ghost use Rattle.svga_region.specs.RegionSet.{places_in};
ghost use Rattle.svga_shape.specs.Admission.{IsAdmitted};
ghost use Rattle.svga_shape.specs.ShapeSet.{shape_in};
ghost use Rattle.svga_transfer.specs.Reach.{HasPages};
ghost use Rattle.svga_machine.specs.Remaps.{HasRemapped, IsRangeAdmitted, IsRemap, IsStepOf};
ghost use Rattle.svga_machine.specs.Touched.{HasPointed};

use svga_cmd::constants::{MAX_ENTRY_WORDS, MAX_REMAP_PAGES};
use svga_cmd::{CommandRef, EntriesRef, Fault, GuestPtr, PageStore};
use svga_shape::Shape;
use svga_transfer::read_words;

/// Makes the shape that of the state after a remap of which all is judged but the numbers that it reads, or
/// tells that one of these is no page of the guest. Numbers are read into the room, all of them before the
/// first place changes.
pub(crate) fn remap<P: PageStore>(
    shape: &mut Shape,
    store: &P,
    numbers: &mut [u32],
    region: u32,
    offset: u32,
    pages: u32,
    entries: EntriesRef<'_>,
) -> Result<(), Fault>
    requires well_formed { IsWellFormed (RemapGmr2 region offset pages (entries_of entries)) }
    requires room { length numbers.old ≡ MAX_ENTRY_WORDS }
    requires admitted { IsAdmitted (shape_in shape.old) (RemapGmr2 region offset pages (entries_of entries)) }
    requires there { HasPointed shape.old.regions.frame shape.old.regions.regions (P.pages store.now)
        (pointed (entries_of entries)) }
    ensures remap { IsRemap shape.old (P.pages store.now)
        (RemapGmr2 region offset pages (entries_of entries.entry)) result
        shape.new }
    ensures room { length numbers.new ≡ length numbers.old }
{
    match entries {
        EntriesRef::ViaGmr32(pointer) => remap_by_words(
            shape, store, numbers, region, offset, pages, pointer,
        ),
        EntriesRef::ViaGmr64(pointer) => remap_by_pairs(
            shape, store, numbers, region, offset, pages, pointer,
        ),
        named => {
            remap_named(shape, region, offset, pages, named);
            Ok(())
        }
    }
}

/// The same by page numbers of one word that stand in a region.
fn remap_by_words<P: PageStore>(
    shape: &mut Shape,
    store: &P,
    numbers: &mut [u32],
    region: u32,
    offset: u32,
    pages: u32,
    pointer: GuestPtr,
) -> Result<(), Fault>
    requires few { pages ≤ MAX_REMAP_PAGES }
    requires room { length numbers.old ≡ MAX_ENTRY_WORDS }
    requires admitted { IsAdmitted (shape_in shape.old) (RemapGmr2 region offset pages (ViaGmr32 pointer)) }
    requires there { HasPages (P.pages store.now) (places_in shape.old.regions pointer.region) }
    ensures remap { IsRemap shape.old (P.pages store.now)
        (RemapGmr2 region offset pages (ViaGmr32 pointer)) result shape.new }
    ensures room { length numbers.new ≡ length numbers.old }
{
    let words = &mut numbers[..pages as usize];
    read_words(
        shape.regions(),
        store,
        pointer.region,
        pointer.offset,
        words,
    );
    remap_read(shape, region, offset, pages, EntriesRef::Ppn32(&*words))
}

/// The same by page numbers of two words that stand in a region.
fn remap_by_pairs<P: PageStore>(
    shape: &mut Shape,
    store: &P,
    numbers: &mut [u32],
    region: u32,
    offset: u32,
    pages: u32,
    pointer: GuestPtr,
) -> Result<(), Fault>
    requires few { pages ≤ MAX_REMAP_PAGES }
    requires room { length numbers.old ≡ MAX_ENTRY_WORDS }
    requires admitted { IsAdmitted (shape_in shape.old) (RemapGmr2 region offset pages (ViaGmr64 pointer)) }
    requires there { HasPages (P.pages store.now) (places_in shape.old.regions pointer.region) }
    ensures remap { IsRemap shape.old (P.pages store.now)
        (RemapGmr2 region offset pages (ViaGmr64 pointer)) result shape.new }
    ensures room { length numbers.new ≡ length numbers.old }
{
    let words = &mut numbers[..2 * pages as usize];
    read_words(
        shape.regions(),
        store,
        pointer.region,
        pointer.offset,
        words,
    );
    remap_read(shape, region, offset, pages, EntriesRef::Ppn64(&*words))
}

/// The same by page numbers that were read, where all but these is judged.
fn remap_read(
    shape: &mut Shape,
    region: u32,
    offset: u32,
    pages: u32,
    entries: EntriesRef<'_>,
) -> Result<(), Fault>
    requires well_formed { IsWellFormed (RemapGmr2 region offset pages (entries_of entries)) }
    requires named { ¬ (ReadsNumbers (RemapGmr2 region offset pages (entries_of entries))) }
    requires admitted { IsRangeAdmitted (shape_in shape.old) region offset pages }
    ensures { HasRemapped shape.old (RemapGmr2 region offset pages (entries_of entries.entry)) result
        shape.new }
{
    shape.regions().may_name(entries, pages)?;
    remap_named(shape, region, offset, pages, entries);
    Ok(())
}

/// The same by page numbers that are judged with all else.
fn remap_named(shape: &mut Shape, region: u32, offset: u32, pages: u32, entries: EntriesRef<'_>)
    requires well_formed { IsWellFormed (RemapGmr2 region offset pages (entries_of entries)) }
    requires named { ¬ (ReadsNumbers (RemapGmr2 region offset pages (entries_of entries))) }
    requires admitted { IsAdmitted (shape_in shape.old) (RemapGmr2 region offset pages (entries_of entries)) }
    ensures { IsStepOf shape.old (RemapGmr2 region offset pages (entries_of entries.entry)) shape.new }
{
    shape.apply(&CommandRef::RemapGmr2 {
        region,
        offset,
        pages,
        entries,
    });
}
