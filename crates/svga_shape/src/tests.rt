//! Admission by worked cases: each rule with a neighbour that it doesn't refuse, and the least number where
//! several stand.
ghost use Rattle.std.specs.Prelude.{◌≤◌, ◌≢◌};
ghost use Rattle.svga_cmd.specs.Lent.{command_of, entries_of};
ghost use Rattle.svga_cmd.specs.WellFormed.{HasEntries, IsWellFormed};
ghost use Rattle.svga_model.specs.Faults.{ReadsNumbers};

use crate::{Shape, Touch};
use std::alloc::{AllocError, Global};
use std::test::Fail;
use svga_cmd::{
    Blit, CommandRef, EntriesRef, Fault, Format, Gmrfb, GuestPtr, Limits, Page, PageKey, Point,
    Rect, ScreenDef,
};
use svga_region::ChainNext;

const GMR_FRAMEBUFFER: u32 = 0xFFFF_FFFE;

const GMR_NULL: u32 = 0xFFFF_FFFF;

const SVGA_ID_INVALID: u32 = 0xFFFF_FFFF;

/// 64 pages, a framebuffer of 4 pages, and room for 100 pixels.
const LIMITS: Limits = Limits {
    pages: 64,
    gfb_width: 64,
    gfb_height: 64,
    budget: 100,
};

fn screen(id: u32, width: u32, height: u32, x: i32) -> CommandRef<'static>
    ensures well_formed { IsWellFormed (command_of result) }
    ensures named { ¬ (ReadsNumbers (command_of result)) }
{
    CommandRef::DefineScreen(ScreenDef {
        id,
        flags: 1,
        width,
        height,
        x,
        y: 0,
        backing: None,
    })
}

fn gmrfb(region: u32, offset: u32) -> CommandRef<'static>
    ensures well_formed { IsWellFormed (command_of result) }
    ensures named { ¬ (ReadsNumbers (command_of result)) }
{
    CommandRef::DefineGmrfb(Gmrfb {
        region,
        offset,
        pitch: 64,
        format: Format::Bgrx32,
    })
}

fn blit(point: (i32, i32), rect: (i32, i32, i32, i32), screen: u32) -> CommandRef<'static>
    ensures { IsWellFormed (command_of result) }
{
    CommandRef::BlitToScreen(Blit {
        point: Point {
            x: point.0,
            y: point.1,
        },
        rect: Rect {
            left: rect.0,
            top: rect.1,
            right: rect.2,
            bottom: rect.3,
        },
        screen,
    })
}

fn remap<'a>(region: u32, offset: u32, pages: u32, entries: EntriesRef<'a>) -> CommandRef<'a>
    requires few { pages ≤ 65536 }
    requires fits { HasEntries (entries_of entries) pages }
    ensures { IsWellFormed (command_of result) }
{
    CommandRef::RemapGmr2 {
        region,
        offset,
        pages,
        entries,
    }
}

/// Region 1 has pages 4 and 5 and an unmapped place, region 2 has one unmapped place, region 3 is gone.
/// Screen 0 is 4 by 4 pixels at (0, 0), screen 1 is 2 by 4 at (8, 0). The GMRFB is region 1 from byte 0 on,
/// in rows of 64 bytes.
fn prepared(alloc: Global) -> Result<Shape, AllocError> {
    let mut shape = Shape::new(alloc, LIMITS)?;
    define(&mut shape, 1, 3);
    map(&mut shape, 1, 0, 4);
    map(&mut shape, 1, 1, 5);
    define(&mut shape, 2, 1);
    define(&mut shape, 3, 0);
    run(&mut shape, &screen(0, 4, 4, 0));
    run(&mut shape, &screen(1, 2, 4, 8));
    run(&mut shape, &screen(2, 1, 1, 0));
    run(&mut shape, &CommandRef::DestroyScreen { id: 2 });
    run(&mut shape, &gmrfb(1, 0));
    Ok(shape)
}

fn map(shape: &mut Shape, region: u32, offset: u32, page: u32) {
    let entries = EntriesRef::SinglePpn32(page);
    run(
        shape,
        &CommandRef::RemapGmr2 {
            region,
            offset,
            pages: 1,
            entries,
        },
    );
}

fn define(shape: &mut Shape, region: u32, pages: u32) {
    run(shape, &CommandRef::DefineGmr2 { region, pages });
}

fn run(shape: &mut Shape, command: &CommandRef<'_>)
    requires well_formed { IsWellFormed (command_of command.now) }
    requires named { ¬ (ReadsNumbers (command_of command.now)) }
{
    if shape.admit(command).is_ok() {
        shape.apply(command);
    }
}

const NOTHING: Result<Touch, Fault> = Ok(Touch::Nothing);

const FRAME: Result<Touch, Fault> = Ok(Touch::Region(GMR_FRAMEBUFFER));

const FIRST: Result<Touch, Fault> = Ok(Touch::Region(1));

#[test]
fn commands_without_bytes(rt: HostRuntime) -> Result<(), Fail> {
    let shape = prepared(rt.alloc())?;
    let update = CommandRef::Update {
        x: 4294967295,
        y: 0,
        width: 4294967295,
        height: 0,
    };
    assert_eq!(rt; shape.admit(&update), FRAME);
    assert_eq!(rt; shape.admit(&CommandRef::Fence { value: 0 }), NOTHING);
    for (id, answer) in [
        (0, NOTHING),
        (2, Err(Fault::NoScreen)),
        (15, Err(Fault::NoScreen)),
        (16, Err(Fault::ScreenId)),
    ] {
        assert_eq!(rt;
            shape.admit(&CommandRef::DestroyScreen { id }),
            answer,
            "destroy {id}"
        );
    }
    for (id, width, height, answer) in [
        (15, 76, 1, NOTHING),
        (15, 77, 1, Err(Fault::PixelBudget)),
        (0, 92, 1, NOTHING),
        (0, 93, 1, Err(Fault::PixelBudget)),
        (16, 1, 1, Err(Fault::ScreenId)),
        (16, 0, 1, Err(Fault::ScreenId)),
        (3, 0, 1, Err(Fault::ScreenSize)),
        (3, 1, 8193, Err(Fault::ScreenSize)),
        (3, 1, 8192, Err(Fault::PixelBudget)),
    ] {
        let command = screen(id, width, height, 0);
        assert_eq!(rt;
            shape.admit(&command),
            answer,
            "screen {id} {width} {height}"
        );
    }
    for (region, answer) in [
        (4095, NOTHING),
        (4096, Err(Fault::RegionId)),
        (4294967293, Err(Fault::RegionId)),
        (GMR_FRAMEBUFFER, NOTHING),
        (GMR_NULL, NOTHING),
    ] {
        assert_eq!(rt; shape.admit(&gmrfb(region, 0)), answer, "gmrfb {region}");
    }
    for (region, pages, answer) in [
        (4095, 65532, NOTHING),
        (4095, 65533, Err(Fault::PlaceLimit)),
        (1, 65535, NOTHING),
        (1, 65536, Err(Fault::PlaceLimit)),
        (4096, 65537, Err(Fault::RegionId)),
        (GMR_FRAMEBUFFER, 0, Err(Fault::RegionId)),
    ] {
        let command = CommandRef::DefineGmr2 { region, pages };
        assert_eq!(rt; shape.admit(&command), answer, "region {region} {pages}");
    }
    Ok(())
}

#[test]
fn remaps(rt: HostRuntime) -> Result<(), Fail> {
    let shape = prepared(rt.alloc())?;
    for (region, offset, pages, page, answer) in [
        (1, 0, 3u16, 63, NOTHING),
        (1, 1, 3, 63, Err(Fault::RangeBeyond)),
        (1, 3, 0, 63, NOTHING),
        (1, 4, 0, 63, Err(Fault::RangeBeyond)),
        (1, 0, 0, 64, Err(Fault::BadPage)),
        (1, 3, 1, 64, Err(Fault::RangeBeyond)),
        (3, 0, 1, 64, Err(Fault::NoRegion)),
        (4096, 0, 1, 64, Err(Fault::RegionId)),
        (GMR_NULL, 0, 0, 0, Err(Fault::RegionId)),
    ] {
        let entries = EntriesRef::SinglePpn32(page);
        let command = remap(region, offset, u32::from(pages), entries);
        assert_eq!(rt;
            shape.admit(&command),
            answer,
            "remap {region} {offset} {pages} {page}"
        );
    }
    let high = EntriesRef::SinglePpn64 { low: 4, high: 1 };
    assert_eq!(rt; shape.admit(&remap(1, 0, 1, high)), Err(Fault::BadPage));
    assert_eq!(rt;
        shape.admit(&remap(1, 0, 2, EntriesRef::Ppn32(&[63, 64]))),
        Err(Fault::BadPage)
    );
    assert_eq!(rt;
        shape.admit(&remap(1, 0, 2, EntriesRef::Ppn32(&[63, 0]))),
        NOTHING
    );
    Ok(())
}

/// Two numbers of 32 bits from a byte on, for the first two places of a region.
fn via(region: u32, pointed: u32, offset: u32) -> CommandRef<'static>
    ensures { IsWellFormed (command_of result) }
{
    let pointer = GuestPtr {
        region: pointed,
        offset,
    };
    remap(region, 0, 2, EntriesRef::ViaGmr32(pointer))
}

#[test]
fn remaps_by_a_pointer(rt: HostRuntime) -> Result<(), Fail> {
    let shape = prepared(rt.alloc())?;
    for (region, pointed, offset, answer) in [
        (1, 1, 8184, FIRST),
        (1, 1, 8185, Err(Fault::Unmapped)),
        (1, 1, 12288, Err(Fault::BeyondRegion)),
        (1, 1, 12284, Err(Fault::Unmapped)),
        (1, 2, 4096, Err(Fault::BeyondRegion)),
        (1, 3, 0, Err(Fault::NoRegion)),
        (1, 4096, 0, Err(Fault::RegionId)),
        (1, GMR_FRAMEBUFFER, 16376, FRAME),
        (1, GMR_FRAMEBUFFER, 16377, Err(Fault::BeyondRegion)),
        (4096, 3, 0, Err(Fault::NoRegion)),
        (2, 4096, 0, Err(Fault::RegionId)),
        (2, 1, 0, Err(Fault::RangeBeyond)),
        (2, 1, 8192, Err(Fault::RangeBeyond)),
        (3, 1, 0, Err(Fault::NoRegion)),
    ] {
        let command = via(region, pointed, offset);
        assert_eq!(rt;
            shape.admit(&command),
            answer,
            "via {region} {pointed} {offset}"
        );
    }
    let wide = EntriesRef::ViaGmr64(GuestPtr {
        region: 1,
        offset: 8180,
    });
    assert_eq!(rt; shape.admit(&remap(1, 0, 1, wide)), FIRST);
    assert_eq!(rt; shape.admit(&remap(1, 0, 2, wide)), Err(Fault::Unmapped));
    assert_eq!(rt; shape.admit(&remap(1, 0, 0, wide)), FIRST);
    Ok(())
}

#[test]
fn blits_by_their_screens(rt: HostRuntime) -> Result<(), Fail> {
    let shape = prepared(rt.alloc())?;
    for (point, rect, screen, answer) in [
        ((0, 0), (0, 0, 4, 4), 0, FIRST),
        ((0, 0), (0, 0, 4, 4), 2, Err(Fault::NoScreen)),
        ((0, 0), (0, 0, 4, 4), 16, Err(Fault::ScreenId)),
        ((0, 0), (4, 0, 3, 4), 0, Err(Fault::NegativeSide)),
        ((0, 0), (0, 4, 4, 3), 2, Err(Fault::NoScreen)),
        ((0, -9), (4, 4, 4, 4), 0, FIRST),
        ((0, -9), (4, 0, 9, 9), 0, FIRST),
        (
            (0, -9),
            (4, 0, 9, 9),
            SVGA_ID_INVALID,
            Err(Fault::BeyondRegion),
        ),
        ((0, -9), (4, 0, 8, 9), SVGA_ID_INVALID, FIRST),
    ] {
        assert_eq!(rt;
            shape.admit(&blit(point, rect, screen)),
            answer,
            "{rect:?} of {screen}"
        );
    }
    Ok(())
}

#[test]
fn blits_by_their_bytes(rt: HostRuntime) -> Result<(), Fail> {
    let shape = prepared(rt.alloc())?;
    for (point, rect, answer) in [
        ((0, 0), (-1, -1, 2, 2), FIRST),
        ((-1, 0), (0, 0, 2, 1), Err(Fault::BeyondRegion)),
        ((-1, 0), (-1, 0, 2, 1), FIRST),
        ((0, 127), (0, 0, 4, 1), FIRST),
        ((0, 127), (0, 0, 4, 2), Err(Fault::Unmapped)),
        ((0, 191), (0, 0, 4, 1), Err(Fault::Unmapped)),
        ((0, 192), (0, 0, 4, 1), Err(Fault::BeyondRegion)),
        ((0, 191), (0, 0, 4, 2), Err(Fault::Unmapped)),
        ((15, 127), (0, 0, 1, 1), FIRST),
        ((15, 127), (0, 0, 2, 1), Err(Fault::Unmapped)),
        (
            (2147483647, 2147483647),
            (0, 0, 1, 1),
            Err(Fault::BeyondRegion),
        ),
    ] {
        assert_eq!(rt;
            shape.admit(&blit(point, rect, 0)),
            answer,
            "{point:?} {rect:?}"
        );
    }
    Ok(())
}

#[test]
fn gmrfbs(rt: HostRuntime) -> Result<(), Fail> {
    let mut shape = prepared(rt.alloc())?;
    let back = CommandRef::BlitToGmrfb(Blit {
        point: Point { x: 0, y: 0 },
        rect: Rect {
            left: 0,
            top: 0,
            right: 1,
            bottom: 1,
        },
        screen: 0,
    });
    for (region, offset, answer) in [
        (1, 8188, FIRST),
        (1, 8189, Err(Fault::Unmapped)),
        (2, 0, Err(Fault::Unmapped)),
        (3, 0, Err(Fault::NoRegion)),
        (GMR_FRAMEBUFFER, 16380, FRAME),
        (GMR_FRAMEBUFFER, 16381, Err(Fault::BeyondRegion)),
        (GMR_NULL, 0, Err(Fault::NoGmrfb)),
    ] {
        run(&mut shape, &gmrfb(region, offset));
        assert_eq!(rt; shape.admit(&back), answer, "gmrfb {region} {offset}");
    }
    Ok(())
}

/// Reads a chain whose first table page is the only one, and tells whether it is.
fn read_chain(shape: &mut Shape, id: u32, first: u32, page: &Page) -> Result<bool, Fault>
    requires { first ≢ 0 }
{
    shape.chain_start(id, first)?;
    match shape.chain_page(page)? {
        ChainNext::Page(_) => Ok(false),
        ChainNext::Whole => {
            shape.chain_finish()?;
            Ok(true)
        }
    }
}

#[test]
fn chains_and_regions(rt: HostRuntime) -> Result<(), Fail> {
    let mut shape = prepared(rt.alloc())?;
    let page = Page::new(rt.alloc())?;
    assert_eq!(rt; shape.chain_start(7, 64), Err(Fault::BadPage));
    assert_eq!(rt; read_chain(&mut shape, 7, 5, &page), Ok(true));
    assert_eq!(rt; shape.regions().length(7), Some(0));
    assert_eq!(rt; shape.regions().length(1), Some(3));
    assert_eq!(rt; shape.regions().place(1, 1), Some(PageKey::Guest(5)));
    Ok(())
}
