//! Commands that a machine runs, by worked cases.
ghost use Rattle.std.specs.Prelude.{◌≢◌, ◌*◌, ◌≤◌, length};
ghost use Rattle.svga_cmd.specs.Lent.{command_of, entries_of};
ghost use Rattle.svga_cmd.specs.WellFormed.{HasEntries, IsWellFormed};

use crate::{Display, Effect, Machine};
use std::alloc::{AllocError, Global};
use std::test::Fail;
use svga_cmd::{
    Blit, CommandRef, EntriesRef, Fault, Format, Gmrfb, GuestPtr, Limits, Page, PageKey, Point,
    Rect, ScreenDef,
};
use svga_region::ChainNext;
use svga_screen::Area;

const GMR_FRAMEBUFFER: u32 = 0xFFFF_FFFE;

const GMR_NULL: u32 = 0xFFFF_FFFF;

const SVGA_ID_INVALID: u32 = 0xFFFF_FFFF;

/// 64 pages, a framebuffer of 4 by 4 pixels on one page, and room for 200 pixels.
const LIMITS: Limits = Limits {
    pages: 64,
    gfb_width: 4,
    gfb_height: 4,
    budget: 200,
};

/// Four rows of four pixels.
const PICTURE: [u32; 16] = [
    0xA0B0C0, 0xA1B1C1, 0xA2B2C2, 0xA3B3C3, 0xA4B4C4, 0xA5B5C5, 0xA6B6C6, 0xA7B7C7, 0xA8B8C8,
    0xA9B9C9, 0xAABACA, 0xABBBCB, 0xACBCCC, 0xADBDCD, 0xAEBECE, 0xAFBFCF,
];

/// What a command tells, but for the areas that it painted.
#[derive(Clone, Copy, Debug, PartialEq, Eq)]
enum Told {
    Nothing,
    Fence(u32),
    Shown(u32),
    Hidden(u32),
    Painted,
}

const NOTHING: Result<Told, Fault> = Ok(Told::Nothing);

/// Runs a command.
fn tells(display: &mut Display, command: &CommandRef<'_>) -> Result<Told, Fault>
    requires { IsWellFormed (command_of command.now) }
{
    match display.run(command)? {
        Effect::Nothing => Ok(Told::Nothing),
        Effect::Fence(value) => Ok(Told::Fence(value)),
        Effect::Shown(id) => Ok(Told::Shown(id)),
        Effect::Hidden(id) => Ok(Told::Hidden(id)),
        Effect::Painted(_) => Ok(Told::Painted),
    }
}

/// Whether the command runs, and these are the areas that it paints.
fn paints(display: &mut Display, command: &CommandRef<'_>, areas: &[Area]) -> bool
    requires { IsWellFormed (command_of command.now) }
{
    match display.run(command) {
        Ok(Effect::Painted(painted)) => painted.as_slice() == areas,
        _ => false,
    }
}

/// A part of a screen.
fn area(screen: u32, left: u32, top: u32, width: u32, height: u32) -> Area {
    Area {
        screen,
        left,
        top,
        width,
        height,
    }
}

/// UPDATE.
fn update(x: u32, y: u32, width: u32, height: u32) -> CommandRef<'static>
    ensures { IsWellFormed (command_of result) }
{
    CommandRef::Update {
        x,
        y,
        width,
        height,
    }
}

/// DEFINE_SCREEN with this left top corner.
fn screen(id: u32, width: u32, height: u32, corner: (i32, i32)) -> CommandRef<'static>
    ensures { IsWellFormed (command_of result) }
{
    CommandRef::DefineScreen(ScreenDef {
        id,
        flags: 1,
        width,
        height,
        x: corner.0,
        y: corner.1,
        backing: None,
    })
}

/// DEFINE_GMRFB.
fn gmrfb(region: u32, offset: u32, pitch: u32, format: Format) -> CommandRef<'static>
    ensures { IsWellFormed (command_of result) }
{
    CommandRef::DefineGmrfb(Gmrfb {
        region,
        offset,
        pitch,
        format,
    })
}

/// A blit where this GMRFB pixel goes with the left top corner of the rectangle (left, top, right, bottom).
fn blit(point: (i32, i32), rect: (i32, i32, i32, i32), screen: u32) -> Blit {
    Blit {
        point: Point {
            x: point.0,
            y: point.1,
        },
        rect: Rect {
            left: rect.0,
            top: rect.1,
            right: rect.2,
            bottom: rect.3,
        },
        screen,
    }
}

/// BLIT_GMRFB_TO_SCREEN.
fn to_screen(point: (i32, i32), rect: (i32, i32, i32, i32), screen: u32) -> CommandRef<'static>
    ensures { IsWellFormed (command_of result) }
{
    CommandRef::BlitToScreen(blit(point, rect, screen))
}

/// BLIT_SCREEN_TO_GMRFB.
fn to_gmrfb(point: (i32, i32), rect: (i32, i32, i32, i32), screen: u32) -> CommandRef<'static>
    ensures { IsWellFormed (command_of result) }
{
    CommandRef::BlitToGmrfb(blit(point, rect, screen))
}

/// REMAP_GMR2.
fn remap<'a>(region: u32, offset: u32, pages: u32, entries: EntriesRef<'a>) -> CommandRef<'a>
    requires few { pages ≤ 65536 }
    requires fits { HasEntries (entries_of entries) pages }
    ensures { IsWellFormed (command_of result) }
{
    CommandRef::RemapGmr2 {
        region,
        offset,
        pages,
        entries,
    }
}

/// Gives a region so many places, the first of them mapped to these guest pages.
fn map(display: &mut Display, region: u32, places: u32, pages: &[u32])
    requires { length pages.now ≤ 65536 }
{
    let _ = display.run(&CommandRef::DefineGmr2 {
        region,
        pages: places,
    });
    let entries = EntriesRef::Ppn32(pages);
    let _ = display.run(&remap(region, 0, pages.len() as u32, entries));
}

/// Writes words one behind another.
fn put_words(display: &mut Display, key: PageKey, words: &[u32]) {
    for (i, word) in words.iter().enumerate() {
        display.write(key, i.saturating_mul(4), &word.to_le_bytes());
    }
}

/// Writes the picture as 32 bits a pixel, with a last byte that is no part of a colour.
fn put_picture(display: &mut Display, key: PageKey) {
    put_words(display, key, &PICTURE.map(|colour| colour | 0xFF00_0000));
}

/// A machine with screen 0 of these sides at (0, 0), and with the picture in the framebuffer and on guest
/// page 4.
fn with_screen(alloc: Global, width: u32, height: u32) -> Result<Display, AllocError> {
    let mut display = Display::new(alloc, LIMITS)?;
    let _ = display.run(&screen(0, width, height, (0, 0)));
    put_picture(&mut display, PageKey::Frame(0));
    put_picture(&mut display, PageKey::Guest(4));
    Ok(display)
}

/// The colour of a pixel among these pixels with their places, black where it is none of them.
fn colour_at(pixels: &[(u32, u32, u32)], x: u32, y: u32) -> u32 {
    for pixel in pixels {
        if pixel.0 == x && pixel.1 == y {
            return pixel.2;
        }
    }
    0
}

/// Whether a screen of these sides shows these pixels with their places, and is black elsewhere.
fn shows(display: &Display, id: u32, sides: (u32, u32), pixels: &[(u32, u32, u32)]) -> bool {
    for y in 0..sides.1 {
        let Some(row) = display.machine().screens().row(id, y) else {
            return false;
        };
        if row.len() != sides.0 as usize {
            return false;
        }
        for (x, colour) in row.iter().enumerate() {
            if *colour != colour_at(pixels, x as u32, y) {
                return false;
            }
        }
    }
    display.machine().screens().row(id, sides.1).is_none()
}

/// Whether a page has these bytes from a byte on.
fn holds(display: &Display, key: PageKey, at: usize, bytes: &[u8]) -> bool {
    match display.bytes(key) {
        None => false,
        Some(page) => page.get(at..).is_some_and(|rest| rest.starts_with(bytes)),
    }
}

/// Whether a region has exactly these guest pages.
fn has_pages(machine: &Machine, region: u32, pages: &[u32]) -> bool {
    let regions = machine.shape().regions();
    let Some(count) = regions.length(region) else {
        return false;
    };
    if pages.len() != count as usize {
        return false;
    }
    for k in 0..count {
        if regions.place(region, k) != Some(PageKey::Guest(pages[k as usize])) {
            return false;
        }
    }
    true
}

/// The GMRFB pixel goes with the rectangle's corner, which is off the screen: what is painted is shifted by
/// it.
#[test]
fn blits_at_a_corner(rt: HostRuntime) -> Result<(), Fail> {
    let mut display = with_screen(rt.alloc(), 4, 4)?;
    map(&mut display, 1, 1, &[4]);
    let named = gmrfb(1, 0, 16, Format::Bgrx32);
    assert_eq!(rt; tells(&mut display, &named), NOTHING);
    let shown = to_screen((0, 0), (-1, -1, 2, 2), 0);
    assert!(rt; paints(&mut display, &shown, &[area(0, 0, 0, 2, 2)]));
    let pixels = [
        (0, 0, 0xA5B5C5),
        (1, 0, 0xA6B6C6),
        (0, 1, 0xA9B9C9),
        (1, 1, 0xAABACA),
    ];
    assert!(rt; shows(&display, 0, (4, 4), &pixels));
    Ok(())
}

/// A pixel whose bytes lie on two places, which are one page.
#[test]
fn pixel_over_two_places(rt: HostRuntime) -> Result<(), Fail> {
    let mut display = with_screen(rt.alloc(), 1, 1)?;
    map(&mut display, 1, 2, &[]);
    let same = remap(1, 0, 2, EntriesRef::SinglePpn32(4));
    assert_eq!(rt; tells(&mut display, &same), NOTHING);
    display.write(PageKey::Guest(4), 4095, &[0x11]);
    display.write(PageKey::Guest(4), 0, &[0x22, 0x33]);
    let named = gmrfb(1, 4095, 4096, Format::Bgr24);
    assert_eq!(rt; tells(&mut display, &named), NOTHING);
    let shown = to_screen((0, 0), (0, 0, 1, 1), 0);
    assert!(rt; paints(&mut display, &shown, &[area(0, 0, 0, 1, 1)]));
    assert!(rt; shows(&display, 0, (1, 1), &[(0, 0, 0x332211)]));
    Ok(())
}

/// Screens that share the virtual pixel (1, 0). A blit to all of them paints it on both, a blit to one on
/// that one alone, and it is read from the screen with the lesser id.
#[test]
fn screens_that_overlap(rt: HostRuntime) -> Result<(), Fail> {
    let mut display = with_screen(rt.alloc(), 2, 1)?;
    map(&mut display, 1, 1, &[4]);
    assert_eq!(rt;
        tells(&mut display, &screen(1, 2, 1, (1, 0))),
        Ok(Told::Shown(1))
    );
    assert_eq!(rt;
        tells(&mut display, &gmrfb(1, 0, 16, Format::Bgrx32)),
        NOTHING
    );

    let all = to_screen((0, 0), (0, 0, 3, 1), SVGA_ID_INVALID);
    assert!(rt;
        paints(
            &mut display,
            &all,
            &[area(0, 0, 0, 2, 1), area(1, 0, 0, 2, 1)]
        )
    );
    assert!(rt; shows(&display, 0, (2, 1), &[(0, 0, 0xA0B0C0), (1, 0, 0xA1B1C1)]));
    assert!(rt; shows(&display, 1, (2, 1), &[(0, 0, 0xA1B1C1), (1, 0, 0xA2B2C2)]));

    let one = to_screen((3, 0), (0, 0, 1, 1), 1);
    assert!(rt; paints(&mut display, &one, &[area(1, 0, 0, 1, 1)]));
    assert!(rt; shows(&display, 0, (2, 1), &[(0, 0, 0xA0B0C0), (1, 0, 0xA1B1C1)]));
    assert!(rt; shows(&display, 1, (2, 1), &[(0, 0, 0xA3B3C3), (1, 0, 0xA2B2C2)]));

    let back = to_gmrfb((0, 1), (0, 0, 3, 1), SVGA_ID_INVALID);
    assert_eq!(rt; tells(&mut display, &back), NOTHING);
    let row = [
        0xC0, 0xB0, 0xA0, 0, 0xC1, 0xB1, 0xA1, 0, 0xC2, 0xB2, 0xA2, 0,
    ];
    assert!(rt; holds(&display, PageKey::Guest(4), 16, &row));
    assert!(rt; holds(&display, PageKey::Guest(4), 12, &[0xC3, 0xB3, 0xA3, 0xFF]));
    assert!(rt; holds(&display, PageKey::Guest(4), 28, &[0xC7, 0xB7, 0xA7, 0xFF]));
    Ok(())
}

/// An UPDATE past the framebuffer's right and lower edges, on two screens, one of them at negative
/// coordinates.
#[test]
fn updates_past_the_edges(rt: HostRuntime) -> Result<(), Fail> {
    let mut display = with_screen(rt.alloc(), 8, 8)?;
    assert_eq!(rt;
        tells(&mut display, &screen(1, 8, 8, (-2, -2))),
        Ok(Told::Shown(1))
    );
    for (x, width) in [(4, 1), (4294967295, 4294967295)] {
        assert!(rt;
            paints(&mut display, &update(x, 0, width, 1), &[]),
            "at {x}"
        );
    }
    assert!(rt; shows(&display, 0, (8, 8), &[]));
    let areas = [area(0, 2, 2, 2, 2), area(1, 4, 4, 2, 2)];
    assert!(rt; paints(&mut display, &update(2, 2, 100, 100), &areas));
    let pixels = [
        (2, 2, 0xAABACA),
        (3, 2, 0xABBBCB),
        (2, 3, 0xAEBECE),
        (3, 3, 0xAFBFCF),
    ];
    assert!(rt; shows(&display, 0, (8, 8), &pixels));
    let pixels = [
        (4, 4, 0xAABACA),
        (5, 4, 0xABBBCB),
        (4, 5, 0xAEBECE),
        (5, 5, 0xAFBFCF),
    ];
    assert!(rt; shows(&display, 1, (8, 8), &pixels));
    Ok(())
}

/// A blit back whose second row runs over the end of a place into one that is the same page, where the
/// first row is.
#[test]
fn last_byte_stands(rt: HostRuntime) -> Result<(), Fail> {
    let mut display = with_screen(rt.alloc(), 2, 2)?;
    map(&mut display, 2, 2, &[9, 9]);
    display.write(PageKey::Guest(9), 0, &[0xEE; 10]);
    display.write(PageKey::Guest(9), 4093, &[0xEE; 3]);
    assert!(rt; paints(&mut display, &update(0, 0, 4, 4), &[area(0, 0, 0, 2, 2)]));
    assert_eq!(rt;
        tells(&mut display, &gmrfb(2, 0, 4094, Format::Bgrx32)),
        NOTHING
    );
    assert_eq!(rt;
        tells(&mut display, &to_gmrfb((0, 0), (0, 0, 2, 2), 0)),
        NOTHING
    );
    let front = [0xA4, 0, 0xC5, 0xB5, 0xA5, 0, 0xA1, 0, 0xEE, 0xEE];
    assert!(rt; holds(&display, PageKey::Guest(9), 0, &front));
    assert!(rt; holds(&display, PageKey::Guest(9), 4093, &[0xEE, 0xC4, 0xB4]));
    Ok(())
}

/// A region's remap by numbers that stand in it: all are read before a place changes, and a bad one changes
/// none.
#[test]
fn remaps_of_their_own_numbers(rt: HostRuntime) -> Result<(), Fail> {
    let mut display = Display::new(rt.alloc(), LIMITS)?;
    let pointer = GuestPtr {
        region: 1,
        offset: 0,
    };
    let bad = Err(Fault::BadPage);
    for (is_wide, words, answer, pages) in [
        (false, [8, 9, 10, 0, 0, 0], NOTHING, [8, 9, 10]),
        (false, [8, 9, 64, 0, 0, 0], bad, [5, 6, 7]),
        (true, [8, 0, 9, 0, 10, 0], NOTHING, [8, 9, 10]),
        (true, [8, 0, 9, 1, 10, 0], bad, [5, 6, 7]),
        (true, [8, 0, 9, 0, 64, 0], bad, [5, 6, 7]),
    ] {
        map(&mut display, 1, 3, &[5, 6, 7]);
        put_words(&mut display, PageKey::Guest(5), &words);
        let entries = if is_wide {
            EntriesRef::ViaGmr64(pointer)
        } else {
            EntriesRef::ViaGmr32(pointer)
        };
        assert_eq!(rt;
            tells(&mut display, &remap(1, 0, 3, entries)),
            answer,
            "{words:?}"
        );
        assert!(rt; has_pages(display.machine(), 1, &pages), "{words:?}");
        assert!(rt; holds(&display, PageKey::Guest(5), 0, &[8, 0, 0, 0]));
    }
    Ok(())
}

/// The last row's bytes lie on an unmapped place: no pixel is moved, either way.
#[test]
fn faults_change_nothing(rt: HostRuntime) -> Result<(), Fail> {
    let mut display = with_screen(rt.alloc(), 2, 3)?;
    map(&mut display, 2, 2, &[9]);
    display.write(PageKey::Guest(9), 0, &[0xEE; 8]);
    assert!(rt; paints(&mut display, &update(0, 0, 1, 3), &[area(0, 0, 0, 1, 3)]));
    assert_eq!(rt;
        tells(&mut display, &gmrfb(2, 0, 2048, Format::Bgrx32)),
        NOTHING
    );
    let unmapped = Err(Fault::Unmapped);
    assert_eq!(rt;
        tells(&mut display, &to_screen((0, 0), (0, 0, 2, 3), 0)),
        unmapped
    );
    assert_eq!(rt;
        tells(&mut display, &to_gmrfb((0, 0), (0, 0, 2, 3), 0)),
        unmapped
    );
    let pixels = [(0, 0, 0xA0B0C0), (0, 1, 0xA4B4C4), (0, 2, 0xA8B8C8)];
    assert!(rt; shows(&display, 0, (2, 3), &pixels));
    assert!(rt; holds(&display, PageKey::Guest(9), 0, &[0xEE; 8]));
    let lesser = to_screen((0, 0), (0, 0, 2, 2), 0);
    assert!(rt; paints(&mut display, &lesser, &[area(0, 0, 0, 2, 2)]));
    Ok(())
}

/// What runs tells its effect, and what is refused its fault.
#[test]
fn screens_and_fences(rt: HostRuntime) -> Result<(), Fail> {
    let mut display = Display::new(rt.alloc(), LIMITS)?;
    let fence = CommandRef::Fence { value: 4294967295 };
    assert_eq!(rt; tells(&mut display, &fence), Ok(Told::Fence(4294967295)));
    for (id, width, height, answer) in [
        (0, 4, 4, Ok(Told::Shown(0))),
        (15, 2, 2, Ok(Told::Shown(15))),
        (16, 1, 1, Err(Fault::ScreenId)),
        (1, 0, 1, Err(Fault::ScreenSize)),
        (1, 1, 8193, Err(Fault::ScreenSize)),
        (1, 181, 1, Err(Fault::PixelBudget)),
        (1, 180, 1, Ok(Told::Shown(1))),
    ] {
        let command = screen(id, width, height, (0, 0));
        assert_eq!(rt;
            tells(&mut display, &command),
            answer,
            "screen {id} {width}"
        );
    }
    for (id, answer) in [
        (15, Ok(Told::Hidden(15))),
        (15, Err(Fault::NoScreen)),
        (16, Err(Fault::ScreenId)),
    ] {
        let command = CommandRef::DestroyScreen { id };
        assert_eq!(rt; tells(&mut display, &command), answer, "destroy {id}");
    }
    assert!(rt; shows(&display, 1, (180, 1), &[]));
    assert!(rt; display.machine().screens().def(15).is_none());
    Ok(())
}

/// Commands that show nothing, and their faults.
#[test]
fn regions_and_remaps(rt: HostRuntime) -> Result<(), Fail> {
    let mut display = Display::new(rt.alloc(), LIMITS)?;
    for (region, answer) in [
        (4095, NOTHING),
        (4096, Err(Fault::RegionId)),
        (GMR_FRAMEBUFFER, NOTHING),
        (GMR_NULL, NOTHING),
    ] {
        let command = gmrfb(region, 0, 16, Format::Rgb565);
        assert_eq!(rt; tells(&mut display, &command), answer, "gmrfb {region}");
    }
    for (region, pages, answer) in [
        (1, 3, NOTHING),
        (4096, 1, Err(Fault::RegionId)),
        (2, 65534, Err(Fault::PlaceLimit)),
        (2, 65533, NOTHING),
        (2, 0, NOTHING),
    ] {
        let command = CommandRef::DefineGmr2 { region, pages };
        assert_eq!(rt;
            tells(&mut display, &command),
            answer,
            "region {region} {pages}"
        );
    }
    for (region, offset, pages, page, answer) in [
        (1, 0, 3u16, 63, NOTHING),
        (1, 1, 1, 62, NOTHING),
        (1, 1, 3, 61, Err(Fault::RangeBeyond)),
        (1, 0, 1, 64, Err(Fault::BadPage)),
        (2, 0, 0, 63, Err(Fault::NoRegion)),
        (4096, 0, 0, 63, Err(Fault::RegionId)),
    ] {
        let command = remap(
            region,
            offset,
            u32::from(pages),
            EntriesRef::SinglePpn32(page),
        );
        assert_eq!(rt;
            tells(&mut display, &command),
            answer,
            "remap {region} {offset} {pages}"
        );
    }
    assert!(rt; has_pages(display.machine(), 1, &[63, 62, 63]));
    Ok(())
}

/// Both blits are refused alike.
#[test]
fn blits_that_are_refused(rt: HostRuntime) -> Result<(), Fail> {
    let mut display = with_screen(rt.alloc(), 4, 4)?;
    map(&mut display, 1, 1, &[4]);
    for (region, point, rect, screen, fault) in [
        (GMR_NULL, (0, 0), (0, 0, 1, 1), 0, Fault::NoGmrfb),
        (2, (0, 0), (0, 0, 1, 1), 0, Fault::NoRegion),
        (1, (0, 0), (0, 0, 1, 1), 1, Fault::NoScreen),
        (1, (0, 0), (0, 0, 1, 1), 16, Fault::ScreenId),
        (1, (0, 0), (1, 0, 0, 1), 0, Fault::NegativeSide),
        (1, (0, 0), (0, 1, 1, 0), 0, Fault::NegativeSide),
        (1, (0, 255), (0, 0, 1, 2), 0, Fault::BeyondRegion),
        (1, (-1, 0), (0, 0, 1, 1), 0, Fault::BeyondRegion),
    ] {
        let named = gmrfb(region, 0, 16, Format::Bgrx32);
        assert_eq!(rt; tells(&mut display, &named), NOTHING);
        let shown = to_screen(point, rect, screen);
        assert_eq!(rt;
            tells(&mut display, &shown),
            Err(fault),
            "{point:?} {rect:?}"
        );
        let back = to_gmrfb(point, rect, screen);
        assert_eq!(rt;
            tells(&mut display, &back),
            Err(fault),
            "{point:?} {rect:?}"
        );
    }
    assert!(rt; shows(&display, 0, (4, 4), &[]));
    Ok(())
}

/// A table page with these words at its front.
fn table(alloc: Global, words: &[u32]) -> Result<Page, AllocError>
    requires { 4 * length words.now ≤ 4096 }
{
    let mut page = Page::new(alloc)?;
    let bytes = page.bytes_mut();
    for (i, word) in words.iter().enumerate() {
        bytes[4 * i..4 * i + 4].copy_from_slice(&word.to_le_bytes());
    }
    Ok(page)
}

/// Reads a chain of two table pages, and tells which was wanted second.
fn read_chain(
    machine: &mut Machine,
    id: u32,
    first: u32,
    tables: (&Page, &Page),
) -> Result<Option<u32>, Fault>
    requires { first ≢ 0 }
{
    machine.chain_start(id, first)?;
    let ChainNext::Page(second) = machine.chain_page(tables.0)? else {
        return Ok(None);
    };
    let ChainNext::Whole = machine.chain_page(tables.1)? else {
        return Ok(None);
    };
    machine.chain_finish()?;
    Ok(Some(second))
}

/// A chain that goes on at a second table page.
#[test]
fn chain_of_two_tables(rt: HostRuntime) -> Result<(), Fail> {
    let alloc = rt.alloc();
    let mut machine = Machine::new(alloc, LIMITS)?;
    let five = table(alloc, &[10, 2, 7, 0])?;
    let seven = table(alloc, &[20, 1, 0, 0])?;
    assert_eq!(rt;
        read_chain(&mut machine, 7, 5, (&five, &seven)),
        Ok(Some(7))
    );
    assert!(rt; has_pages(&machine, 7, &[10, 11, 20]));
    assert_eq!(rt; machine.chain_start(4096, 5), Err(Fault::RegionId));
    assert_eq!(rt; machine.chain_start(7, 64), Err(Fault::BadPage));
    Ok(())
}
