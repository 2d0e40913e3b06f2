// Worked spellings, the ends of the limits, and that memory is found where there is some.
ghost use Rattle.std.specs.Prelude.{◌≡◌};
ghost use Rattle.svga_cmd.specs.Pages.{HasPage};
ghost use Rattle.svga_cmd.specs.WellFormed.{IsShortCommand, IsWellFormed};
ghost use Rattle.svga_cmd.specs.declared.page.PageKey.{PageKey};

use crate::{
    Backing, Blit, Command, Fault, Format, Gmrfb, GuestPtr, Limits, MemPages, Page, PageKey,
    PageList, PageStore, Point, Rect, RemapData, ScreenDef, Session, Way, encode_short, word_at,
    word_count,
};
use std::process::Abort;
use std::test::Fail;

fn spells(rt: &impl Abort, command: &Command, expected: &[u32])
    requires { IsWellFormed command.now }
{
    assert_eq!(rt; word_count(command) as usize, expected.len());
    for (i, word) in expected.iter().enumerate() {
        let count = word_count(command) as usize;
        if i < count {
            assert_eq!(rt;
                word_at(command, i as u32),
                *word,
                "word {i} of {command:?}"
            );
        }
    }
}

fn encodes(rt: &impl Abort, command: &Command, expected: &[u32])
    requires well_formed { IsWellFormed command.now }
    requires short { IsShortCommand command.now }
{
    assert_eq!(rt; encode_short(command).as_slice(), expected);
    spells(rt, command, expected);
}

fn screen(backing: Option<Backing>) -> ScreenDef {
    ScreenDef {
        id: 3,
        flags: 5,
        width: 640,
        height: 480,
        x: -2,
        y: 7,
        backing,
    }
}

#[test]
fn commands_without_entries(rt: HostRuntime) {
    encodes(
        &rt,
        &Command::Update {
            x: 1,
            y: 2,
            width: 3,
            height: 4,
        },
        &[1, 1, 2, 3, 4],
    );
    encodes(&rt, &Command::Fence { value: 7 }, &[30, 7]);
    encodes(&rt, &Command::DestroyScreen { id: 15 }, &[35, 15]);
    encodes(
        &rt,
        &Command::DefineGmrfb(Gmrfb {
            region: 1,
            offset: 4095,
            pitch: 2560,
            format: Format::Rgb555,
        }),
        &[36, 1, 4095, 2560, 0x0F10],
    );
    encodes(
        &rt,
        &Command::DefineGmr2 {
            region: 9,
            pages: 300,
        },
        &[41, 9, 300],
    );
    assert_eq!(rt; Format::Bgrx32.word(), 0x1820);
    assert_eq!(rt; Format::Bgr24.word(), 0x1818);
    assert_eq!(rt; Format::Rgb565.word(), 0x1010);
}

#[test]
fn screens_of_both_sizes(rt: HostRuntime) {
    let plain = [34, 28, 3, 5, 640, 480, 0xFFFF_FFFE, 7];
    encodes(&rt, &Command::DefineScreen(screen(None)), &plain);
    let backed = [34, 44, 3, 5, 640, 480, 0xFFFF_FFFE, 7, 11, 12, 13, 14];
    encodes(
        &rt,
        &Command::DefineScreen(screen(Some(Backing {
            region: 11,
            offset: 12,
            pitch: 13,
            clones: 14,
        }))),
        &backed,
    );
}

#[test]
fn blits_with_signed_numbers(rt: HostRuntime) {
    let blit = Blit {
        point: Point { x: -1, y: 2 },
        rect: Rect {
            left: -2147483648,
            top: 4,
            right: 5,
            bottom: 2147483647,
        },
        screen: 0xFFFF_FFFF,
    };
    let words = [0xFFFF_FFFF, 2, 0x8000_0000, 4, 5, 0x7FFF_FFFF, 0xFFFF_FFFF];
    let [x, y, left, top, right, bottom, screen] = words;
    encodes(
        &rt,
        &Command::BlitToScreen(blit),
        &[37, x, y, left, top, right, bottom, screen],
    );
    encodes(
        &rt,
        &Command::BlitToGmrfb(blit),
        &[38, x, y, left, top, right, bottom, screen],
    );
}

fn remap(pages: u32, entries: RemapData) -> Command
    ensures { result ≡ Command.RemapGmr2 1 8 pages entries }
{
    Command::RemapGmr2 {
        region: 1,
        offset: 8,
        pages,
        entries,
    }
}

#[test]
fn remaps_of_each_flag_word(rt: HostRuntime) -> Result<(), Fail> {
    let alloc = rt.alloc();
    let listed = remap(2, RemapData::Ppn32(PageList::new([10, 11].to_vec(alloc)?)));
    spells(&rt, &listed, &[42, 1, 0, 8, 2, 10, 11]);
    let none = remap(0, RemapData::Ppn32(PageList::new(Vec::new(alloc))));
    spells(&rt, &none, &[42, 1, 0, 8, 0]);
    let wide = remap(
        2,
        RemapData::Ppn64(PageList::new([10, 0, 11, 1].to_vec(alloc)?)),
    );
    spells(&rt, &wide, &[42, 1, 2, 8, 2, 10, 0, 11, 1]);

    // The single entry is there also for no page.
    encodes(
        &rt,
        &remap(0, RemapData::SinglePpn32(6)),
        &[42, 1, 4, 8, 0, 6],
    );
    let single = RemapData::SinglePpn64 { low: 6, high: 1 };
    encodes(&rt, &remap(3, single), &[42, 1, 6, 8, 3, 6, 1]);
    let pointer = GuestPtr {
        region: 2,
        offset: 64,
    };
    encodes(
        &rt,
        &remap(3, RemapData::ViaGmr32(pointer)),
        &[42, 1, 1, 8, 3, 2, 64],
    );
    encodes(
        &rt,
        &remap(3, RemapData::ViaGmr64(pointer)),
        &[42, 1, 3, 8, 3, 2, 64],
    );
    Ok(())
}

#[test]
fn pages_limits_and_faults(rt: HostRuntime) -> Result<(), Fail> {
    let mut page = Page::new(rt.alloc())?;
    page.bytes_mut()[4095] = 9;
    assert_eq!(rt; page.bytes()[0], 0);
    assert_eq!(rt; page.bytes()[4095], 9);
    let limits = Limits {
        pages: 1,
        gfb_width: 33,
        gfb_height: 32,
        budget: 1,
    };
    assert_eq!(rt; limits.frame_pages(), 2);
    assert_eq!(rt; Fault::NoRegion.number(), 1);
    assert_eq!(rt; Fault::ChainLimit.number(), 15);
    Ok(())
}

const SMALLEST: Limits = Limits {
    pages: 1,
    gfb_width: 1,
    gfb_height: 1,
    budget: 1,
};

#[test]
fn rings_and_first_fences(rt: HostRuntime) {
    for (ring, first, opens) in [
        (11400, 1, false),
        (11403, 1, false),
        (11404, 1, true),
        (11405, 1, false),
        (11406, 1, false),
        (11408, 1, true),
        (262140, 1, true),
        (262144, 1, true),
        (262148, 1, false),
        (0, 1, false),
        (11404, 0, false),
        (11404, 4294967295, true),
    ] {
        let session = Session::new(ring, SMALLEST, first, Way::Dword);
        assert_eq!(rt; session.is_some(), opens, "ring {ring}, first {first}");
    }
    let session = Session::new(65536, SMALLEST, 7, Way::Reserve);
    let fields = session.map(|s| (s.ring, s.limits, s.first, s.way));
    assert_eq!(rt; fields, Some((65536, SMALLEST, 7, Way::Reserve)));
}

#[test]
fn limits_of_devices(rt: HostRuntime) {
    for (pages, gfb_width, gfb_height, budget, opens) in [
        (1, 1, 1, 1, true),
        (16384, 4096, 2048, 33554432, true),
        (0, 4096, 2048, 33554432, false),
        (16385, 4096, 2048, 33554432, false),
        (16384, 0, 2048, 33554432, false),
        (16384, 4097, 2048, 33554432, false),
        (16384, 4096, 0, 33554432, false),
        (16384, 4096, 2049, 33554432, false),
        (16384, 4096, 2048, 0, false),
        (16384, 4096, 2048, 33554433, false),
    ] {
        let limits = Limits {
            pages,
            gfb_width,
            gfb_height,
            budget,
        };
        let session = Session::new(11404, limits, 1, Way::Reserve);
        assert_eq!(rt; session.is_some(), opens, "{limits:?}");
    }
}

fn last_byte<P: PageStore>(store: &P, key: PageKey) -> u8
    requires { HasPage (P.pages store.now) key }
{
    store.page(key).bytes()[4095]
}

fn set_last_byte<P: PageStore>(store: &mut P, key: PageKey, byte: u8)
    requires { HasPage (P.pages store.old) key }
    ensures { (q : PageKey) → HasPage (P.pages store.old) q → HasPage (P.pages store.new) q }
{
    let bytes = store.page_mut(key).bytes_mut();
    bytes[4095] = byte;
}

#[test]
fn pages_in_memory(rt: HostRuntime) -> Result<(), Fail> {
    // 33 times 32 pixels are one page and a part of another.
    let limits = Limits {
        pages: 2,
        gfb_width: 33,
        gfb_height: 32,
        budget: 1,
    };
    let mut store = MemPages::new(rt.alloc(), limits)?;
    assert_eq!(rt; last_byte(&store, PageKey::Guest(0)), 0);
    assert_eq!(rt; last_byte(&store, PageKey::Frame(1)), 0);
    set_last_byte(&mut store, PageKey::Guest(1), 5);
    set_last_byte(&mut store, PageKey::Frame(0), 6);
    assert_eq!(rt; last_byte(&store, PageKey::Guest(0)), 0);
    assert_eq!(rt; last_byte(&store, PageKey::Guest(1)), 5);
    assert_eq!(rt; last_byte(&store, PageKey::Frame(0)), 6);
    assert_eq!(rt; last_byte(&store, PageKey::Frame(1)), 0);
    Ok(())
}
