//! Texts of screens, pages and lines, each as it is to be read.
use crate::{Line, Render, ScriptCause, name_of_script_cause};
use std::alloc::{AllocError, Global};
use std::process::Abort;
use std::test::Fail;
use svga_cmd::{Page, PageKey, ScreenDef};
use svga_io::{MemSink, WriteFault};
use svga_screen::Screens;

fn def(id: u32, width: u32, height: u32, x: i32, y: i32) -> ScreenDef {
    ScreenDef {
        id,
        flags: 1,
        width,
        height,
        x,
        y,
        backing: None,
    }
}

fn sink_of(alloc: Global, capacity: usize) -> Result<MemSink, AllocError> {
    MemSink::new(alloc, capacity, Vec::new(alloc))
}

/// Paints the colours, which are to lie on the screen, and says whether they do.
fn paint(screens: &mut Screens, id: u32, x: u32, y: u32, colours: &[u32]) -> bool {
    let Some(def) = screens.def(id) else {
        return false;
    };
    if y >= def.height || x as usize + colours.len() > def.width as usize {
        return false;
    }
    if !colours.iter().all(|colour| *colour < 0x1000000) {
        return false;
    }
    screens.paint(id, x, y, colours);
    true
}

/// Writes the screens, and compares the text.
fn shows(rt: &(impl Abort + AllocGlobal), screens: &Screens, text: &str) -> Result<(), Fail> {
    let mut sink = sink_of(rt.alloc(), 4096)?;
    let mut render = Render::new(rt.alloc())?;
    assert_eq!(rt; render.screens(&mut sink, screens), Ok(()), "{text}");
    assert_eq!(rt; sink.bytes(), text.as_bytes(), "{text}");
    Ok(())
}

/// Writes the page, and compares the text.
fn lists(
    rt: &(impl Abort + AllocGlobal),
    key: PageKey,
    page: &Page,
    text: &str,
) -> Result<(), Fail> {
    let mut sink = sink_of(rt.alloc(), 4096)?;
    let mut render = Render::new(rt.alloc())?;
    assert_eq!(rt; render.page(&mut sink, key, page), Ok(()), "{text}");
    assert_eq!(rt; sink.bytes(), text.as_bytes(), "{text}");
    Ok(())
}

#[test]
fn no_screens(rt: HostRuntime) -> Result<(), Fail> {
    shows(&rt, &Screens::new(rt.alloc(), 1)?, "")
}

#[test]
fn a_black_row(rt: HostRuntime) -> Result<(), Fail> {
    let mut screens = Screens::new(rt.alloc(), 100)?;
    assert_eq!(rt; screens.define(&def(0, 4, 1, 0, 0)), Ok(()));
    shows(&rt, &screens, "screen 0 4 1 0 0\nrows 0 1 4*000000\n")
}

#[test]
fn a_red_pixel(rt: HostRuntime) -> Result<(), Fail> {
    let mut screens = Screens::new(rt.alloc(), 100)?;
    assert_eq!(rt; screens.define(&def(2, 2, 2, -5, 12)), Ok(()));
    assert!(rt; paint(&mut screens, 2, 1, 0, &[0xFF0000]));
    shows(
        &rt,
        &screens,
        "screen 2 2 2 -5 12\nrows 0 1 1*000000 1*ff0000\nrows 1 1 2*000000\n",
    )
}

/// Equal rows that are no neighbours are two groups, as equal pixels that are no neighbours are two
/// runs.
#[test]
fn equal_neighbours_are_grouped(rt: HostRuntime) -> Result<(), Fail> {
    let mut screens = Screens::new(rt.alloc(), 100)?;
    assert_eq!(rt; screens.define(&def(15, 3, 5, 0, 0)), Ok(()));
    assert!(rt; paint(&mut screens, 15, 1, 2, &[0x0789AB]));
    shows(
        &rt,
        &screens,
        "screen 15 3 5 0 0\nrows 0 2 3*000000\n\
         rows 2 1 1*000000 1*0789ab 1*000000\nrows 3 2 3*000000\n",
    )
}

/// Screens come by ascending id, in whatever order they were defined.
#[test]
fn screens_by_id(rt: HostRuntime) -> Result<(), Fail> {
    let mut screens = Screens::new(rt.alloc(), 100)?;
    assert_eq!(rt; screens.define(&def(7, 1, 1, 0, 0)), Ok(()));
    assert_eq!(rt; screens.define(&def(3, 2, 3, 0, 0)), Ok(()));
    shows(
        &rt,
        &screens,
        "screen 3 2 3 0 0\nrows 0 3 2*000000\nscreen 7 1 1 0 0\nrows 0 1 1*000000\n",
    )
}

#[test]
fn pages(rt: HostRuntime) -> Result<(), Fail> {
    let mut page = Page::new(rt.alloc())?;
    lists(&rt, PageKey::Guest(0), &page, "page p0\n0 4096 00\n")?;
    lists(&rt, PageKey::Frame(17), &page, "page f17\n0 4096 00\n")?;
    page.bytes_mut()[4093..].fill(0xAF);
    let text = "page p4294967295\n0 4093 00\n4093 3 af\n";
    lists(&rt, PageKey::Guest(0xFFFF_FFFF), &page, text)
}

#[test]
fn lines(rt: HostRuntime) -> Result<(), Fail> {
    let mut sink = sink_of(rt.alloc(), 4096)?;
    let mut render = Render::new(rt.alloc())?;
    for line in [
        Line::Commands { count: 12 },
        Line::FaultAt {
            command: 3,
            number: 7,
            name: "NoGmrfb",
        },
        Line::End,
        Line::CaptureByte {
            place: 40,
            cause: "Order",
        },
        Line::RefusedLine {
            line: 9,
            number: 8,
            name: "NoScreen",
            key: None,
        },
        Line::RefusedLine {
            line: 10,
            number: 22,
            name: "PageLent",
            key: Some(PageKey::Frame(3)),
        },
        Line::ScriptLine {
            line: 2,
            column: 7,
            cause: name_of_script_cause(ScriptCause::Extra),
        },
    ] {
        assert_eq!(rt; render.line(&mut sink, &line), Ok(()));
    }
    let text = "commands 12\nfault at command 3 7 NoGmrfb\nend\ncapture byte 40 Order\n\
        refused line 9 fault 8 NoScreen\nrefused line 10 fault 22 PageLent f3\n\
        script line 2 column 7 Extra\n";
    assert_eq!(rt; sink.bytes(), text.as_bytes());
    Ok(())
}

/// A sink that is full keeps a prefix, and the next text begins afresh.
#[test]
fn faults_leave_a_prefix(rt: HostRuntime) -> Result<(), Fail> {
    let mut screens = Screens::new(rt.alloc(), 100)?;
    assert_eq!(rt; screens.define(&def(0, 4, 1, 0, 0)), Ok(()));
    let mut render = Render::new(rt.alloc())?;
    let mut short = sink_of(rt.alloc(), 10)?;
    assert_eq!(rt; render.screens(&mut short, &screens), Err(WriteFault));
    assert_eq!(rt; short.bytes(), "screen 0 4".as_bytes());
    let mut sink = sink_of(rt.alloc(), 64)?;
    let page = Page::new(rt.alloc())?;
    assert_eq!(rt; render.page(&mut sink, PageKey::Frame(1), &page), Ok(()));
    assert_eq!(rt; sink.bytes(), "page f1\n0 4096 00\n".as_bytes());
    Ok(())
}
