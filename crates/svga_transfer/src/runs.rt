//! Runs of a blit's pixels: along a row, as far as one screen is the first to show them.
ghost use Rattle.std.specs.Prelude.{◌≡◌, ◌+◌, ◌≤◌, ◌^◌, ◌&&◌, IfSome, IfNone, unsigned_abs, pos, ◌+ℤ◌, ◌≤ℤ◌, ◌<ℤ◌, int_lt};
ghost use Rattle.svga_model.specs.Screens.{definitions_of};
ghost use Rattle.svga_transfer.specs.Runs.{AreBare, IsBare, IsNextRun};
ghost use Rattle.svga_transfer.specs.Stretches.{AreBareOf, HasNoColumn, HasNoRow, IsNextOf, IsShort, IsSteps, IsStretch, column_of, is_row, site_of};

use crate::meant::{corner_of, is_meant};
use svga_cmd::{Blit, Rect};
use svga_screen::{Screens, place};

/// Pixels beside one another in a row of a blit that one screen is the first to show, by its id.
#[derive(Clone, Copy, Debug, PartialEq, Eq)]
pub(crate) struct Run {
    /// The column of the first of them, in the blit's coordinates, and how many there are.
    pub(crate) from: i64,
    pub(crate) length: u32,
    /// The screen, and the place of the first of them there.
    pub(crate) screen: u32,
    pub(crate) x: u32,
    pub(crate) y: u32,
}

/// Where a screen lies, in the blit's coordinates.
#[derive(Clone, Copy, Debug, PartialEq, Eq)]
struct Site {
    x: i32,
    y: i32,
    width: u32,
    height: u32,
}

/// The first row from row `y` on where a screen may show a pixel of the blit. Rows before it show none.
pub(crate) fn next_row(screens: &Screens, blit: &Blit, y: i64) -> Option<i64>
    requires { unsigned_abs y ≤ 2 ^ 32 }
    ensures found { IfSome result (λ row. (y ≤ℤ row) × (row <ℤ blit.now.rect.bottom)
        × AreBare (definitions_of screens.now.screens) blit.now y row) }
    ensures none { IfNone result (AreBare (definitions_of screens.now.screens) blit.now y
        blit.now.rect.bottom) }
{
    let bottom = i64::from(blit.rect.bottom);
    let mut row = bottom;
    for id in 0..16 {
        row = row.min(first_row(screens, blit, id, y));
    }
    if row < bottom { Some(row) } else { None }
}

/// The first row from row `y` on where screen `id` may show a pixel of the blit, or the blit's bottom if
/// there is none.
fn first_row(screens: &Screens, blit: &Blit, id: u32, y: i64) -> i64
    requires { unsigned_abs y ≤ 2 ^ 32 }
    ensures from { result <ℤ blit.now.rect.bottom → y ≤ℤ result }
    ensures bare { AreBareOf (definitions_of screens.now.screens) blit.now id (id + 1) y result }
{
    let bottom = i64::from(blit.rect.bottom);
    let Some(site) = meant_site(screens, blit, id) else {
        return bottom;
    };
    if has_columns(site, blit.rect) {
        first_row_at(site, y, bottom)
    } else {
        bottom
    }
}

/// The first row of a screen that lies here from row `y` on, or the row `end` if it has none.
fn first_row_at(site: Site, y: i64, end: i64) -> i64
    requires { IsShort site }
    ensures from { result <ℤ end → y ≤ℤ result }
    ensures bare { HasNoRow site y result }
{
    if y < place(site.y, site.height) {
        y.max(i64::from(site.y))
    } else {
        end
    }
}

/// The next run of row `y` at or behind column `x`.
pub(crate) fn next_run(screens: &Screens, blit: &Blit, x: i64, y: i64) -> Option<Run>
    requires x { blit.now.rect.left ≤ℤ x }
    requires near_x { unsigned_abs x ≤ 2 ^ 32 }
    requires near_y { unsigned_abs y ≤ 2 ^ 32 }
    ensures found { IfSome result (IsNextRun (definitions_of screens.now.screens) blit.now x y) }
    ensures none { IfNone result (IsBare (definitions_of screens.now.screens) blit.now y x
        blit.now.rect.right) }
{
    let mut next = None;
    for id in 0..16 {
        next = with_screen(next, screens, blit, id, x, y);
    }
    next
}

/// The next run of the screens up to screen `id`, where `next` is that of those before it.
fn with_screen(
    next: Option<Run>,
    screens: &Screens,
    blit: &Blit,
    id: u32,
    x: i64,
    y: i64,
) -> Option<Run>
    requires near_x { unsigned_abs x ≤ 2 ^ 32 }
    requires near_y { unsigned_abs y ≤ 2 ^ 32 }
    requires next { IsNextOf (definitions_of screens.now.screens) blit.now 0 id x blit.now.rect.right y next }
    ensures { IsNextOf (definitions_of screens.now.screens) blit.now 0
        (id + 1) x blit.now.rect.right y result }
{
    let end = next_column(next, blit.rect.right);
    stretch(screens, blit, id, x, end, y).or(next)
}

/// Where the next run begins, or the blit's right side if there is none.
fn next_column(next: Option<Run>, right: i32) -> i64
    ensures { result ≡ column_of next right }
{
    match next {
        Some(run) => run.from,
        None => i64::from(right),
    }
}

/// What screen `id` shows of row `y` from column `x` to below column `end`.
fn stretch(screens: &Screens, blit: &Blit, id: u32, x: i64, end: i64, y: i64) -> Option<Run>
    requires near_x { unsigned_abs x ≤ 2 ^ 32 }
    requires near_end { unsigned_abs end ≤ 2 ^ 32 }
    requires near_y { unsigned_abs y ≤ 2 ^ 32 }
    ensures { IsNextOf (definitions_of screens.now.screens) blit.now id (id + 1) x end y result }
{
    let site = meant_site(screens, blit, id)?;
    if has_row(site, y) {
        stretch_at(site, id, x, end, y)
    } else {
        None
    }
}

/// The same of a screen that lies here and has the row.
fn stretch_at(site: Site, id: u32, x: i64, end: i64, y: i64) -> Option<Run>
    requires short { IsShort site }
    requires near_x { unsigned_abs x ≤ 2 ^ 32 }
    requires near_end { unsigned_abs end ≤ 2 ^ 32 }
    requires near_y { unsigned_abs y ≤ 2 ^ 32 }
    requires row { (site.y ≤ℤ y) × (y <ℤ (site.y +ℤ pos site.height)) }
    ensures some { IfSome result (IsStretch site id x end y) }
    ensures none { IfNone result (HasNoColumn site x end) }
{
    let left = steps(site.x, site.width, x);
    let right = steps(site.x, site.width, end);
    if left < right {
        Some(Run {
            from: place(site.x, left),
            length: right - left,
            screen: id,
            x: left,
            y: steps(site.y, site.height, y),
        })
    } else {
        None
    }
}

/// How far `place` is behind `start`, but at least 0 and at most `length`.
fn steps(start: i32, length: u32, place: i64) -> u32
    requires near { unsigned_abs place ≤ 2 ^ 32 }
    ensures { IsSteps start length place result }
{
    (place - i64::from(start)).clamp(0, i64::from(length)) as u32
}

/// Where screen `id` lies, if it is defined and meant.
fn meant_site(screens: &Screens, blit: &Blit, id: u32) -> Option<Site>
    ensures place { result ≡ site_of (definitions_of screens.now.screens id) blit.now.screen id }
    ensures short { IfSome result IsShort }
{
    let def = screens.def(id)?;
    if !is_meant(blit, id) {
        return None;
    }
    let corner = corner_of(blit, def);
    Some(Site {
        x: corner.x,
        y: corner.y,
        width: def.width,
        height: def.height,
    })
}

/// Whether the screen has a column of the rectangle.
fn has_columns(site: Site, rect: Rect) -> bool
    requires { IsShort site }
    ensures { result ≡ (int_lt site.x rect.right && int_lt rect.left (site.x +ℤ pos site.width)) }
{
    site.x < rect.right && i64::from(rect.left) < place(site.x, site.width)
}

/// Whether the screen has row `y`.
fn has_row(site: Site, y: i64) -> bool
    requires { IsShort site }
    ensures { result ≡ is_row site y }
{
    i64::from(site.y) <= y && y < place(site.y, site.height)
}
