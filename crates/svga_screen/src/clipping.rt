//! Clipping a rectangle to an area.
ghost use Rattle.std.specs.Prelude.{◌≡◌, ℕ, ◌+◌, ◌<◌, ◌≤◌, ◌^◌, ◌&&◌, pos, ◌+ℤ◌, ◌-ℤ◌, int_le, int_lt, nat_le, nat_lt, unsigned_abs};
ghost use Rattle.svga_screen.specs.Clips.{IsClip};

use crate::area::Area;
use svga_cmd::Rect;
use svga_cmd::constants::MAX_SCREEN_SIDE;

/// What a rectangle and an area with its left top corner at (`x`, `y`) share, in the area's own
/// coordinates. If they share no place every number is 0. The screen is for the caller to name.
pub fn clip(rect: Rect, x: i32, y: i32, width: u32, height: u32) -> Area
    requires width { width ≤ MAX_SCREEN_SIDE }
    requires height { height ≤ MAX_SCREEN_SIDE }
    ensures { IsClip rect x y width height result }
{
    let (left, wide) = side(rect.left, rect.right, x, width);
    let (top, high) = side(rect.top, rect.bottom, y, height);
    if wide == 0 {
        return NOTHING;
    }
    if high == 0 {
        return NOTHING;
    }
    Area {
        screen: 0,
        left,
        top,
        width: wide,
        height: high,
    }
}

const NOTHING: Area = Area {
    screen: 0,
    left: 0,
    top: 0,
    width: 0,
    height: 0,
};

/// The place so many steps behind a corner.
pub fn place(corner: i32, steps: u32) -> i64
    requires { steps ≤ MAX_SCREEN_SIDE }
    ensures value { result ≡ corner +ℤ pos steps }
    ensures near { unsigned_abs result ≤ 2 ^ 32 }
{
    i64::from(corner) + i64::from(steps)
}

/// The part of the places from `low` to below `high` among the `length` places that begin at `start`: the
/// first of them, counted from there, and how many there are.
fn side(low: i32, high: i32, start: i32, length: u32) -> (u32, u32)
    ensures within { result.0 + result.1 ≤ length }
    ensures same { (k : ℕ) → k < length → (int_le low (start +ℤ pos k) && int_lt (start +ℤ pos k) high)
        ≡ (nat_le result.0 k && nat_lt k (result.0 + result.1)) }
{
    let from = distance(start, low, length);
    let to = distance(start, high, length);
    (from, to.saturating_sub(from))
}

/// How far `place` is past `start`, but at least 0 and at most `length`.
fn distance(start: i32, place: i32, length: u32) -> u32
    ensures within { result ≤ length }
    ensures reached { (k : ℕ) → k < length → int_le place (start +ℤ pos k) ≡ nat_le result k }
{
    let past = difference(place, start);
    if past <= 0 {
        0
    } else {
        past.unsigned_abs().min(u64::from(length)) as u32
    }
}

fn difference(a: i32, b: i32) -> i64
    ensures { result ≡ a -ℤ b }
{
    i64::from(a) - i64::from(b)
}
