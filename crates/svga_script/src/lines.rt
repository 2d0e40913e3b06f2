//! The lines of bytes.
ghost use Rattle.std.specs.Prelude.{◌≡◌, ◌≢◌, ℕ, ◌<◌, ◌≤◌, ◌∷◌, [], length, slice_index, IfSome, MatchOption};
ghost use Rattle.svga_script.specs.Left.{lines_left};

use svga_cmd::constants::MAX_INPUT_BYTES;

/// A line, without the line feed that ends it, and where the next one begins.
#[derive(Clone, Copy)]
pub(crate) struct Line<'a> {
    pub(crate) bytes: &'a [u8],
    pub(crate) next: usize,
}

/// The line that begins at an offset, if there are bytes.
pub(crate) fn line_at(bytes: &[u8], at: usize) -> Option<Line<'_>>
    requires { length bytes.now ≤ MAX_INPUT_BYTES }
    ensures short { IfSome result (λ l. length l.bytes.now ≤ length bytes.now) }
    ensures left { MatchOption
        result (lines_left bytes.now at ≡ [])
        (λ l. lines_left bytes.now at ≡ l.bytes.now ∷ lines_left bytes.now l.next) }
{
    if at >= bytes.len() {
        return None;
    }
    let end = line_end(bytes, at);
    Some(Line {
        bytes: &bytes[at..end],
        next: end + 1,
    })
}

/// Where the line that begins at an offset ends.
fn line_end(bytes: &[u8], at: usize) -> usize
    requires { at ≤ length bytes.now }
    ensures low { at ≤ result }
    ensures high { result ≤ length bytes.now }
    ensures bytes { (k : ℕ) → at ≤ k → k < result → slice_index bytes.now k ≢ 10 }
    ensures feed { result < length bytes.now → slice_index bytes.now result ≡ 10 }
{
    for i in at..bytes.len() {
        if bytes[i] == b'\n' {
            return i;
        }
    }
    bytes.len()
}
