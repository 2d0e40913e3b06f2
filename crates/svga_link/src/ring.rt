//! The ring of a session, and the offsets in it.
ghost use Rattle.std.specs.Prelude.{◌≡◌, ℕ, ◌+◌};
ghost use Rattle.svga_ring.specs.Layouts.{word_address};
ghost use Rattle.svga_ring.specs.RingPieces.{geometry_of};
ghost use Rattle.svga_ring.specs.Views.{opening_layout};

use svga_cmd::Session;
use svga_cmd::constants::RING_START;
use svga_ring::{Geometry, advance};

pub(crate) fn ring_of(session: &Session) -> Geometry
    ensures { result ≡ geometry_of (opening_layout session.now) }
{
    Geometry {
        min: RING_START,
        max: session.ring,
    }
}

/// The offset of the word behind the one at this offset.
pub(crate) fn word_behind(session: &Session, offset: u32) -> u32
    requires { (n : ℕ) × (offset ≡ word_address (opening_layout session.now) n) }
    ensures { (n : ℕ) → offset ≡ word_address (opening_layout session.now) n
        → result ≡ word_address (opening_layout session.now) (n + 1) }
{
    advance(ring_of(session), offset, 4)
}
