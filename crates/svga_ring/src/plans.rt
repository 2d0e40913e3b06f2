//! How a command's words go into the ring: in place, in two pieces, or not yet.
ghost use Rattle.std.specs.Prelude.{◌≡◌, ℕ, ◌+◌, ◌-◌, ◌*◌, ◌/◌, ◌<◌, ◌≤◌};
ghost use Rattle.svga_ring.specs.Plans.{IsPlan, HasPieces};
ghost use Rattle.svga_ring.specs.Rings.{IsRing, IsOffset, IsWhole, AreCounts, dwords_of, size_of, address_in, free_bytes, offset_behind};

/// The ring: the bytes of the FIFO from offset `min` to below offset `max`.
#[derive(Clone, Copy, Debug, PartialEq, Eq)]
pub struct Geometry {
    pub min: u32,
    pub max: u32,
}

/// Where so many bytes can be written.
#[derive(Clone, Copy, Debug, PartialEq, Eq)]
pub enum Planned {
    /// All of them at `next`.
    InPlace,
    /// The first so many at `next`, up to the ring's end, and the rest from the ring's start on.
    Bounce { first: u32 },
    /// Nowhere until words are taken. So many bytes are free now, and one dword of them always stays so.
    NoRoom { free: u32 },
    /// Nowhere, however empty the ring is.
    TooLarge,
}

/// How many bytes from `next` on are free, where the words from `stop` to `next` are not yet taken.
pub fn free(geometry: Geometry, next: u32, stop: u32) -> u32
    requires ring { IsRing geometry }
    requires next { IsOffset geometry next }
    requires stop { IsOffset geometry stop }
    ensures bytes { result ≡ free_bytes geometry next stop }

    // In counts of words: the ring without those that were sent and not taken.
    ensures dwords { (sent taken : ℕ) → AreCounts geometry next stop sent taken
        → result ≡ 4 * (dwords_of geometry - (sent - taken)) }
{
    if next >= stop {
        (geometry.max - next) + (stop - geometry.min)
    } else {
        stop - next
    }
}

/// How a command of so many bytes is to be written at `next`, where the words from `stop` on are not yet
/// taken.
pub fn plan(geometry: Geometry, next: u32, stop: u32, bytes: u32) -> Planned
    requires ring { IsRing geometry }
    requires next { IsOffset geometry next }
    requires stop { IsOffset geometry stop }
    requires bytes { IsWhole bytes }
    requires some { 0 < bytes }
    ensures plan { IsPlan geometry next stop bytes result }

    // In counts of words: the pieces are the addresses of the next words, and they do not reach what is not
    // taken.
    ensures pieces { (sent taken : ℕ) → AreCounts geometry next stop sent taken
        → HasPieces geometry next bytes sent taken result }
{
    if bytes >= geometry.max - geometry.min {
        return Planned::TooLarge;
    }
    let free = free(geometry, next, stop);
    if bytes >= free {
        Planned::NoRoom { free }
    } else if next + bytes > geometry.max {
        Planned::Bounce {
            first: geometry.max - next,
        }
    } else {
        Planned::InPlace
    }
}

/// The offset behind so many bytes from `next` on. It is never `max`, which is the ring's start again.
pub fn advance(geometry: Geometry, next: u32, bytes: u32) -> u32
    requires ring { IsRing geometry }
    requires next { IsOffset geometry next }
    requires bytes { IsWhole bytes }
    requires fits { bytes < size_of geometry }
    ensures bytes { result ≡ offset_behind geometry next bytes }
    ensures offset { IsOffset geometry result }

    // In counts of words: from the address of a word, that of the word so many dwords later.
    ensures address { (n : ℕ) → next ≡ address_in geometry n → result ≡ address_in geometry (n + bytes / 4) }
{
    let end = next + bytes;
    if end >= geometry.max {
        end - (geometry.max - geometry.min)
    } else {
        end
    }
}
