//! The ring's arithmetic is that of the core. The function does nothing: its contract is the law.
ghost use Rattle.std.specs.Prelude.{◌≡◌, ℕ, ◌+◌, ◌-◌, ◌*◌, ◌/◌, ◌<◌};
ghost use Rattle.svga_cmd.specs.declared.session.Session.{Session};
ghost use Rattle.svga_ring.specs.Core.{Core, put_count};
ghost use Rattle.svga_ring.specs.Layouts.{IsLayout, Layout, ring_dwords, word_address, word_cell};
ghost use Rattle.svga_ring.specs.Plans.{IsPlan};
ghost use Rattle.svga_ring.specs.RingPieces.{MeansPlan, geometry_of, next_offset, stop_offset};
ghost use Rattle.svga_ring.specs.Rings.{IsOffset, IsRing, IsWhole, free_bytes, offset_behind, size_of};
ghost use Rattle.svga_ring.specs.Sound.{IsSoundOfWords};
ghost use Rattle.svga_ring.specs.Views.{opening_layout};
ghost use Rattle.svga_ring.specs.declared.plans.Planned.{Planned};

/// `plan`, `free` and `advance`, asked where the driver writes next and where by its last load of STOP the
/// first word stands that isn't taken, tell of the words that it puts next.
pub fn plans_are_of_the_core()
    // They may be asked so.
    ensures ring { (k : Session) (c : Core) → IsSoundOfWords k c → IsRing (geometry_of c.driver.layout)
        × IsOffset (geometry_of c.driver.layout) (next_offset c.driver)
        × IsOffset (geometry_of c.driver.layout) (stop_offset c.driver) }

    // A plan's pieces are the addresses and cells of the next words, each of which fits in its turn; or else
    // they don't fit.
    ensures plan { (k : Session) (c : Core) (bytes : ℕ) (planned : Planned) → IsSoundOfWords k c
        → IsWhole bytes → 0 < bytes
        → IsPlan (geometry_of c.driver.layout) (next_offset c.driver) (stop_offset c.driver) bytes planned
        → MeansPlan c.driver bytes planned }

    // What is free is the ring without the words that were put and aren't known to be taken.
    ensures free { (k : Session) (c : Core) → IsSoundOfWords k c
        → free_bytes (geometry_of c.driver.layout) (next_offset c.driver) (stop_offset c.driver)
        ≡ 4 * (ring_dwords c.driver.layout - (put_count c.driver - c.driver.stop)) }

    // The address of a word lies in the ring, and its cell is the dword there.
    ensures address { (lay : Layout) (n : ℕ) → IsLayout lay → IsOffset (geometry_of lay) (word_address lay n)
        × (word_cell lay n ≡ word_address lay n / 4) }
    ensures session { (k : Session) → IsLayout (opening_layout k) }

    // Behind so many bytes stands the word so many dwords later.
    ensures advance { (k : Session) (c : Core) (bytes : ℕ) → IsSoundOfWords k c → IsWhole bytes
        → bytes < size_of (geometry_of c.driver.layout)
        → offset_behind (geometry_of c.driver.layout) (next_offset c.driver) bytes
        ≡ word_address c.driver.layout (put_count c.driver + bytes / 4) }
{}
