//! With what a driver and a device open.
ghost use Rattle.std.specs.Prelude.{◌≡◌, ◌↔◌, IsSome, IfSome, IsTrue};
ghost use Rattle.svga_cmd.specs.Sessions.{IsSession};

use crate::constants::{MAX_FENCE, MAX_RING_END, MIN_FIRST_FENCE, MIN_RING_END};
use crate::limits::{Limits, is_between};

/// How the driver writes a command to the ring.
#[derive(Clone, Copy, Debug, PartialEq, Eq)]
pub enum Way {
    /// By a reservation: all words, and then NEXT_CMD once.
    Reserve,
    /// Word by word, with NEXT_CMD behind each.
    Dword,
}

/// The numbers of a session, all of them within their limits.
#[derive(Clone, Copy, Debug, PartialEq, Eq)]
pub struct Session {
    /// MAX, the byte at which the ring ends: a multiple of 4 from 11,404 to 262,144.
    pub ring: u32,
    pub limits: Limits,
    /// The number of the first fence, from 1 on.
    pub first: u32,
    pub way: Way,
    pub ghost within: { IsSession ring limits first },
}

impl Session {
    /// The session of these numbers. It is `None` exactly where one of them is outside its limits,
    /// or `ring` is no multiple of 4.
    pub fn new(ring: u32, limits: Limits, first: u32, way: Way) -> Option<Session>
        ensures some { IsSome result ↔ IsSession ring limits first }
        ensures ring { IfSome result (λ session. session.ring ≡ ring) }
        ensures limits { IfSome result (λ session. session.limits ≡ limits) }
        ensures first { IfSome result (λ session. session.first ≡ first) }
        ensures way { IfSome result (λ session. session.way ≡ way) }
    {
        if is_session(ring, limits, first) {
            Some(Session {
                ring,
                limits,
                first,
                way,
            })
        } else {
            None
        }
    }
}

fn is_session(ring: u32, limits: Limits, first: u32) -> bool
    ensures { IsTrue result ↔ IsSession ring limits first }
{
    is_between(MIN_RING_END, MAX_RING_END, ring)
        && ring % 4 == 0
        && limits.are_allowed()
        && is_between(MIN_FIRST_FENCE, MAX_FENCE, first)
}
