//! What a reservation is, why one is refused, and how it begins on the table.
ghost use Rattle.std.specs.Prelude.{◌≡◌, ◌<◌, []};
ghost use Rattle.svga_cmd.specs.declared.session.Way.TheVariants.{Dword};
ghost use Rattle.svga_link.specs.ReserveAnswers.{SeatAnswers};
ghost use Rattle.svga_link.specs.Reserving.{IsAligned, in_place_by, reserving};
ghost use Rattle.svga_ring.specs.RingPieces.{geometry_of};
ghost use Rattle.svga_ring.specs.Rings.{size_of};

use crate::driver_seat::DriverSeat;
use svga_cmd::Way;
use svga_ring::{Planned, plan};

/// A reservation that is begun.
#[derive(Clone, Copy, Debug, PartialEq, Eq)]
pub struct Reserved {
    pub bytes: u32,
    /// NEXT_CMD, at which its first word will stand.
    pub at: u32,
    /// How many bytes stand from there on before the ring's end; any others follow from the ring's start.
    pub first: u32,
}

/// Why a reservation was refused. It was not begun.
#[derive(Clone, Copy, Debug, PartialEq, Eq)]
pub enum ReserveFault {
    /// It has as many bytes as the ring, or more.
    TooLarge,
    /// It has no bytes, or no whole number of words.
    Unaligned,
    /// Another one is begun.
    Reserving,
    /// By the STOP loaded in this call only so many bytes are free, one word of which stays so.
    NoRoom { stop: u32, free: u32 },
}

// Stores RESERVED, by reservations.
fn begin_on(seat: &mut DriverSeat, bytes: u32)
    requires none_pending { seat.old.view.pending ≡ [] }
    requires none_reserved { seat.old.view.terms.way ≡ Dword → seat.old.view.reserved ≡ 0 }
    ensures { seat.new ≡ record seat.old { view = reserving seat.old.view bytes } }
{
    match seat.way() {
        Way::Reserve => seat.store_reserved(bytes),
        Way::Dword => {}
    }
}

/// Whether words that fit before the ring's end are put in place: by reservations.
pub(crate) fn is_in_place(way: Way, fits: bool) -> bool
    ensures { result ≡ in_place_by way fits }
{
    match way {
        Way::Reserve => fits,
        Way::Dword => false,
    }
}

/// Loads STOP, and begins a reservation on the table if there is room by it.
pub(crate) fn reserve_on(seat: &mut DriverSeat, bytes: u32) -> Result<Reserved, ReserveFault>
    requires small { bytes < size_of (geometry_of seat.old.view.layout) }
    requires aligned { IsAligned bytes }
    requires none_pending { seat.old.view.pending ≡ [] }
    requires none_reserved { seat.old.view.terms.way ≡ Dword → seat.old.view.reserved ≡ 0 }
    ensures left { seat.new ≡ record seat.old { view = seat.new.view } }
    ensures answers { SeatAnswers seat.old.view bytes result seat.new.view }
{
    let stop = seat.load_stop();
    seat.facts();
    let at = seat.next();
    match plan(seat.geometry(), at, stop, bytes) {
        Planned::TooLarge => unreachable!(),
        Planned::NoRoom { free } => Err(ReserveFault::NoRoom { stop, free }),
        Planned::InPlace => {
            begin_on(seat, bytes);
            Ok(Reserved {
                bytes,
                at,
                first: bytes,
            })
        }
        Planned::Bounce { first } => {
            begin_on(seat, bytes);
            Ok(Reserved { bytes, at, first })
        }
    }
}
