//! What a driver's calls come to.
ghost use Rattle.std.specs.Prelude.{◌≡◌};
ghost use Rattle.svga_pair.specs.Answering.{answer_of, answer_to, refused_by};

use svga_cmd::PageKey;
use svga_driver::DriverFault;

// The numbers by which the faults are told that aren't a command's.
const PAGE_OUT: u32 = 21;

const PAGE_LENT: u32 = 22;

const NOT_LENT: u32 = 23;

const NO_FENCE: u32 = 24;

const PAGE_RANGE: u32 = 25;

/// What a call that is done tells.
#[derive(Clone, Copy, Debug, PartialEq, Eq)]
pub(crate) enum Told {
    Nothing,
    /// The number of a fence.
    Fence(u32),
    /// A page, which is with the driver.
    Page(PageKey),
}

/// Why a call is refused: the number of the fault, and the page that is told with it.
#[derive(Clone, Copy, Debug, PartialEq, Eq)]
pub(crate) struct Refused {
    pub(crate) number: u32,
    pub(crate) key: Option<PageKey>,
}

/// What becomes of a call.
#[derive(Clone, Copy, Debug, PartialEq, Eq)]
pub(crate) enum Answer {
    Done(Told),
    Refused(Refused),
    /// It can be done later.
    Again,
    /// It can be done once more fences are seen.
    Unseen,
}

/// What becomes of a call that answers this fault.
pub(crate) fn fault_answer(fault: DriverFault) -> Answer
    ensures { result ≡ answer_of fault }
{
    match fault {
        DriverFault::NoRoom { stop: _, free: _ } => Answer::Again,
        DriverFault::Refused(fault) => refuse(fault.number(), None),
        DriverFault::PageOut(key) => refuse(PAGE_OUT, Some(key)),
        DriverFault::PageLent(key) => refuse(PAGE_LENT, Some(key)),
        DriverFault::NotLent(key) => refuse(NOT_LENT, Some(key)),
        DriverFault::NoFence(key) => refuse(NO_FENCE, Some(key)),
        DriverFault::NotYet { key: _, fence: _ } => Answer::Again,
        DriverFault::FenceWindow => Answer::Unseen,
        DriverFault::Busy { stop: _, next: _ } => Answer::Again,
        DriverFault::Asked {
            request: _,
            reply: _,
        } => Answer::Again,
        DriverFault::PageRange(key) => refuse(PAGE_RANGE, Some(key)),
    }
}

/// What becomes of a call that tells nothing.
pub(crate) fn call_answer(done: Result<(), DriverFault>) -> Answer
    ensures { result ≡ answer_to done }
{
    match done {
        Ok(()) => Answer::Done(Told::Nothing),
        Err(fault) => fault_answer(fault),
    }
}

fn refuse(number: u32, key: Option<PageKey>) -> Answer
    ensures { result ≡ refused_by number key }
{
    Answer::Refused(Refused { number, key })
}
