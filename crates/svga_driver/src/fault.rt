//! Why a driver's call is refused, and what some calls give.
use svga_cmd::{Fault, PageKey};

/// A fence that was committed.
#[derive(Clone, Copy, Debug, PartialEq, Eq)]
pub struct Fence {
    /// Its number, which FENCE shows once the commands ahead of it are done.
    pub number: u32,
}

/// A request that was posted.
#[derive(Clone, Copy, Debug, PartialEq, Eq)]
pub struct Posted {
    /// Its number, which the reply word shows once it is answered.
    pub request: u32,
}

/// Why a call is refused. What it would have done isn't done; values that it loaded are kept.
#[derive(Clone, Copy, Debug, PartialEq, Eq)]
pub enum DriverFault {
    /// So many bytes are free by the STOP loaded in this call, and they aren't enough.
    NoRoom { stop: u32, free: u32 },
    /// The command or the chain has this fault.
    Refused(Fault),
    /// The first page that it touches and that is with the client.
    PageOut(PageKey),
    /// The page is lent,
    PageLent(PageKey),
    /// or it isn't.
    NotLent(PageKey),
    /// No fence was committed behind the last command that touches the page.
    NoFence(PageKey),
    /// The fence with this number, the first one behind that command, hasn't passed by the FENCE loaded in
    /// this call.
    NotYet { key: PageKey, fence: u32 },
    /// 65,536 fences aren't seen yet.
    FenceWindow,
    /// The STOP loaded in this call isn't NEXT_CMD.
    Busy { stop: u32, next: u32 },
    /// A request is out, and the reply loaded in this call isn't its number.
    Asked { request: u32, reply: u32 },
    /// There is no such page, or the bytes go past its end.
    PageRange(PageKey),
}
