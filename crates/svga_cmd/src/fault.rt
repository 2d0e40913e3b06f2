//! The faults with which a command or a descriptor chain is refused.
ghost use Rattle.std.specs.Prelude.{◌≡◌};
ghost use Rattle.svga_cmd.specs.Fault.{number_of};

/// Why a command or a chain is refused. The order is that of the numbers:
/// where several stand, the first is told.
#[derive(Clone, Copy, Debug, PartialEq, Eq, PartialOrd, Ord)]
pub enum Fault {
    NoRegion,
    RegionId,
    PlaceLimit,
    RangeBeyond,
    Unmapped,
    BadPage,
    NoGmrfb,
    NoScreen,
    ScreenId,
    ScreenSize,
    PixelBudget,
    NegativeSide,
    BeyondRegion,
    ChainEnd,
    ChainLimit,
}

impl Fault {
    /// The fault's number, from 1.
    pub fn number(self) -> u32
        ensures { result ≡ number_of self }
    {
        self as u32 + 1
    }
}
