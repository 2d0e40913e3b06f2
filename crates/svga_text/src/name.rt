//! Names as texts have them.
ghost use Rattle.std.specs.Prelude.{◌≡◌};
ghost use Rattle.svga_cmd.specs.Lent.{entries_of};
ghost use Rattle.svga_text.specs.Names.{capture_cause_name, cause_name, fault_name, format_name, kind_name};

use svga_cmd::{CaptureCause, Cause, EntriesRef, Fault, Format};

pub(crate) fn name_of_format(format: Format) -> &'static str
    ensures { result.now ≡ format_name format }
{
    match format {
        Format::Bgrx32 => "32/24",
        Format::Bgr24 => "24/24",
        Format::Rgb565 => "16/16",
        Format::Rgb555 => "16/15",
    }
}

/// How a remap's entries are given.
pub(crate) fn name_of_kind(entries: &EntriesRef<'_>) -> &'static str
    ensures { result.now ≡ kind_name (entries_of entries.now) }
{
    match entries {
        EntriesRef::Ppn32(_) => "ppn32",
        EntriesRef::Ppn64(_) => "ppn64",
        EntriesRef::SinglePpn32(_) => "single32",
        EntriesRef::SinglePpn64 { .. } => "single64",
        EntriesRef::ViaGmr32(_) => "via32",
        EntriesRef::ViaGmr64(_) => "via64",
    }
}

/// Why a word is refused, as a line has it.
pub fn name_of_cause(cause: Cause) -> &'static str
    ensures { result.now ≡ cause_name cause }
{
    match cause {
        Cause::Unsupported => "Unsupported",
        Cause::ThreeD => "ThreeD",
        Cause::Escape => "Escape",
        Cause::Unknown => "Unknown",
        Cause::BadSize => "BadSize",
        Cause::BadFlags => "BadFlags",
        Cause::BadFormat => "BadFormat",
        Cause::TooManyPages => "TooManyPages",
    }
}

/// Why an act isn't admissible, as a line has it.
pub fn name_of_fault(fault: Fault) -> &'static str
    ensures { result.now ≡ fault_name fault }
{
    match fault {
        Fault::NoRegion => "NoRegion",
        Fault::RegionId => "RegionId",
        Fault::PlaceLimit => "PlaceLimit",
        Fault::RangeBeyond => "RangeBeyond",
        Fault::Unmapped => "Unmapped",
        Fault::BadPage => "BadPage",
        Fault::NoGmrfb => "NoGmrfb",
        Fault::NoScreen => "NoScreen",
        Fault::ScreenId => "ScreenId",
        Fault::ScreenSize => "ScreenSize",
        Fault::PixelBudget => "PixelBudget",
        Fault::NegativeSide => "NegativeSide",
        Fault::BeyondRegion => "BeyondRegion",
        Fault::ChainEnd => "ChainEnd",
        Fault::ChainLimit => "ChainLimit",
    }
}

/// Why bytes are no capture, as a line has it.
pub fn name_of_capture_cause(cause: CaptureCause) -> &'static str
    ensures { result.now ≡ capture_cause_name cause }
{
    match cause {
        CaptureCause::Magic => "Magic",
        CaptureCause::Version => "Version",
        CaptureCause::Number => "Number",
        CaptureCause::Order => "Order",
        CaptureCause::Short => "Short",
        CaptureCause::Long => "Long",
    }
}
