//! The bits of a remap's flag word.
ghost use Rattle.std.specs.Prelude.{◌≡◌, ⊤, [], ◌∷◌, codes};
ghost use Rattle.svga_cmd.specs.declared.constants.TheConstants.{SVGA_REMAP_GMR2_PPN64, SVGA_REMAP_GMR2_SINGLE_PPN, SVGA_REMAP_GMR2_VIA_GMR};

use crate::constants::{
    SVGA_REMAP_GMR2_PPN64, SVGA_REMAP_GMR2_SINGLE_PPN, SVGA_REMAP_GMR2_VIA_GMR,
};
use bitflags::{Flag, Flags, bitflag_items};

/// How a remap's entries are given: the bits of its flag word.
#[derive(Clone, Copy, PartialEq, Eq, Debug)]
pub struct RemapFlags(u32);

bitflag_items! {
    impl RemapFlags: u32 {
        const VIA_GMR = SVGA_REMAP_GMR2_VIA_GMR;
        const PPN64 = SVGA_REMAP_GMR2_PPN64;
        const SINGLE_PPN = SVGA_REMAP_GMR2_SINGLE_PPN;
    }
}

impl Flags for RemapFlags {
    type Bits = u32;

    ghost exact = { ⊤ };

    ghost table = { (codes "VIA_GMR", SVGA_REMAP_GMR2_VIA_GMR) ∷ (codes "PPN64", SVGA_REMAP_GMR2_PPN64)
        ∷ (codes "SINGLE_PPN", SVGA_REMAP_GMR2_SINGLE_PPN) ∷ [] };

    ghost set_of = { λ flags. flags.0 };

    fn flags<'a>() -> &'a [Flag<RemapFlags>] {
        RemapFlags::FLAGS
    }

    fn bits(&self) -> u32 {
        self.0
    }

    fn from_bits_retain(bits: u32) -> RemapFlags {
        RemapFlags(bits)
    }
}
