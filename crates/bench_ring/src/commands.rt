//! The commands that are passed.
ghost use Rattle.std.specs.Prelude.{◌≡◌};
ghost use Rattle.svga_cmd.specs.Spelling.{spelling};
ghost use Rattle.svga_cmd.specs.declared.command.Command.TheVariants.{DefineGmr2, DefineGmrfb, Fence};
ghost use Rattle.svga_cmd.specs.declared.format.Format.TheVariants.{Bgrx32};

use svga_cmd::constants::{
    BGRX32_WORD, SVGA_CMD_DEFINE_GMR2, SVGA_CMD_DEFINE_GMRFB, SVGA_CMD_FENCE,
};

/// One command of so many is a FENCE.
pub const FENCE_EVERY: u32 = 16;

/// Region 1 with one place.
pub fn define_gmr2() -> [u32; 3]
    ensures { result ≡ spelling (DefineGmr2 1 1) }
{
    [SVGA_CMD_DEFINE_GMR2, 1, 1]
}

/// A GMRFB in region 1, at an offset by which it is told apart.
pub fn define_gmrfb(offset: u32) -> [u32; 5]
    ensures { result
        ≡ spelling (DefineGmrfb (record { region = 1; offset = offset; pitch = 16; format = Bgrx32 })) }
{
    [SVGA_CMD_DEFINE_GMRFB, 1, offset, 16, BGRX32_WORD]
}

pub fn fence(number: u32) -> [u32; 2]
    ensures { result ≡ spelling (Fence number) }
{
    [SVGA_CMD_FENCE, number]
}
