//! Room for one row of pixels.
ghost use Rattle.std.specs.Prelude.{◌≡◌};

use std::alloc::{AllocError, Global};
use std::marker::Model;
use svga_cmd::constants::MAX_SCREEN_SIDE;

/// Room for the bytes of the longest row of a screen, 8,192 pixels, in any format.
#[derive(Drop)]
pub struct RowRoom {
    pub(crate) bytes: Vec<u8>,
}

impl Model for RowRoom {
    ghost use Rattle.std.specs.Prelude.{◌≡◌, ◌*◌, length};
    ghost use Rattle.svga_cmd.specs.declared.constants.TheConstants.{MAX_SCREEN_SIDE};

    ghost Value = { Unit {0} };

    ghost view = { λ _. tt };

    ghost invariant = { λ room. length room.bytes.items ≡ 4 * MAX_SCREEN_SIDE };
}

impl RowRoom {
    /// The only call of this crate that takes memory.
    pub fn new(alloc: Global) -> Result<RowRoom, AllocError> {
        let bytes = vec![in alloc; 0; 4 * MAX_SCREEN_SIDE as usize]?;
        Ok(RowRoom { bytes })
    }
}
