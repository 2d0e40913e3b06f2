//! A picture in memory.
ghost use Rattle.std.specs.Prelude.{◌≡◌, ◌+◌, ◌≤◌, IfOk, OnErr, OnOk, length, option_copied, slice_get};
ghost use Rattle.svga_model.specs.Screens.{painted_row};
ghost use Rattle.svga_cmd.specs.declared.constants.TheConstants.{MAX_SCREEN_SIDE};
ghost use Rattle.svga_head.specs.Changes.{IsOnRows, black_rows, painted_rows};

use std::alloc::{AllocError, Global};
use std::marker::Model;

/// Pixels, row behind row from the top. Contracts see the rows.
#[derive(Drop)]
pub struct Picture {
    width: usize,
    height: usize,
    pixels: Vec<u32>,
}

impl Model for Picture {
    ghost use Rattle.std.specs.Prelude.{◌≡◌, ◌*◌, ◌≤◌, List, ℕ, length};
    ghost use Rattle.svga_screen.specs.Kept.{rows_from};

    ghost Value = { List (List ℕ) };

    ghost view = { λ p. rows_from p.width p.height p.pixels.items };

    ghost invariant = { λ p. length p.pixels.items ≡ p.width * p.height };
}

impl Picture {
    pub fn black(alloc: Global, width: usize, height: usize) -> Result<Picture, AllocError>
        requires width { width ≤ MAX_SCREEN_SIDE }
        requires height { height ≤ MAX_SCREEN_SIDE }
        ensures { IfOk result (λ picture. picture ≡ black_rows width height) }
    {
        let pixels = vec![in alloc; 0; width * height]?;
        Ok(Picture {
            width,
            height,
            pixels,
        })
    }

    /// Becomes black with these sides. It takes memory only for pixels past those that it has had room for.
    pub fn blacken(&mut self, width: usize, height: usize) -> Result<(), AllocError>
        requires width { width ≤ MAX_SCREEN_SIDE }
        requires height { height ≤ MAX_SCREEN_SIDE }
        ensures ok { OnOk result (self.new ≡ black_rows width height) }
        ensures err { OnErr result (self.new ≡ self.old) }
    {
        let count = width * height;
        let more = count.saturating_sub(self.pixels.len());
        self.pixels.reserve_exact(more)?;
        self.pixels.clear();
        self.pixels.resize(count, 0).unwrap();
        self.width = width;
        self.height = height;
        Ok(())
    }

    pub fn row(&self, y: usize) -> Option<&[u32]>
        ensures { option_copied result ≡ slice_get self.now y }
    {
        if y < self.height {
            let start = y * self.width;
            Some(&self.pixels[start..start + self.width])
        } else {
            None
        }
    }

    pub fn paint(&mut self, x: usize, y: usize, colours: &[u32])
        requires { IsOnRows x y (length colours.now) self.old }
        ensures { self.new ≡ painted_rows x y colours.now self.old }
    {
        put(&mut self.pixels, y * self.width + x, colours);
    }
}

/// Puts the colours from an offset on.
fn put(pixels: &mut [u32], start: usize, colours: &[u32])
    requires { start + length colours.now ≤ length pixels.old }
    ensures { pixels.new ≡ painted_row pixels.old start colours.now }
{
    pixels[start..start + colours.len()].copy_from_slice(colours);
}
