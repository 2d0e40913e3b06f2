//! A source in memory that never fails.
ghost use Rattle.std.specs.Prelude.{◌≡◌, ◌↔◌, ◌<◌, ◌≤◌, Some, [], length, take, drop, IfOk, IsOk};
ghost use Rattle.svga_io.specs.Memory.{CleanState, given_count};

use crate::{Failed, Source};
use std::marker::Model;

/// Gives its bytes in pieces, without a fault.
#[derive(Debug, Drop)]
pub struct CleanSource {
    bytes: Vec<u8>,
    at: usize,
    piece: usize,
}

impl Model for CleanSource {
    ghost use Rattle.std.specs.Prelude.{◌≤◌, drop, length};
    ghost use Rattle.svga_io.specs.Memory.{CleanState};

    ghost Value = { CleanState };

    ghost view = { λ a. record { left = drop a.at a.bytes.items; piece = a.piece } };

    ghost invariant = { λ a. (a.at ≤ length a.bytes.items) × (1 ≤ a.piece) };
}

impl CleanSource {
    /// A call gives at most `piece` bytes.
    pub fn new(bytes: Vec<u8>, piece: usize) -> CleanSource
        requires { 1 ≤ piece }
        ensures { result ≡ record { left = bytes.items; piece = piece } }
    {
        CleanSource {
            bytes,
            at: 0,
            piece,
        }
    }
}

impl Source for CleanSource {
    ghost left = { λ s. Some s.left };

    ghost faults = { λ _. 0 };

    fn next(&mut self, buf: &mut [u8]) -> Result<usize, Failed>
        requires { 0 < length buf.old }

        ensures ok { IsOk result }
        ensures count { IfOk result (λ n. n ≡ given_count self.old.left self.old.piece (length buf.old)) }
        ensures front { IfOk result (λ n. take n buf.new ≡ take n self.old.left) }
        ensures rest { IfOk result (λ n. self.new ≡ record self.old { left = drop n self.old.left }) }
        ensures end { IfOk result (λ n. (n ≡ 0) ↔ (self.old.left ≡ [])) }
    {
        let left = &self.bytes[self.at..];
        let n = self.piece.min(buf.len()).min(left.len());
        buf[..n].copy_from_slice(&left[..n]);
        self.at += n;
        Ok(n)
    }
}
