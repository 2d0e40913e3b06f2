//! A source in memory, some of whose calls fail.
ghost use Rattle.std.specs.Prelude.{◌≡◌, ◌↔◌, ◌<◌, ◌≤◌, Some, [], length, take, drop, IfOk, OnErr, IsErr, Contains};
ghost use Rattle.svga_io.specs.Rising.{one_more};
ghost use Rattle.svga_io.specs.Memory.{SourceState, given_count};

use crate::{CleanSource, Failed, Source};
use std::marker::Model;

/// Gives its bytes in pieces. The calls of chosen numbers fail; a call that fails is counted as any other.
#[derive(Debug, Drop)]
pub struct MemSource {
    bytes: CleanSource,
    calls: u64,
    failing: Vec<u64>,
    faults: u64,
}

impl Model for MemSource {
    ghost use Rattle.svga_io.specs.Memory.{SourceState};

    ghost Value = { SourceState };

    ghost view = { λ a.
        record {
          left = a.bytes.left;
          piece = a.bytes.piece;
          calls = a.calls;
          failing = a.failing.items;
          faults = a.faults;
        } };
}

impl MemSource {
    /// A call gives at most `piece` bytes, and the calls whose numbers, from 0 on, stand in `failing` fail.
    pub fn new(bytes: Vec<u8>, piece: usize, failing: Vec<u64>) -> MemSource
        requires { 1 ≤ piece }
        ensures { result
            ≡ record { left = bytes.items; piece = piece; calls = 0; failing = failing.items; faults = 0 } }
    {
        MemSource {
            bytes: CleanSource::new(bytes, piece),
            calls: 0,
            failing,
            faults: 0,
        }
    }
}

impl Source for MemSource {
    ghost left = { λ s. Some s.left };

    ghost faults = { λ s. s.faults };

    fn next(&mut self, buf: &mut [u8]) -> Result<usize, Failed>
        requires { 0 < length buf.old }

        ensures fails { IsErr result ↔ Contains self.old.failing self.old.calls }
        ensures err { OnErr result (self.new
            ≡ record self.old { calls = one_more self.old.calls; faults = one_more self.old.faults }) }
        ensures steady { self.old.faults ≤ self.new.faults }

        ensures count { IfOk result (λ n. n ≡ given_count self.old.left self.old.piece (length buf.old)) }
        ensures front { IfOk result (λ n. take n buf.new ≡ take n self.old.left) }
        ensures ok { IfOk result (λ n. self.new
            ≡ record self.old { left = drop n self.old.left; calls = one_more self.old.calls }) }
        ensures end { IfOk result (λ n. (n ≡ 0) ↔ (self.old.left ≡ [])) }
    {
        let fails = self.failing.contains(&self.calls);
        self.calls = self.calls.saturating_add(1);
        if fails {
            self.faults = self.faults.saturating_add(1);
            return Err(Failed);
        }
        self.bytes.next(buf)
    }
}
