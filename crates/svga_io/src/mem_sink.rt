//! A sink in memory, some of whose calls fail.
ghost use Rattle.std.specs.Prelude.{◌≡◌, ◌↔◌, ◌<◌, ◌≤◌, ◌++◌, Some, [], length, take, IfOk, OnErr, IsErr, Contains};
ghost use Rattle.svga_io.specs.Rising.{one_more};
ghost use Rattle.svga_io.specs.Memory.{SinkState, taken_by, faults_after};

use crate::{Failed, Sink};
use std::alloc::{AllocError, Global};
use std::marker::Model;

/// Keeps what is put into it, as far as it has room. The calls of chosen numbers fail; a call that fails is
/// counted as any other.
#[derive(Debug, Drop)]
pub struct MemSink {
    bytes: Vec<u8>,
    capacity: usize,
    calls: u64,
    failing: Vec<u64>,
    faults: u64,
}

impl Model for MemSink {
    ghost use Rattle.std.specs.Prelude.{◌≤◌, vec_len, vec_capacity};
    ghost use Rattle.svga_io.specs.Memory.{SinkState};

    ghost Value = { SinkState };

    ghost view = { λ a.
        record {
          held = a.bytes.items;
          capacity = a.capacity;
          calls = a.calls;
          failing = a.failing.items;
          faults = a.faults;
        } };

    ghost invariant = { λ a. (vec_len a.bytes ≤ a.capacity) × (a.capacity ≤ vec_capacity a.bytes) };
}

impl MemSink {
    /// Room for `capacity` bytes is taken here, and no memory later. The calls whose numbers, from 0 on,
    /// stand in `failing` fail.
    pub fn new(alloc: Global, capacity: usize, failing: Vec<u64>) -> Result<MemSink, AllocError>
        ensures { IfOk result (λ sink. sink
            ≡ record { held = []; capacity = capacity; calls = 0; failing = failing.items; faults = 0 }) }
    {
        Ok(MemSink {
            bytes: Vec::with_capacity(alloc, capacity)?,
            capacity,
            calls: 0,
            failing,
            faults: 0,
        })
    }

    /// What it holds.
    pub fn bytes(&self) -> &[u8]
        ensures { result.now ≡ self.now.held }
    {
        &self.bytes
    }
}

impl Sink for MemSink {
    ghost held = { λ s. Some s.held };

    ghost faults = { λ s. s.faults };

    fn put(&mut self, piece: &[u8]) -> Result<usize, Failed>
        ensures fails { IsErr result ↔ Contains self.old.failing self.old.calls }
        ensures err { OnErr result (self.new
            ≡ record self.old { calls = one_more self.old.calls; faults = one_more self.old.faults }) }
        ensures steady { self.old.faults ≤ self.new.faults }

        ensures count { IfOk result (λ n. n ≡ taken_by self.old piece.now) }
        ensures ok { IfOk result (λ n. self.new
            ≡ record self.old {
              held = self.old.held ++ take n piece.now;
              calls = one_more self.old.calls;
              faults = faults_after self.old piece.now n;
            }) }
    {
        let fails = self.failing.contains(&self.calls);
        self.calls = self.calls.saturating_add(1);
        let n = piece.len().min(self.capacity - self.bytes.len());
        if fails || (n == 0 && !piece.is_empty()) {
            self.faults = self.faults.saturating_add(1);
        }
        if fails {
            return Err(Failed);
        }
        self.bytes.extend_from_slice(&piece[..n]).unwrap();
        Ok(n)
    }
}
