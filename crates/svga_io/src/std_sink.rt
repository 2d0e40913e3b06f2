//! std's writers as sinks.
ghost use Rattle.std.specs.Prelude.{◌≡◌, ◌≤◌, ◌==◌, length, take, IfOk, OnErr, if◌then◌else◌};
ghost use Rattle.std.specs.Result.{result_unwrap_or};
ghost use Rattle.std.specs.Io.KnownBytes.{Appends, Keeps};
ghost use Rattle.svga_io.specs.Rising.{one_more};

use crate::{Failed, Sink};
use std::io::Write;
use std::marker::Model;

/// A writer that counts its errors and its writes of 0 bytes. It never flushes.
#[derive(Drop)]
pub struct StdSink<W: Write> {
    writer: W,
    faults: u64,
}

impl<W: Write> Model for StdSink<W> {
    ghost use Rattle.svga_io.specs.Adapted.{Counted};

    ghost Value = { Counted W };

    ghost view = { λ a. record { inner = a.writer; faults = a.faults } };
}

impl<W: Write> StdSink<W> {
    pub fn new(writer: W) -> StdSink<W>
        ensures { result ≡ record { inner = writer; faults = 0 } }
    {
        StdSink { writer, faults: 0 }
    }
}

impl<W: Write> Sink for StdSink<W> {
    ghost held = { λ s. W.contents s.inner };

    ghost faults = { λ s. s.faults };

    fn put(&mut self, piece: &[u8]) -> Result<usize, Failed>
        ensures bound { IfOk result (λ n. n ≤ length piece.now) }
        ensures appended { IfOk result (λ n.
            Appends (W.contents self.old.inner) (W.contents self.new.inner) (take n piece.now)) }
        ensures kept { OnErr result (Keeps (W.contents self.old.inner) (W.contents self.new.inner)) }

        ensures steady { self.old.faults ≤ self.new.faults }
        // An error counts, and so does a write of 0 bytes.
        ensures counted { self.new.faults
            ≡ (if result_unwrap_or result 0 == 0 then one_more self.old.faults else self.old.faults) }
    {
        let written = self.writer.write(piece);
        if !matches!(written, Ok(1..)) {
            self.faults = self.faults.saturating_add(1);
        }
        written.map_err(|_| Failed)
    }
}
