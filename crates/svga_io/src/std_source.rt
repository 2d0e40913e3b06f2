//! std's readers as sources.
ghost use Rattle.std.specs.Prelude.{◌≡◌, ◌↔◌, ◌<◌, ◌≤◌, [], length, take, IfSome, IfOk, OnErr, is_ok, if◌then◌else◌};
ghost use Rattle.std.specs.Io.KnownBytes.{Consumes, Keeps};
ghost use Rattle.svga_io.specs.Rising.{one_more};

use crate::{Failed, Source};
use std::io::Read;
use std::marker::Model;

/// A reader that counts its errors. An interrupted read is an error like any other.
#[derive(Drop)]
pub struct StdSource<R: Read> {
    reader: R,
    faults: u64,
}

impl<R: Read> Model for StdSource<R> {
    ghost use Rattle.svga_io.specs.Adapted.{Counted};

    ghost Value = { Counted R };

    ghost view = { λ a. record { inner = a.reader; faults = a.faults } };
}

impl<R: Read> StdSource<R> {
    pub fn new(reader: R) -> StdSource<R>
        ensures { result ≡ record { inner = reader; faults = 0 } }
    {
        StdSource { reader, faults: 0 }
    }
}

impl<R: Read> Source for StdSource<R> {
    ghost left = { λ s. R.remaining s.inner };

    ghost faults = { λ s. s.faults };

    fn next(&mut self, buf: &mut [u8]) -> Result<usize, Failed>
        requires { 0 < length buf.old }

        ensures bound { IfOk result (λ n. n ≤ length buf.old) }
        ensures taken { IfOk result
            (λ n. Consumes (R.remaining self.old.inner) (R.remaining self.new.inner) (take n buf.new)) }
        ensures end { IfOk result
            (λ n. IfSome (R.remaining self.old.inner) (λ bytes. (n ≡ 0) ↔ (bytes ≡ []))) }
        ensures kept { OnErr result (Keeps (R.remaining self.old.inner) (R.remaining self.new.inner)) }

        ensures steady { self.old.faults ≤ self.new.faults }
        ensures counted { self.new.faults
            ≡ (if is_ok result then self.old.faults else one_more self.old.faults) }
    {
        match self.reader.read(buf) {
            Ok(n) => Ok(n),
            Err(_) => {
                self.faults = self.faults.saturating_add(1);
                Err(Failed)
            }
        }
    }
}
