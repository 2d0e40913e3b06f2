//! Writing a whole text.
ghost use Rattle.std.specs.Prelude.{◌≤◌, IsSome, OnOk, OnErr};
ghost use Rattle.svga_io.specs.Growing.{Grows, GrowsByPrefix};

use crate::{Sink, WriteFault};

/// Writes all the bytes, in as many calls as the sink needs. It gives up at
/// the first fault. It takes no memory.
pub fn write_all<K: Sink>(sink: &mut K, bytes: &[u8]) -> Result<(), WriteFault>
    ensures ok { OnOk result (Grows K.held K.faults sink.old sink.new bytes.now) }
    ensures fault { OnErr result (GrowsByPrefix K.held K.faults sink.old sink.new bytes.now) }
    ensures told { IsSome (K.held sink.old) → IsSome (K.held sink.new) }
    ensures steady { K.faults sink.old ≤ K.faults sink.new }
{
    let mut rest = bytes;
    while !rest.is_empty() {
        let n = sink.put(rest)?;
        if n == 0 {
            return Err(WriteFault);
        }
        rest = &rest[n..];
    }
    Ok(())
}
