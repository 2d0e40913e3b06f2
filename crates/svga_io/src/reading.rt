//! Reading a whole input.
ghost use Rattle.std.specs.Prelude.{◌≡◌, ◌↔◌, ◌+◌, ◌<◌, ◌≤◌, [], length, take, vec_len, Some, IsSome, IfSome, IfOk, OnOk, OnErr, IsErrOf, IsOkUnless};
ghost use Rattle.std.specs.Io.KnownBytes.{Consumes, Keeps};
ghost use Rattle.svga_io.specs.Rising.{Rises};
ghost use Rattle.svga_io.specs.Taking.{taken_count, LosesFront};

use crate::{Failed, InFault, Source};
use std::alloc::{AllocError, Global};
use svga_cmd::constants::MAX_INPUT_BYTES;

/// The most bytes that one call of the source is asked for: few calls for a long
/// input, little memory for a short one.
const PIECE: usize = 64 * 1024;

/// Reads to the end, but takes no more than one byte past `limit`. It asks for memory for a buffer of 64 KiB
/// beside the bytes, whose vector grows by doubling.
pub fn read_all<S: Source>(alloc: Global, source: &mut S, limit: usize) -> Result<Vec<u8>, InFault>
    requires { limit ≤ MAX_INPUT_BYTES }

    ensures bytes { IfOk result (λ bytes. IfSome (S.left source.old) (λ left. bytes.items ≡ left)) }
    ensures end { OnOk result (IfSome (S.left source.old) (λ _. S.left source.new ≡ Some [])) }
    ensures length { IfOk result (λ bytes. vec_len bytes ≤ limit) }

    // The count is the cause of a fault; a body can't raise it by itself.
    ensures read_fault { IsErrOf result InFault.ReadFault
        → Rises (S.faults source.old) (S.faults source.new) }
    ensures steady { S.faults source.old ≤ S.faults source.new }
    ensures complete { IfSome (S.left source.old)
        (λ left. length left ≤ limit → ¬ (Rises (S.faults source.old) (S.faults source.new))
        → IsOkUnless result InFault.Memory) }

    // Whatever the answer, the bytes taken are the front of what was left.
    ensures too_long { IfSome (taken_count (S.left source.old) (S.left source.new))
        (λ n. IsErrOf result InFault.TooLong ↔ (limit < n)) }
    ensures most { IfSome (taken_count (S.left source.old) (S.left source.new)) (λ n. n ≤ limit + 1) }
    ensures front { LosesFront (S.left source.old) (S.left source.new) }
    ensures told { IsSome (S.left source.old) → IsSome (S.left source.new) }
{
    let mut buffer = zeros(alloc, PIECE)?;
    let mut bytes = Vec::new(alloc);
    loop {
        let room = limit - bytes.len();
        let n = ask(source, &mut buffer, room + 1)?;
        if n == 0 {
            return Ok(bytes);
        }
        if n > room {
            return Err(InFault::TooLong);
        }
        bytes.extend_from_slice(&buffer[..n])?;
    }
}

// Asks the source once, for at most `most` bytes.
fn ask<S: Source>(source: &mut S, buffer: &mut [u8], most: usize) -> Result<usize, Failed>
    requires buffer { 0 < length buffer.old }
    requires most { 0 < most }

    ensures most { IfOk result (λ n. n ≤ most) }
    ensures within { IfOk result (λ n. n ≤ length buffer.new) }
    ensures taken { IfOk result (λ n. Consumes (S.left source.old) (S.left source.new) (take n buffer.new)) }
    ensures end { IfOk result (λ n. IfSome (S.left source.old) (λ bytes. (n ≡ 0) ↔ (bytes ≡ []))) }
    ensures kept { OnErr result (Keeps (S.left source.old) (S.left source.new)) }
    ensures steady { S.faults source.old ≤ S.faults source.new }
    ensures cause { OnErr result (Rises (S.faults source.old) (S.faults source.new)) }
{
    let end = most.min(buffer.len());
    source.next(&mut buffer[..end])
}

// A buffer. It is a function of its own so that no proof of `read_all` writes out so many zeros.
fn zeros(alloc: Global, len: usize) -> Result<Vec<u8>, AllocError>
    ensures { IfOk result (λ zeros. vec_len zeros ≡ len) }
{
    vec![in alloc; 0; len]
}
