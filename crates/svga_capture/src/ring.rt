//! The ring of the FIFO: its four numbers, and the words that wait in it.
ghost use Rattle.std.specs.Prelude.{◌≡◌, ◌+◌, ◌/◌, ◌<◌, ◌≤◌, ◌==◌, ◌&&◌, IfOk, length, nat_le, nat_lt, true};
ghost use Rattle.std.specs.Result.{result_err};
ghost use Rattle.svga_capture.specs.Fields.{ring_in};
ghost use Rattle.svga_capture.specs.Rings.{IsRing};
ghost use Rattle.svga_model.specs.Addresses.{address, dwords_between};
ghost use Rattle.svga_model.specs.CaptureFields.{fifo_fields, first_flaw, flaw_of, is_between, is_ring_offset, is_whole, min_in, ring_end, word_field};
ghost use Rattle.svga_model.specs.Captures.{fence_in, waiting};
ghost use Rattle.svga_model.specs.Walks.{little_word};

use crate::fault::Wrong;
use crate::field::{holds, number, there, word};
use svga_cmd::CaptureCause;
use svga_cmd::capture_layout::{
    FENCE_OFFSET, FIFO_AT, FIFO_MAX_AT, FIFO_REST_AT, MIN_AT, NEXT_CMD_AT, RING_WORDS_SIZE, STOP_AT,
};
use svga_cmd::constants::{MAX_CAPTURE_END, MAX_INPUT_BYTES, MIN_CAPTURE_END};

/// The ring: from byte `min` of the FIFO's memory to byte `max`, where words wait from `stop` to `next`.
#[derive(Clone, Copy)]
pub(crate) struct Ring {
    pub(crate) min: u32,
    pub(crate) max: u32,
    pub(crate) next: u32,
    pub(crate) stop: u32,
}

/// The ring that ends at `max` as the header says, or what is wrong with the fields of the FIFO's memory.
pub(crate) fn read_ring(bytes: &[u8], max: u32) -> Result<Ring, Wrong>
    requires few { length bytes.now ≤ MAX_INPUT_BYTES }
    requires end { max ≡ ring_end bytes.now }
    requires rule { (is_whole max && is_between MIN_CAPTURE_END MAX_CAPTURE_END max) ≡ true }
    ensures wrong { result_err result ≡ first_flaw bytes.now (fifo_fields bytes.now) }
    ensures ring { IfOk result (λ ring. ring ≡ ring_in bytes.now) }
    ensures rules { IfOk result IsRing }
    ensures there { IfOk result (λ ring. FIFO_AT + ring.max ≤ length bytes.now) }
{
    let min = read_min(bytes, max)?;
    judge_max(bytes, max)?;
    let next = read_offset(bytes, NEXT_CMD_AT, min, max)?;
    let stop = read_offset(bytes, STOP_AT, min, max)?;
    there(bytes, FIFO_REST_AT, max - RING_WORDS_SIZE)?;
    Ok(Ring {
        min,
        max,
        next,
        stop,
    })
}

/// MIN, where the ring ends at `max`.
fn read_min(bytes: &[u8], max: u32) -> Result<u32, Wrong>
    requires few { length bytes.now ≤ MAX_INPUT_BYTES }
    requires end { max ≡ ring_end bytes.now }
    ensures wrong { result_err result ≡ flaw_of bytes.now (word_field bytes.now MIN_AT
        (λ n. is_whole n && nat_le RING_WORDS_SIZE n && nat_lt n (ring_end bytes.now))) }
    ensures min { IfOk result (λ min. min ≡ min_in bytes.now) }
    ensures rule { IfOk result (λ min.
        (is_whole min && nat_le RING_WORDS_SIZE min && nat_lt min max) ≡ true) }
{
    let min = number(bytes, MIN_AT)?;
    holds(
        min % 4 == 0 && RING_WORDS_SIZE <= min && min < max,
        MIN_AT,
        CaptureCause::Number,
    )?;
    Ok(min)
}

/// What is wrong with MAX, which the header gave as `max`.
fn judge_max(bytes: &[u8], max: u32) -> Result<(), Wrong>
    requires few { length bytes.now ≤ MAX_INPUT_BYTES }
    requires end { max ≡ ring_end bytes.now }
    ensures { result_err result ≡ flaw_of bytes.now (word_field bytes.now FIFO_MAX_AT
        (λ n. n == ring_end bytes.now)) }
{
    let again = number(bytes, FIFO_MAX_AT)?;
    holds(again == max, FIFO_MAX_AT, CaptureCause::Number)
}

/// The offset in the ring that the field at byte `at` says, where the ring is from `min` to `max`.
fn read_offset(bytes: &[u8], at: u32, min: u32, max: u32) -> Result<u32, Wrong>
    requires few { length bytes.now ≤ MAX_INPUT_BYTES }
    requires min { min ≡ min_in bytes.now }
    requires end { max ≡ ring_end bytes.now }
    ensures wrong { result_err result
        ≡ flaw_of bytes.now (word_field bytes.now at (is_ring_offset bytes.now)) }
    ensures offset { IfOk result (λ offset. offset ≡ little_word bytes.now at) }
    ensures rule { IfOk result (λ offset.
        (is_whole offset && nat_le min offset && nat_lt offset max) ≡ true) }
{
    let offset = number(bytes, at)?;
    holds(
        offset % 4 == 0 && min <= offset && offset < max,
        at,
        CaptureCause::Number,
    )?;
    Ok(offset)
}

/// The fence of a FIFO whose ring begins at `min`: 0 where its word isn't below that.
pub(crate) fn read_fence(bytes: &[u8], min: u32) -> u32
    requires min { min ≡ min_in bytes.now }
    requires there { FIFO_AT + min ≤ length bytes.now }
    requires whole { is_whole min ≡ true }
    ensures { result ≡ fence_in bytes.now }
{
    if min > FENCE_OFFSET {
        word(bytes, FIFO_AT + FENCE_OFFSET)
    } else {
        0
    }
}

impl Ring {
    /// How many words wait.
    pub(crate) fn word_count(&self) -> u32
        requires { IsRing self.now }
        ensures { result ≡ waiting self.now.min self.now.max self.now.next self.now.stop / 4 }
    {
        if self.stop <= self.next {
            (self.next - self.stop) / 4
        } else {
            (self.max - self.stop + (self.next - self.min)) / 4
        }
    }

    /// Where word `i` of them stands in the FIFO's memory, round the ring.
    pub(crate) fn offset(&self, i: u32) -> u32
        requires ring { IsRing self.now }
        requires waits { i < waiting self.now.min self.now.max self.now.next self.now.stop / 4 }
        ensures address { result ≡ address self.now.min (dwords_between self.now.min self.now.max)
            (dwords_between self.now.min self.now.stop + i) }
        ensures within { result + 4 ≤ self.now.max }
    {
        let offset = self.stop + 4 * i;
        if offset < self.max {
            offset
        } else {
            offset - (self.max - self.min)
        }
    }
}
