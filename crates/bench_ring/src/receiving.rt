//! The device's side: each word is compared with the one that was sent.
ghost use Rattle.bench_ring.specs.Passing.{IsPlain, IsWaiting};
ghost use Rattle.std.specs.Prelude.{◌≡◌, ◌++◌, ◌∷◌, ◌≤◌, ◌^◌, [], IsTrue};
ghost use Rattle.svga_cmd.specs.Spelling.{Spells};
ghost use Rattle.svga_cmd.specs.declared.command.Command.{Command};
ghost use Rattle.svga_cmd.specs.declared.command.Command.TheVariants.{Fence};

use crate::commands::{FENCE_EVERY, define_gmrfb, fence};
use std::sync::Wait;
use svga_link::DeviceEnd;
use svga_ring::fence_number;

// The next word, as soon as it is sent.
fn next<R: Wait>(rt: &R, device: &mut DeviceEnd) -> u32
    requires { (c : Command) → Spells c device.old.view.read → ⊥ }
    ensures read { device.new.view.read ≡ device.old.view.read ++ result ∷ [] }
    ensures noted { device.new.view.noted ≡ device.old.view.noted }
{
    for _ in rt.forever() {
        if device.known() > 0 {
            return device.next_word();
        }
        device.read_next();
    }
    unreachable!()
}

// Reads as many words as these, and tells whether they are the same. It stops at the first that isn't.
fn finds<R: Wait>(rt: &R, device: &mut DeviceEnd, words: &[u32]) -> bool
    requires read { device.old.view.read ≡ [] }
    requires spelled { (c : Command) × Spells c words.now }
    ensures read { IsTrue result → device.new.view.read ≡ words.now }
    ensures noted { device.new.view.noted ≡ device.old.view.noted }
{
    for i in 0..words.len() {
        if next(rt, device) != words[i] {
            return false;
        }
    }
    true
}

/// Takes the next command, and tells whether it is this one.
pub fn take<R: Wait>(rt: &R, device: &mut DeviceEnd, words: &[u32]) -> bool
    requires waiting { IsWaiting device.old.view }
    requires plain { (c : Command) × IsPlain c words.now }
    ensures { IsTrue result → IsWaiting device.new.view }
{
    if !finds(rt, device, words) {
        return false;
    }
    device.store_stop();
    true
}

/// The same of a FENCE, whose number it stores.
pub fn take_fence<R: Wait>(rt: &R, device: &mut DeviceEnd, number: u32) -> bool
    requires { IsWaiting device.old.view }
    ensures { IsTrue result → IsWaiting device.new.view }
{
    if !finds(rt, device, &fence(number)) {
        return false;
    }
    device.store_fence(number);
    device.store_stop();
    true
}

// Takes command n, and tells whether it is the one that was sent.
fn take_nth<R: Wait>(rt: &R, device: &mut DeviceEnd, n: u32, first: u32) -> bool
    requires waiting { IsWaiting device.old.view }
    requires first { 1 ≤ first }
    ensures { IsTrue result → IsWaiting device.new.view }
{
    if n % FENCE_EVERY == FENCE_EVERY - 1 {
        take_fence(rt, device, fence_number(first, (n / FENCE_EVERY) as u64))
    } else {
        take(rt, device, &define_gmrfb(n))
    }
}

/// Takes so many commands, and tells how many were found as they were sent, up to the first that wasn't.
pub fn take_all<R: Wait + Copy>(rt: R, mut device: DeviceEnd, first: u32, count: u32) -> u32
    requires waiting { IsWaiting device.view }
    requires first { 1 ≤ first }
{
    for n in 0..count {
        if !take_nth(&rt, &mut device, n, first) {
            return n;
        }
    }
    count
}

/// The same of fences alone.
pub fn take_fences<R: Wait + Copy>(rt: R, mut device: DeviceEnd, first: u32, count: u32) -> u32
    requires waiting { IsWaiting device.view }
    requires first { 1 ≤ first }
{
    for n in 0..count {
        if !take_fence(&rt, &mut device, fence_number(first, n as u64)) {
            return n;
        }
    }
    count
}
