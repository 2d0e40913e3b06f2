//! A machine with all pages of its device at hand.
ghost use Rattle.std.specs.Option.{option_copied};
ghost use Rattle.std.specs.Prelude.{◌≡◌, ◌↔◌, ◌+◌, ◌<◌, ◌≤◌, All, IfOk, IsTrue, OnOk, OnErr, false, length};
ghost use Rattle.std.specs.Result.{result_err};
ghost use Rattle.svga_cmd.specs.Lent.{command_of};
ghost use Rattle.svga_cmd.specs.Limits.{AreLimits};
ghost use Rattle.svga_cmd.specs.Pages.{IsKey, IsZeroMemoryOf, page_at};
ghost use Rattle.svga_cmd.specs.WellFormed.{IsWellFormed};
ghost use Rattle.svga_model.specs.Acts.{Do, Put};
ghost use Rattle.svga_model.specs.Faults.{fault_of};
ghost use Rattle.svga_model.specs.Memories.{page_bytes};
ghost use Rattle.svga_model.specs.Screens.{painted_row};
ghost use Rattle.svga_model.specs.States.{opening_kept};
ghost use Rattle.svga_model.specs.Steps.{step};
ghost use Rattle.svga_machine.specs.Displays.{IsWholeState};
ghost use Rattle.svga_machine.specs.Effects.{IsEffect};

use crate::effect::Effect;
use crate::machine::Machine;
use std::alloc::{AllocError, Global};
use std::marker::Model;
use svga_cmd::constants::PAGE_SIZE;
use svga_cmd::{CommandRef, Fault, Limits, MemPages, PageKey, PageStore};

/// A software display: a machine, and in memory all pages of its device.
#[derive(Drop)]
pub struct Display {
    limits: Limits,
    machine: Machine,
    pages: MemPages,
}

impl Model for Display {
    ghost use Rattle.svga_machine.specs.Displays.{IsWholeState, coded_state};
    ghost use Rattle.svga_machine.specs.MachineSet.{state_with};
    ghost use Rattle.svga_model.specs.States.{State};

    ghost Value = { State };

    ghost coded = { coded_state };

    ghost view = { λ d. state_with d.machine d.pages };

    ghost invariant = { λ d. IsWholeState d.limits (state_with d.machine d.pages) };
}

impl Display {
    /// A display at its opening: no region but the framebuffer's, no GMRFB, no screen, fence 0, and pages of
    /// zeros. It is the only call that takes memory.
    pub fn new(alloc: Global, limits: Limits) -> Result<Display, AllocError>
        requires { AreLimits limits }
        ensures kept { IfOk result (λ display. display.kept ≡ opening_kept limits 1) }
        ensures pages { IfOk result (λ display. IsZeroMemoryOf limits display.memory) }
    {
        let machine = Machine::new(alloc, limits)?;
        let pages = MemPages::new(alloc, limits)?;
        Ok(Display {
            limits,
            machine,
            pages,
        })
    }

    /// Runs a command. A fault changes nothing.
    pub fn run(&mut self, command: &CommandRef<'_>) -> Result<Effect, Fault>
        requires { IsWellFormed (command_of command.now) }
        ensures fault { result_err result ≡ fault_of self.old (Do (command_of command.now)) }
        ensures ok { OnOk result (self.new ≡ step self.old (Do (command_of command.now))) }
        ensures effect { IfOk result (IsEffect self.old (command_of command.now)) }
        ensures err { OnErr result (self.new ≡ self.old) }
    {
        self.machine.run(&mut self.pages, command)
    }

    /// The machine, which has the screens.
    pub fn machine(&self) -> &Machine
        ensures kept { result.now.kept ≡ self.now.kept }
        // Whoever asks for it learns that the state is valid and that no page is lacking.
        ensures valid { IsWholeState self.now.kept.limits self.now }
    {
        &self.machine
    }

    /// The bytes of a page, if it is one of the device's.
    pub fn bytes(&self, key: PageKey) -> Option<&[u8]>
        ensures { option_copied result ≡ page_at self.now.memory key }
    {
        if is_key(self.limits, key) {
            Some(self.pages.page(key).bytes())
        } else {
            None
        }
    }

    /// Writes bytes into a page from byte `at` on. It is false, and nothing changes, where the page isn't one
    /// of the device's or the bytes go past its end.
    pub fn write(&mut self, key: PageKey, at: usize, bytes: &[u8]) -> bool
        ensures written { IsTrue result ↔ (IsKey self.old.kept.limits key
            × (at + length bytes.now ≤ PAGE_SIZE)) }
        ensures put { IsTrue result → self.new ≡ step self.old
            (Put key (painted_row (page_bytes self.old.memory key) at bytes.now)) }
        ensures refused { result ≡ false → self.new ≡ self.old }
    {
        if !fits(self.limits, key, at, bytes.len()) {
            return false;
        }
        put(self.pages.page_mut(key).bytes_mut(), at, bytes);
        true
    }
}

/// Whether a device has a page of this key, and so many bytes from byte `at` on lie on it.
fn fits(limits: Limits, key: PageKey, at: usize, count: usize) -> bool
    requires { AreLimits limits }
    ensures { IsTrue result ↔ (IsKey limits key × (at + count ≤ PAGE_SIZE)) }
{
    is_key(limits, key) && at <= PAGE_SIZE && count <= PAGE_SIZE - at
}

/// Writes bytes into others, which stay as many.
fn put(page: &mut [u8], at: usize, bytes: &[u8])
    requires { at + length bytes.now ≤ length page.old }
    ensures put { page.new ≡ painted_row page.old at bytes.now }
    ensures length { length page.new ≡ length page.old }
    ensures bytes { All (λ byte. byte < 256) page.new }
{
    page[at..at + bytes.len()].copy_from_slice(bytes);
}

/// Whether a device has a page of this key.
fn is_key(limits: Limits, key: PageKey) -> bool
    requires { AreLimits limits }
    ensures { IsTrue result ↔ IsKey limits key }
{
    match key {
        PageKey::Guest(number) => number < limits.pages,
        PageKey::Frame(number) => number < limits.frame_pages(),
    }
}
