//! The engine of a device.
ghost use Rattle.std.specs.FinMap as map;
ghost use Rattle.std.specs.Prelude.{◌≡◌, [], List, IfErr, IfOk, None, true, false};
ghost use Rattle.svga_cmd.specs.Limits.{AreLimits};
ghost use Rattle.svga_cmd.specs.declared.session.Session.{Session};
ghost use Rattle.svga_decode.specs.DecoderStates.{fresh};
ghost use Rattle.svga_device.specs.Devices.{DeviceHas, IsResting, IsServedBy, Shows, StepTold};
ghost use Rattle.svga_device.specs.Reading.{IsReading, IsWhole};
ghost use Rattle.svga_device.specs.Telling.{IsQuiet, ShowNext, SomeShow};
ghost use Rattle.svga_head.specs.Plugs.{plug_states};
ghost use Rattle.svga_head.specs.PlugStates.{PlugState};
ghost use Rattle.svga_link.specs.Ends.{DeviceSeen};
ghost use Rattle.svga_machine.specs.declared.effect.Effect.{Effect};
ghost use Rattle.svga_model.specs.Pictures.{pictures_of};
ghost use Rattle.svga_model.specs.Sentences.{IsCommandBegun};
ghost use Rattle.svga_model.specs.States.{opening_kept};
ghost use Rattle.svga_ring.specs.Core.{read_count};
ghost use Rattle.svga_ring.specs.Views.{opening_device};

use crate::answering::answer_request;
use crate::held_pages::HeldPages;
use crate::reading::read_command;
use crate::serving::serve;
use crate::stepped::Stepped;
use std::alloc::{AllocError, Global};
use std::marker::Model;
use svga_cmd::Limits;
use svga_decode::{Decoder, one_answer};
use svga_head::{Head, HeadsOf};
use svga_link::DeviceEnd;
use svga_machine::Machine;
use svga_region::Regions;

/// The engine of a device, with its heads. It can be sent to another thread where they can; no call but `new`
/// takes memory, and none waits, but for what the heads do in their calls.
#[derive(Drop)]
pub struct Device<B: Head> {
    end: DeviceEnd,
    machine: Machine,
    decoder: Decoder,
    held: HeldPages,
    heads: HeadsOf<B>,
}

impl<B: Head> Model for Device<B> {
    ghost use Rattle.std.specs.Coded.{codes};
    ghost use Rattle.std.specs.FinMap as map;
    ghost use Rattle.std.specs.Prelude.{◌≡◌, []};
    ghost use Rattle.atomic_table.specs.Seated.{table_id_coded};
    ghost use Rattle.svga_device.specs.Devices.{DeviceHas, IsResting};
    ghost use Rattle.svga_device.specs.Reading.{IsReading};
    ghost use Rattle.svga_device.specs.Telling.{SomeShow};
    ghost use Rattle.svga_head.specs.PlugStates.{coded_plug_state};
    ghost use Rattle.svga_head.specs.Plugs.{plug_states};
    ghost use Rattle.svga_model.specs.Pictures.{pictures_of};

    ghost Value = { DeviceHas };

    ghost coded = { Prim.hlevel (codes, map.code, table_id_coded, coded_plug_state) };

    ghost view = { λ d. record {
      table = d.end.table;
      view = d.end.view;
      heads = plug_states B.state d.heads;
    } };

    ghost invariant = { λ d. IsResting d.end d.machine × IsReading d.end.view d.decoder × (d.held ≡ [])
        × SomeShow (pictures_of d.end.view.kept.screens) (plug_states B.state d.heads) };
}

/// There was no memory for a device. These are the end and the heads that it was to have.
#[derive(Drop)]
pub struct NoDevice<B> {
    pub end: DeviceEnd,
    pub heads: HeadsOf<B>,
}

/// What is left of a device that is closed.
#[derive(Drop)]
pub struct DeviceClosed<B> {
    pub machine: Machine,
    pub heads: HeadsOf<B>,
    pub end: DeviceEnd,
}

impl<B: Head> Device<B> {
    /// A device at its opening, with all the memory that the other calls need. The limits are those of the
    /// session that the end was made for, and the end has made no step.
    pub fn new(
        alloc: Global,
        end: DeviceEnd,
        limits: Limits,
        heads: HeadsOf<B>,
    ) -> Result<Device<B>, NoDevice<B>>
        requires unused { (session : Session) × (limits ≡ session.limits)
            × (end.view ≡ opening_device session) }
        ensures table { IfOk result (λ device. device.table ≡ end.table) }
        ensures view { IfOk result (λ device. device.view ≡ end.view) }
        ensures heads { IfOk result (λ device. device.heads ≡ plug_states B.state heads) }
        ensures shows { IfOk result (Shows (plug_states B.state heads)) }
        ensures no_memory { IfErr result (λ none. (none.end ≡ end) × (none.heads ≡ heads)) }
    {
        match parts(alloc, limits, end.opening_fence()) {
            Ok((machine, decoder, held)) => {
                end.facts();
                Ok(Device {
                    end,
                    machine,
                    decoder,
                    held,
                    heads,
                })
            }
            Err(_) => Err(NoDevice { end, heads }),
        }
    }

    /// Ends the device.
    pub fn close(self) -> DeviceClosed<B>
        ensures end { (result.end.table ≡ self.table) × (result.end.view ≡ self.view) }
        ensures kept { result.machine.kept ≡ self.view.kept }
        ensures pages { result.end.pages ≡ map.empty }
        ensures heads { plug_states B.state result.heads ≡ self.heads }
    {
        let Device {
            end,
            machine,
            decoder: _,
            held: _,
            heads,
        } = self;
        DeviceClosed {
            machine,
            heads,
            end,
        }
    }

    /// Reads words until one command is whole, serves it, and tells the heads what it changed. Where none is
    /// and the driver runs, it answers the request that is out, if one is.
    pub fn step(&mut self) -> Stepped
        ensures table { self.new.table ≡ self.old.table }
        ensures told { StepTold self.old self.new result }
        ensures shows { (first : List PlugState) → Shows first self.old → Shows first self.new }
        // A plug is dropped only where its head's count for the fault rose in this call.
        ensures dropped { Shows self.old.heads self.new }
    {
        let runs = self.end.read_config();
        let next = self.end.read_next();
        if read_command(&mut self.end, &mut self.decoder) {
            serve_whole(
                &mut self.end,
                &mut self.held,
                &mut self.machine,
                &mut self.heads,
                &self.decoder,
            );
            return Stepped::Ran;
        }
        if runs {
            if answer_request(&mut self.end, &mut self.held, &mut self.machine) {
                return Stepped::Answered;
            }
            return Stepped::Idle { next };
        }
        nothing_read(&self.end);
        Stepped::Stopped
    }
}

/// A machine at its opening with this fence, a decoder that has read nothing, and room for the pages that are
/// held.
fn parts(
    alloc: Global,
    limits: Limits,
    fence: u32,
) -> Result<(Machine, Decoder, HeldPages), AllocError>
    requires { AreLimits limits }
    ensures machine { IfOk result (λ parts. parts.0
        ≡ record { kept = record (opening_kept limits 1) { fence = fence }; chain = None }) }
    ensures decoder { IfOk result (λ parts. parts.1 ≡ fresh) }
    ensures held { IfOk result (λ parts. parts.2 ≡ []) }
{
    let regions = Regions::new(alloc, limits.pages, limits.frame_pages())?;
    let machine = Machine::opened(alloc, limits, regions, fence)?;
    let decoder = Decoder::new(alloc)?;
    let held = HeldPages::new(alloc)?;
    Ok((machine, decoder, held))
}

/// Serves the command that is whole.
fn serve_whole<B: Head>(
    end: &mut DeviceEnd,
    held: &mut HeldPages,
    machine: &mut Machine,
    heads: &mut HeadsOf<B>,
    decoder: &Decoder,
)
    requires whole { IsWhole end.old.view decoder.now }
    requires resting { IsResting end.old machine.old }
    requires empty { held.old ≡ [] }
    requires showing { SomeShow (pictures_of end.old.view.kept.screens) (plug_states B.state heads.old) }
    ensures table { end.new.table ≡ end.old.table }
    ensures served { (effect : Effect) × IsServedBy end.old.view end.new.view effect
        × (IsQuiet effect → heads.new ≡ heads.old) }
    ensures shows { ShowNext (pictures_of end.old.view.kept.screens) (pictures_of end.new.view.kept.screens)
        (plug_states B.state heads.old) (plug_states B.state heads.new) }
    ensures resting { IsResting end.new machine.new }
    ensures empty { held.new ≡ [] }
{
    match decoder.command() {
        Some(command) => {
            let _effect = serve(end, held, machine, heads, &command);
        }
        None => unreachable!(),
    }
}

/// Where the driver has stopped, and all words that were sent are read but for those of no whole command,
/// none is. It does nothing.
fn nothing_read(end: &DeviceEnd)
    requires stopped { end.now.view.saw_stopped ≡ true }
    requires drained { end.now.view.drained ≡ true }
    requires all_read { read_count end.now.view ≡ end.now.view.next }
    requires begun { IsCommandBegun end.now.view.read }
    ensures { end.now.view.read ≡ [] }
{
    one_answer();
    end.facts();
}
