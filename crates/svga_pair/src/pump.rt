//! A waiter that steps a device.
ghost use Rattle.std.specs.Prelude.{◌≡◌, Some};
ghost use Rattle.svga_device.specs.Devices.{Shows};

use crate::waiter::Waiter;
use std::marker::Model;
use std::sync::Wait;
use svga_device::Device;
use svga_head::Head;

/// Owns a device, and makes one of its steps each turn.
#[derive(Drop)]
pub struct Pump<B: Head> {
    device: Device<B>,
}

impl<B: Head> Model for Pump<B> {
    ghost use Rattle.std.specs.Coded.{codes};
    ghost use Rattle.std.specs.FinMap as map;
    ghost use Rattle.atomic_table.specs.Seated.{table_id_coded};
    ghost use Rattle.svga_device.specs.Devices.{DeviceHas};
    ghost use Rattle.svga_head.specs.PlugStates.{coded_plug_state};

    ghost Value = { DeviceHas };

    ghost coded = { Prim.hlevel (codes, map.code, table_id_coded, coded_plug_state) };

    ghost view = { λ p. p.device };
}

impl<B: Head> Pump<B> {
    pub fn new(device: Device<B>) -> Pump<B>
        ensures { result ≡ device }
    {
        Pump { device }
    }

    /// Gives the device back.
    pub fn into_device(self) -> Device<B>
        ensures { result ≡ self }
    {
        let Pump { device } = self;
        device
    }
}

impl<B: Head> Waiter for Pump<B> {
    ghost table = { λ p. Some p.table };

    ghost shows = { λ p first. Shows first p };

    fn turn<R: Wait>(&mut self, _rt: &R) {
        let _ = self.device.step();
    }
}
