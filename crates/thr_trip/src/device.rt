//! A device of a run.
ghost use Rattle.std.specs.Prelude.{◌≡◌, false, IsTrue, All};
ghost use Rattle.pe_place.specs.DevPort.Device.{CanCall};
ghost use Rattle.pe_place.specs.Core.{shape_of};
ghost use Rattle.port_table.specs.Ports.{seen_of};
ghost use Rattle.port_table.specs.Calls.{is_good_event};
ghost use Rattle.thr_trip.specs.Device.{IsDevice, Receives};

use crate::naming::Naming;
use crate::rider::Loner;
use gic_io::{DeviceOp, ListOf};
use pe_place::device_op;
use port_table::{CorePort as Port, TablePort};
use std::marker::PhantomData;
use std::sync::Wait;

/// A device with its port, and the operations that it has to do.
#[derive(Drop)]
pub struct DeviceRun<'a, J: Naming> {
    pub(crate) guest: u32,
    pub(crate) device: u32,
    pub(crate) port: TablePort<'a>,
    pub(crate) script: ListOf<DeviceOp>,
    /// Whether they are done.
    pub(crate) done: bool,
    run: PhantomData<J>,
    ghost is: { IsDevice J.words J.steps (record { guest = guest; device = device; script = script; done = done; seen = seen_of port }) },
}

/// A device does operations, one after the other.
fn receive_all<P: Port, R: Wait>(rt: &R, port: &mut P, script: &[DeviceOp])
    requires ready { CanCall (P.seen port.old) }
    requires good { All (λ op. IsTrue (is_good_event (shape_of (P.seen port.old)) op)) script.now }
    ensures { Receives script.now (P.seen port.old) (P.seen port.new) }
{
    for op in script {
        device_op(rt, port, op);
    }
}

impl<'a, J: Naming> DeviceRun<'a, J> {
    ghost use Rattle.thr_trip.specs.Told.{device_told};
    ghost use Rattle.thr_trip.specs.Finish.{HasFinished};

    /// A device of a guest that has done nothing yet.
    pub fn new(guest: u32, device: u32, port: TablePort<'a>, script: ListOf<DeviceOp>) -> Self
        requires { IsDevice J.words J.steps (record { guest = guest; device = device; script = script; done = false; seen = seen_of port }) }
        ensures { device_told result ≡ record { guest = guest; device = device; script = script; done = false; seen = seen_of port.entry } }
    {
        DeviceRun {
            guest,
            device,
            port,
            script,
            done: false,
            run: PhantomData,
        }
    }

    /// It does its operations, one after the other.
    fn run<R: Wait>(&mut self, rt: &R)
        requires { (device_told self.old).done ≡ false }
        ensures { HasFinished (device_told self.old) (device_told self.new) }
    {
        receive_all(rt, &mut self.port, self.script.as_slice());
        self.done = true;
    }

    /// Its port.
    pub fn into_port(self) -> TablePort<'a>
        ensures port { seen_of result ≡ (device_told self.entry).seen }
        ensures is { IsDevice J.words J.steps (device_told self.entry) }
    {
        self.port
    }
}

impl<'a, J: Naming + Send> Loner for DeviceRun<'a, J> {
    ghost use Rattle.thr_trip.specs.Finish.{HasFinished};
    ghost use Rattle.thr_trip.specs.Told.{device_told};

    ghost is_new = { λ device. (device_told device).done ≡ false };

    ghost has_finished = { λ before after. HasFinished (device_told before) (device_told after) };

    fn finish<R: Wait>(&mut self, rt: &R) {
        self.run(rt);
    }
}
