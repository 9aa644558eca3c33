//! A vCPU on its way from PE to PE.
ghost use Rattle.std.specs.Prelude.{◌≡◌, ◌<◌, ◌≤◌, length, vec_capacity};
ghost use Rattle.port_table.specs.Ports.{seen_of};
ghost use Rattle.thr_trip.specs.Trip.{IsTrip};

use crate::naming::Naming;
use crate::visit::{Passes, operate};
use gic_io::{Gate, GuestOp, ListOf};
use pe_place::{Shelved, enter, leave};
use port_table::TablePort;
use std::alloc::{AllocError, Global};
use std::marker::PhantomData;
use std::sync::Wait;

/// A vCPU that stands on no PE, with all that is its own: its script, its port, and what the operations of it answered that are
/// done.
#[derive(Drop)]
pub struct Trip<'a, J: Naming> {
    pub(crate) vcpu: Shelved,
    /// Its place among all vCPUs, in the order of guest and number.
    pub(crate) place: u32,
    pub(crate) script: ListOf<GuestOp>,
    port: TablePort<'a>,
    /// Room for all of them is there from the start.
    pub(crate) answers: Vec<Option<u64>>,
    run: PhantomData<J>,
    ghost few: { length script < 4294967296 },
    ghost room: { length script ≤ vec_capacity answers },
    ghost is: { IsTrip J.words J.lrs J.steps (record { vcpu = vcpu; place = place; script = script; answers = answers.items; seen = seen_of port }) },
}

/// The vCPU as it is on no PE.
fn copy_of(vcpu: &Shelved) -> Shelved
    ensures { result ≡ vcpu.now }
{
    Shelved {
        guest: vcpu.guest,
        vcpu: vcpu.vcpu,
        cpu: vcpu.cpu,
        next: vcpu.next,
    }
}

impl<'a, J: Naming> Trip<'a, J> {
    ghost use Rattle.std.specs.Prelude.{[], false, IfOk};
    ghost use Rattle.gic_io.specs.Words.{MAX_LIST_REGISTERS};
    ghost use Rattle.thr_trip.specs.Told.{trip_told};
    ghost use Rattle.thr_trip.specs.Trip.{is_done};

    /// A vCPU that has done nothing yet. An error where room for its answers is refused.
    pub fn new(
        alloc: Global,
        vcpu: Shelved,
        place: u32,
        script: ListOf<GuestOp>,
        port: TablePort<'a>,
    ) -> Result<Self, AllocError>
        requires few { length script < 4294967296 }
        requires is { IsTrip J.words J.lrs J.steps (record { vcpu = vcpu; place = place; script = script; answers = []; seen = seen_of port }) }
        ensures { IfOk result (λ trip. trip_told trip ≡ record { vcpu = vcpu; place = place; script = script; answers = []; seen = seen_of port.entry }) }
    {
        let answers = Vec::with_capacity(alloc, script.len())?;
        Ok(Trip {
            vcpu,
            place,
            script,
            port,
            answers,
            run: PhantomData,
        })
    }

    /// The vCPU enters a PE with so many list registers (1 to 16), does the next operations of its script, at most so many, and
    /// leaves the PE.
    pub(crate) fn visit_pe<R: Wait, G: Gate>(
        &mut self,
        rt: &R,
        lrs: u32,
        most: u32,
        passes: &mut Passes<'_, G>,
    )
        requires lrs { 1 ≤ lrs × lrs ≤ MAX_LIST_REGISTERS }
        requires same { lrs ≡ J.lrs }
        requires more { is_done (trip_told self.old) ≡ false }
        ensures { (trip_told self.new).place ≡ (trip_told self.old).place }
    {
        let mut loaded = enter(&mut self.port, copy_of(&self.vcpu), lrs);
        operate(
            rt,
            &mut self.port,
            &mut loaded,
            self.script.as_slice(),
            &mut self.answers,
            most,
            passes,
        );
        self.vcpu = leave(&mut self.port, loaded);
        self.vcpu.next = self.answers.len() as u32;
    }

    /// What is left of a vCPU that is done: its record, the answers of its script, and its port.
    pub fn into_parts(self) -> (Shelved, Vec<Option<u64>>, TablePort<'a>)
        ensures parts { (result.0 ≡ self.entry.vcpu) × (result.1.items ≡ (trip_told self.entry).answers) × (seen_of result.2 ≡ (trip_told self.entry).seen) }
        ensures is { IsTrip J.words J.lrs J.steps (trip_told self.entry) }
    {
        let Trip {
            vcpu,
            answers,
            port,
            ..
        } = self;
        (vcpu, answers, port)
    }
}
