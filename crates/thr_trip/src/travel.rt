//! A vCPU as the shelf sees it.
use crate::naming::Naming;
use crate::rider::{Rider, Turns};
use crate::trip::Trip;
use crate::visit::Passes;
use gic_io::Gate;
use std::sync::Wait;
use vcpu_shelf::Traveller;

impl<'a, J: Naming + Send> Traveller for Trip<'a, J> {
    ghost use Rattle.thr_trip.specs.Told.{trip_told};
    ghost use Rattle.thr_trip.specs.Trip.{is_done};

    ghost place = { λ trip. trip.place };

    ghost next = { λ trip. trip.vcpu.next };

    ghost done = { λ trip. is_done (trip_told trip) };

    fn place(&self) -> u32 {
        self.place
    }

    fn next(&self) -> u32 {
        self.vcpu.next
    }

    fn done(&self) -> bool {
        self.answers.len() == self.script.len()
    }
}

impl<'a, J: Naming + Send> Rider for Trip<'a, J> {
    ghost registers = { J.lrs };

    fn visit<R: Wait, G: Gate>(&mut self, rt: &R, turns: Turns, passes: &mut Passes<'_, G>) {
        self.visit_pe(rt, turns.lrs, turns.most, passes);
    }
}
