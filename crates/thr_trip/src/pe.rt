//! A PE of a run.
ghost use Rattle.std.specs.Prelude.{◌≡◌, ◌≤◌};
ghost use Rattle.gic_io.specs.Words.{MAX_LIST_REGISTERS};
ghost use Rattle.vcpu_shelf.specs.Shelf.{shelf_told, seat_told};

use crate::rider::{Rider, Turns};
use crate::visit::Passes;
use crossbeam_utils::Backoff;
use gic_io::Gate;
use std::sync::Wait;
use vcpu_shelf::{Shelf, ShelfSeat, Taken, put, take};

/// A PE, with its seat at the shelf.
#[derive(Drop)]
pub struct PeRun<T> {
    pub(crate) pe: u32,
    pub(crate) seat: ShelfSeat<T>,
}

impl<T: Rider> PeRun<T> {
    ghost use Rattle.thr_trip.specs.Seat.{IsFreeSeat, IsDoneSeat};

    /// The PE of a number, with its seat at the shelf.
    pub fn new(pe: u32, seat: ShelfSeat<T>) -> Self
        ensures pe { result.pe ≡ pe }
        ensures seat { seat_told result.seat ≡ seat_told seat }
    {
        PeRun { pe, seat }
    }

    /// Its seat.
    pub fn into_seat(self) -> ShelfSeat<T>
        ensures { seat_told result ≡ seat_told self.seat }
    {
        self.seat
    }

    /// It takes vCPUs from the shelf, each for a visit of at most so many operations, and puts them back, until all are done. While
    /// it finds none it waits.
    pub(crate) fn run<R: Wait, G: Gate>(&mut self, rt: &R, shelf: &Shelf<T>, turns: Turns, gate: &G)
        requires lrs { 1 ≤ turns.lrs × turns.lrs ≤ MAX_LIST_REGISTERS }
        requires same { turns.lrs ≡ T.registers }
        requires free { IsFreeSeat (shelf_told shelf.now) (seat_told self.old.seat) }
        ensures { IsDoneSeat (shelf_told shelf.now) (seat_told self.new.seat) }
    {
        let mut passes = Passes::new(gate, self.pe);
        let backoff = Backoff::new();
        for _ in rt.forever() {
            match take(shelf, &mut self.seat) {
                Taken::Vcpu(mut rider) => {
                    rider.visit(rt, turns, &mut passes);
                    put(shelf, &mut self.seat, rider);
                    backoff.reset();
                }
                Taken::Busy => backoff.snooze(),
                Taken::AllDone => return,
            }
        }
        unreachable!()
    }
}
