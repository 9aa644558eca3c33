//! PEs and devices do what they have to do, each in a thread.
ghost use Rattle.std.specs.Prelude.{◌≡◌, ◌≤◌, All, false, true};
ghost use Rattle.law_threads_are_history.specs.Words.{MAX_LIST_REGISTERS};
ghost use Rattle.thr_cast.specs.Crew.{has_pe};
ghost use Rattle.thr_cast.specs.ThrTrip.Worker.{CanWork};
ghost use Rattle.thr_cast.specs.VcpuShelf.Shelf.{shelf_told};
ghost use Rattle.run_thr.specs.Returned.{HaveReturned};

use std::sync::Wait;
use std::thread::Threads;
use thr_cast::{Gate, Hand, Naming, Shelf, Trip, Turns, run_all};

/// All of them do what they have to do, each in a thread of its own where one can be made.
pub fn run_crew<'a, J: Naming + Send, R: Threads + Wait + Sync, G: Gate + Sync>(
    rt: &R,
    shelf: &Shelf<Trip<'a, J>>,
    turns: Turns,
    gate: &G,
    workers: &mut Vec<Hand<'a, J>>,
)
    requires lrs { 1 ≤ turns.lrs × turns.lrs ≤ MAX_LIST_REGISTERS }
    requires same { turns.lrs ≡ J.lrs }
    requires pe { has_pe workers.old.items ≡ true }
    requires can { All (CanWork (λ device. device.done ≡ false) (shelf_told shelf.now)) workers.old.items }
    ensures { HaveReturned (shelf_told shelf.now) workers.old.items workers.new.items }
{
    run_all(rt, shelf, turns, gate, workers.as_mut_slice());
}
