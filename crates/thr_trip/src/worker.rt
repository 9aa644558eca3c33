//! PEs and devices side by side, each in a thread of its own.
ghost use Rattle.std.specs.Prelude.{◌≡◌, ◌<◌, ◌≤◌, ℕ, All, length, slice_index_or};
ghost use Rattle.std.specs.Thread.{IsSync, IsSend};
ghost use Rattle.gic_io.specs.Words.{MAX_LIST_REGISTERS};
ghost use Rattle.vcpu_shelf.specs.Shelf.{shelf_told};
ghost use Rattle.thr_trip.specs.Worker.{CanWork, HasWorked};

use crate::pe::PeRun;
use crate::rider::{Loner, Rider, Turns};
use gic_io::Gate;
use std::sync::Wait;
use std::thread::{Threads, for_each_mut};
use vcpu_shelf::Shelf;

/// What has a thread of its own: a PE, or a device.
#[derive(Drop)]
pub enum Worker<T, D> {
    Pe(PeRun<T>),
    Device(D),
}

impl<T: Rider, D: Loner> Worker<T, D> {
    /// It does all that it has to do.
    fn run<R: Wait, G: Gate>(&mut self, rt: &R, shelf: &Shelf<T>, turns: Turns, gate: &G)
        requires lrs { 1 ≤ turns.lrs × turns.lrs ≤ MAX_LIST_REGISTERS }
        requires same { turns.lrs ≡ T.registers }
        requires can { CanWork D.is_new (shelf_told shelf.now) self.old }
        ensures { HasWorked D.has_finished (shelf_told shelf.now) self.old self.new }
    {
        match self {
            Worker::Pe(pe) => pe.run(rt, shelf, turns, gate),
            Worker::Device(device) => device.finish(rt),
        }
    }
}

/// All workers do, each in a thread of its own where one can be made.
pub fn run_all<R: Threads + Wait + Sync, T: Rider, D: Loner, G: Gate + Sync>(
    rt: &R,
    shelf: &Shelf<T>,
    turns: Turns,
    gate: &G,
    workers: &mut [Worker<T, D>],
)
    requires some { 0 < length workers.old }
    requires lrs { 1 ≤ turns.lrs × turns.lrs ≤ MAX_LIST_REGISTERS }
    requires same { turns.lrs ≡ T.registers }
    requires can { All (CanWork D.is_new (shelf_told shelf.now)) workers.old }
    ensures each { length workers.new ≡ length workers.old }
    ensures worked { (number : ℕ) (none : Worker T D) → number < length workers.old → HasWorked D.has_finished (shelf_told shelf.now) (slice_index_or workers.old number none) (slice_index_or workers.new number none) }
{
    let threads = workers.len();
    for_each_mut(
        rt,
        workers,
        threads,
        &|_number, worker|
            requires { IsSync R.row × (1 ≤ turns.lrs × turns.lrs ≤ MAX_LIST_REGISTERS) × (turns.lrs ≡ T.registers) × CanWork D.is_new (shelf_told shelf.now) worker.now }
            ensures { HasWorked D.has_finished (shelf_told shelf.entry.now) worker.entry.now worker.exit.now }
        { worker.run(rt, shelf, turns, gate) },
    );
}
