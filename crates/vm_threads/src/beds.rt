//! Where the threads of a machine sleep.
use crate::waking::Wake;
use std::sync::Wait;
use std::sync::atomic::{AtomicBool, Ordering};
use std::thread::Parker;

/// Where the thread of each actor sleeps, by the actor's number, and whether all are to stop.
#[derive(Drop)]
pub struct Beds<const ACTORS: usize> {
    beds: [Parker; ACTORS],
    stop: AtomicBool,
}

impl<const ACTORS: usize> Beds<ACTORS> {
    /// For these actors, of which none sleeps.
    pub fn new(beds: [Parker; ACTORS]) -> Self {
        Beds {
            beds,
            stop: AtomicBool::new(false),
        }
    }

    /// The thread of an actor sleeps until it is woken; at once where it was, or the machine has no such actor.
    pub fn sleep<R: Wait>(&self, rt: &R, actor: u32) {
        if let Some(bed) = self.beds.get(actor as usize) {
            bed.park(rt);
        }
    }

    /// All threads are to stop.
    pub fn stop(&self) {
        self.stop.store(true, Ordering::SeqCst);
        self.beds.iter().for_each(|bed| bed.unpark());
    }

    /// Whether they are.
    pub fn is_stopped(&self) -> bool {
        self.stop.load(Ordering::SeqCst)
    }
}

impl<const ACTORS: usize> Wake for Beds<ACTORS> {
    /// Wakes the thread of an actor, or lets it not fall asleep the next time: as an IPI to a PE does.
    fn wake(&self, actor: u32) {
        if let Some(bed) = self.beds.get(actor as usize) {
            bed.unpark();
        }
    }
}
