//! What the threads of the machine tell one another beside the interrupts.
use crate::machine::DEVICE;
use std::sync::atomic::{AtomicBool, Ordering};
use std::thread::Parker;
use vm_threads::{Beds, Wake};

/// What the threads of the machine tell one another beside the interrupts.
#[derive(Drop)]
pub struct Signals {
    doorbell: AtomicBool,
    /// Those of two vCPUs and the device.
    pub beds: Beds<3>,
}

impl Signals {
    pub fn new() -> Self {
        Signals {
            doorbell: AtomicBool::new(false),
            beds: Beds::new([Parker::new(), Parker::new(), Parker::new()]),
        }
    }

    /// A vCPU writes to the device's doorbell.
    pub fn ring(&self) {
        self.doorbell.store(true, Ordering::SeqCst);
        self.beds.wake(DEVICE);
    }

    /// Whether a vCPU did.
    pub fn is_rung(&self) -> bool {
        self.doorbell.load(Ordering::SeqCst)
    }
}
