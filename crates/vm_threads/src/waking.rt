//! A port that tells whom it kicks.
ghost use Rattle.std.specs.Prelude.{◌≡◌};
ghost use Rattle.vm_threads.specs.Waking.{kicked_by as kicked_vcpu};

use port_seq::{CorePort as Port, CoreStep, GuestShape, ItsTables, Local};

/// How the VMM gets a vCPU's PE to look for a kick: an IPI, or a wake-up of the thread that runs the vCPU.
pub trait Wake {
    /// A vCPU of the guest was kicked. Where guest code runs there, it is to exit; a thread that sleeps is to wake, and one that
    /// is about to sleep is not to fall asleep.
    fn wake(&self, vcpu: u32);
}

/// A port that wakes each vCPU that it kicks. A kick is a bit in a word of the guest; that a PE looks at it in time is the VMM's
/// part. It is a port as the one in it is.
#[derive(Drop)]
pub struct Waking<'w, P, W> {
    pub port: P,
    pub wake: &'w W,
}

/// The vCPU that a step kicks, if it kicks one: EnableLPIs does too.
fn kicked_by(step: &CoreStep) -> Option<u32>
    ensures { result ≡ kicked_vcpu step.now }
{
    match *step {
        CoreStep::Kick { vcpu } | CoreStep::EnableLpis { vcpu } => Some(vcpu),
        _ => None,
    }
}

impl<P: Port, W: Wake> Port for Waking<'_, P, W> {
    ghost seen = { λ waking. P.seen waking.port };

    ghost is_port = { λ waking. P.is_port waking.port };

    fn actor(&self) -> u32 {
        self.port.actor()
    }

    fn shape(&self) -> GuestShape {
        self.port.shape()
    }

    fn local(&self) -> Local {
        self.port.local()
    }

    fn local_ref(&self) -> &Local {
        self.port.local_ref()
    }

    fn step(&mut self, step: CoreStep) -> u64 {
        let found = self.port.step(step);
        if let Some(vcpu) = kicked_by(&step) {
            self.wake.wake(vcpu);
        }
        found
    }

    fn take_tables(&mut self) -> ItsTables {
        self.port.take_tables()
    }

    fn put_tables(&mut self, tables: ItsTables) {
        self.port.put_tables(tables);
    }
}
