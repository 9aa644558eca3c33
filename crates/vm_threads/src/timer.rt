//! The line of a vCPU's own timer.
ghost use Rattle.std.specs.Prelude.{◌≡◌, ◌<◌, ◌≤◌, false, MatchBool};
ghost use Rattle.dev_port.specs.Core.{shape_of};
ghost use Rattle.dev_port.specs.Device.{CanCall};

use dev_port::{Key, Port, Wire, set_wire};

/// The line of a vCPU's own timer, or of another device that each vCPU has of its own: a PPI of that vCPU, with the level that
/// it has. It is a level; that the PPI is level-sensitive is the guest's part (GICR_ICFGR1).
#[derive(Debug, Drop)]
pub struct Timer {
    /// The vCPU that has the timer.
    pub vcpu: u32,
    /// The INTID of its PPI, 16 to 31: 27 is the virtual timer's in most systems.
    pub ppi: u32,
    /// Whether the line is up.
    pub up: bool,
    pub ghost from_sgis: { 16 ≤ ppi },
    pub ghost below_spis: { ppi < 32 },
}

impl Timer {
    ghost use Rattle.vm_threads.specs.Timer.{has_level, Moves};

    /// The line of a timer, which is down.
    pub fn new(vcpu: u32, ppi: u32) -> Self
        requires from_sgis { 16 ≤ ppi }
        requires below_spis { ppi < 32 }
        ensures vcpu { result.vcpu ≡ vcpu }
        ensures ppi { result.ppi ≡ ppi }
        ensures down { result.up ≡ false }
    {
        Timer {
            vcpu,
            ppi,
            up: false,
        }
    }

    /// Gives the line a level, over the port of a device of the guest, and tells the vCPU before it returns; a level that it has is
    /// nothing, and then nothing changes. The guest has the vCPU, and the device is at rest. It never waits over `SeqPort` and
    /// `TablePort`, and takes no memory.
    pub fn set<P: Port>(&mut self, port: &mut P, up: bool)
        requires there { self.old.vcpu < (shape_of (P.seen port.old)).vcpus }
        requires ready { CanCall (P.seen port.old) }
        ensures vcpu { self.new.vcpu ≡ self.old.vcpu }
        ensures ppi { self.new.ppi ≡ self.old.ppi }
        ensures level { self.new.up ≡ up }
        ensures moves { MatchBool (has_level self.old.up up) (P.seen port.new ≡ P.seen port.old) (Moves (P.seen port.old) (P.seen port.new) self.old.vcpu self.old.ppi up) }
        ensures ready { CanCall (P.seen port.new) }
    {
        let mut wire = Wire {
            key: Key::Private {
                vcpu: self.vcpu,
                id: self.ppi,
            },
            up: self.up,
        };
        let _ = set_wire(port, &mut wire, up);
        self.up = up;
    }
}
