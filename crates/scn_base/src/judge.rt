//! The faults of steps.
ghost use Rattle.std.specs.Prelude.{◌≡◌, ◌<◌, ◌&&◌, IsTrue, length};
ghost use Rattle.gic_guest.specs.Words.{IsShape, has_interrupt};
ghost use Rattle.scn_base.specs.Standing.{IsStanding};
ghost use Rattle.gic_guest.specs.Good.{has_wire as has_wire_of};
ghost use Rattle.scn_base.specs.Good.{may_move as may_move_by};
ghost use Rattle.scn_base.specs.StepFault.{step_fault};

use crate::fault::{
    ADDRESS, LIMIT, NOT_LOADED, PE_BUSY, PE_STEP, UNKNOWN_ACTOR, UNKNOWN_REGISTER, WIRE_LEVEL,
};
use crate::standing::{MovedWire, Standing};
use crate::step::{Mode, Step};
use gic_guest::{
    DeviceOp, GuestOp, GuestShape, Key, PeOp, SGI_COUNT, fits, has_frame, is_inside, is_size,
    is_usable, key_of,
};

/// Whether the wire of a guest's interrupt can be moved: there are wires of PPIs and of SPIs.
fn is_wired(shape: &GuestShape, key: Key) -> bool
    requires { IsShape shape.now }
    ensures { result ≡ (has_wire_of key && has_interrupt shape.now key) }
{
    match key {
        Key::Private { vcpu, id } => id >= SGI_COUNT && key_of(id, vcpu, shape) == Some(key),
        Key::Spi(id) => key_of(id, 0, shape) == Some(key),
        Key::Lpi(_) => false,
    }
}

/// Whether a device may move a wire to a level.
fn may_move(device: u32, up: bool, wire: Option<MovedWire>) -> bool
    ensures { result ≡ may_move_by device up wire }
{
    match wire {
        Some(wire) => wire.device == device && wire.up != up,
        None => up,
    }
}

impl Standing {
    /// The fault of a vCPU's operation.
    fn vcpu_fault(&self, mode: Mode, guest: u32, vcpu: u32, op: GuestOp) -> Option<u8>
        requires { IsStanding self.now }
        ensures { result ≡ step_fault mode self.now (Step.Vcpu guest vcpu op) }
    {
        match op {
            GuestOp::Icc { reg, write } => {
                if !is_usable(reg, write) {
                    return Some(UNKNOWN_REGISTER);
                }
                if !self.has_vcpu(guest, vcpu) {
                    return Some(UNKNOWN_ACTOR);
                }
                (!self.is_loaded(mode, guest, vcpu)).then_some(NOT_LOADED)
            }
            GuestOp::Mem {
                frame,
                offset,
                size,
                write,
            } => {
                if !is_size(size) || !fits(size, write) {
                    return Some(LIMIT);
                }
                let shape = match self.shape_of(guest) {
                    Some(shape) if vcpu < shape.vcpus && has_frame(&shape, frame) => shape,
                    _ => return Some(UNKNOWN_ACTOR),
                };
                if !self.is_loaded(mode, guest, vcpu) {
                    return Some(NOT_LOADED);
                }
                (!is_inside(&shape, frame, offset, size)).then_some(ADDRESS)
            }
        }
    }

    /// The fault of a device's operation.
    fn device_fault(&self, guest: u32, device: u32, op: DeviceOp) -> Option<u8>
        requires { IsStanding self.now }
        ensures { (mode : Mode) → result ≡ step_fault mode self.now (Step.Device guest device op) }
    {
        let shape = match self.shape_of(guest) {
            Some(shape) if device < shape.devices => shape,
            _ => return Some(UNKNOWN_ACTOR),
        };
        let is_there = match op {
            DeviceOp::Message { spi } => is_wired(&shape, Key::Spi(spi)),
            DeviceOp::Wire { key, .. } => is_wired(&shape, key),
            DeviceOp::Msi { .. } => shape.lpis > 0,
        };
        if !is_there {
            return Some(UNKNOWN_ACTOR);
        }
        match op {
            DeviceOp::Wire { key, up } if !may_move(device, up, self.wire(guest, key)) => {
                Some(WIRE_LEVEL)
            }
            _ => None,
        }
    }

    /// The fault of an operation of a PE that is there, on no threads.
    fn scheduled_fault(&self, pe: u32, op: PeOp) -> Option<u8>
        requires fine { IsStanding self.now }
        requires there { pe < length self.now.pes }
        ensures { result ≡ step_fault Mode.Schedule self.now (Step.Pe pe op) }
    {
        let resident = self.pes.as_slice()[pe as usize];
        match op {
            PeOp::Enter { guest, vcpu } if !self.has_vcpu(guest, vcpu) => Some(UNKNOWN_ACTOR),
            PeOp::Enter { guest, vcpu } if resident.is_some() || self.is_resident(guest, vcpu) => {
                Some(PE_BUSY)
            }
            PeOp::Exit if resident.is_none() => Some(NOT_LOADED),
            _ => None,
        }
    }

    /// The fault of an operation of a PE.
    fn pe_fault(&self, mode: Mode, pe: u32, op: PeOp) -> Option<u8>
        requires { IsStanding self.now }
        ensures { result ≡ step_fault mode self.now (Step.Pe pe op) }
    {
        match mode {
            Mode::Threads => match op {
                PeOp::Enter { guest, vcpu } if !self.has_vcpu(guest, vcpu) => Some(UNKNOWN_ACTOR),
                _ => Some(PE_STEP),
            },
            Mode::Schedule if pe as usize >= self.pes.len() => Some(UNKNOWN_ACTOR),
            Mode::Schedule => self.scheduled_fault(pe, op),
        }
    }

    /// The least code of the faults of a step that stands at this point of a scenario; none where it has none.
    pub fn fault_of(&self, mode: Mode, step: &Step) -> Option<u8>
        requires { IsStanding self.now }
        ensures { result ≡ step_fault mode self.now step.now }
    {
        match *step {
            Step::Vcpu { guest, vcpu, op } => self.vcpu_fault(mode, guest, vcpu, op),
            Step::Device { guest, device, op } => self.device_fault(guest, device, op),
            Step::Pe { pe, op } => self.pe_fault(mode, pe, op),
        }
    }
}
