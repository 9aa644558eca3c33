//! The machine: what its guest has, where the frames of the GIC are among the guest physical addresses, and why a vCPU leaves guest code.
ghost use Rattle.std.specs.Prelude.{IsTrue, IfSome};
ghost use Rattle.gic_msi.specs.Words.{IsShape};
ghost use Rattle.port_table.specs.Calls.{is_good_op as is_good_op_of};

use gic_vm::Layout;
use port_seq::{Frame, GuestOp, GuestShape, IccReg, is_good_op};

/// Two vCPUs, SPIs 32 to 63, LPIs 8192 to 8207 with an ITS, 64 KiB of memory that the GIC reads, and one device.
pub const SHAPE: GuestShape = GuestShape {
    vcpus: 2,
    spis: 32,
    espis: 0,
    devices: 1,
    lpis: 16,
    ram: 0x1_0000,
};

/// The number of the device among the actors: it comes after the vCPUs.
pub const DEVICE: u32 = 2;
/// The list registers of each PE.
pub const LIST_REGISTERS: u32 = 4;
/// The distributor, the ITS, the redistributors one after the other, and the register of the device.
pub const GICD: u64 = 0x0800_0000;

pub const GITS: u64 = 0x0808_0000;

pub const GICR: u64 = 0x080A_0000;

pub const DOORBELL: u64 = 0x0A00_0000;
/// Where the frames are.
const LAYOUT: Layout = Layout {
    dist: GICD,
    redist: GICR,
    its: GITS,
};

/// Why a vCPU leaves guest code.
#[derive(Clone, Copy, Debug, PartialEq, Eq)]
pub enum Exit {
    /// A load of so many bytes at a guest physical address traps, or a store of the value.
    Mmio {
        address: u64,
        size: u32,
        write: Option<u64>,
    },
    /// A read of a register of the CPU interface traps, or a write of the value.
    Register {
        reg: IccReg,
        write: Option<u64>,
    },
    /// WFI: guest code goes on once an interrupt is pending for the vCPU.
    WaitForInterrupt,
}

/// The frame at a guest physical address, and the offset in it; the memory begins at 0. None where neither is there.
fn frame_at(shape: &GuestShape, address: u64) -> Option<(Frame, u32)>
    requires { IsShape shape.now }
{
    match u32::try_from(address) {
        Ok(offset) if offset < shape.ram => Some((Frame::Ram, offset)),
        _ => LAYOUT.frame_at(shape, address),
    }
}

/// The operation that an exit is. None where it is none that the guest can do.
pub fn operation_of(shape: &GuestShape, exit: Exit) -> Option<GuestOp>
    ensures { IfSome result (λ op. IsTrue (is_good_op_of shape.now op)) }
{
    if !shape.is_in_range() {
        return None;
    }
    let op = match exit {
        Exit::Register { reg, write } => GuestOp::Icc { reg, write },
        Exit::Mmio {
            address,
            size,
            write,
        } => {
            let (frame, offset) = frame_at(shape, address)?;
            GuestOp::Mem {
                frame,
                offset,
                size,
                write,
            }
        }
        Exit::WaitForInterrupt => return None,
    };
    is_good_op(shape, &op).then_some(op)
}
