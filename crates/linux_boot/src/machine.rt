//! The boot as a VMM has it: each access by its guest physical address or its system register, and the queue and the tables in the guest's memory.
ghost use Rattle.std.specs.Prelude.{⊤};

use gic_vm::{Encoding, GuestMemory, Layout, Machine, MachineSpec};
use json_field::{flag_at, number_at, number_or, pair_at, text_at};
use serde_json::Value;
use std::alloc::{AllocError, Global};

/// Where QEMU's board has the frames.
const LAYOUT: Layout = Layout {
    dist: 0x0800_0000,
    redist: 0x080A_0000,
    its: 0x0808_0000,
};

/// What was recorded: two CPUs.
const BOARD: MachineSpec = MachineSpec {
    vcpus: 2,
    spis: 224,
    espis: 0,
    lpis: 4096,
    layout: LAYOUT,
};

/// The bytes of a redistributor.
const REDIST_BYTES: u64 = 0x2_0000;

/// The bytes of the guest's memory, from address 0 on.
const MEMORY_BYTES: usize = 0x3_0000;

/// The bytes of a doubleword.
const DOUBLEWORD: usize = 8;

/// CRn, CRm and op2 of a system register, whose op0 is 3 and op1 is 0.
type Numbers = (u8, u8, u8);

/// The system registers of the recording.
const REGISTERS: [(&str, Numbers); 9] = [
    ("AP0R0", (12, 8, 4)),
    ("AP1R0", (12, 9, 0)),
    ("BPR1", (12, 12, 3)),
    ("CTLR", (12, 12, 4)),
    ("EOIR1", (12, 12, 1)),
    ("IAR1", (12, 12, 0)),
    ("IGRPEN1", (12, 12, 7)),
    ("PMR", (4, 6, 0)),
    ("SGI1R", (12, 11, 5)),
];

/// The guest's memory.
#[derive(Drop)]
struct Memory {
    bytes: Vec<u8>,
}

impl GuestMemory for Memory {
    ghost may_read = { λ _ _ _. ⊤ };

    fn read(&self, address: u64) -> Option<u64> {
        let first = usize::try_from(address).ok()?;
        let mut bytes = [0; DOUBLEWORD];
        for number in 0..DOUBLEWORD {
            bytes[number] = *self.bytes.get(first.checked_add(number)?)?;
        }
        Some(u64::from_le_bytes(bytes))
    }
}

impl Memory {
    /// The guest stores so many bytes of a value.
    fn store(&mut self, address: u64, size: u64, value: u64) -> Option<()> {
        let first = usize::try_from(address).ok()?;
        let bytes = value.to_le_bytes();
        for number in 0..usize::try_from(size).ok()? {
            *self.bytes.get_mut(first.checked_add(number)?)? = *bytes.get(number)?;
        }
        Some(())
    }
}

/// A small number of a step.
fn small(number: u64) -> Option<u32> {
    u32::try_from(number).ok()
}

/// The address that a step accesses in a frame.
fn address_of(step: &Value) -> Option<u64> {
    if let Some(offset) = number_at(step, "gicd") {
        return LAYOUT.dist.checked_add(offset);
    }
    if let Some(offset) = number_at(step, "gits") {
        return LAYOUT.its.checked_add(offset);
    }
    let frames = number_at(step, "of")?.checked_mul(REDIST_BYTES)?;
    let redist = LAYOUT.redist.checked_add(frames)?;
    redist.checked_add(number_at(step, "gicr")?)
}

/// The system register that a step accesses.
fn register_of(step: &Value) -> Option<Encoding> {
    let name = text_at(step, "icc")?;
    let (_, numbers) = REGISTERS.iter().find(|(known, _)| *known == name)?;
    let (crn, crm, op2) = *numbers;
    Some(Encoding {
        op0: 3,
        op1: 0,
        crn,
        crm,
        op2,
    })
}

/// Does what a step of a vCPU says, and answers what it reads. None where it is refused.
fn operate(machine: &mut Machine, memory: &mut Memory, vcpu: u32, step: &Value) -> Option<u64> {
    let write = number_at(step, "write");
    if let Some(address) = number_at(step, "ram") {
        memory.store(address, number_at(step, "size")?, write?)?;
        return Some(0);
    }
    if let Some(encoding) = register_of(step) {
        return machine
            .sysreg(vcpu, encoding, write)
            .ok()
            .map(|done| done.value);
    }
    let size = small(number_at(step, "size")?)?;
    let done = machine.mmio(vcpu, address_of(step)?, size, write, memory);
    done.ok().map(|done| done.value)
}

/// Does what a step of a device says. None where it is refused.
fn signal(machine: &mut Machine, step: &Value) -> Option<u64> {
    if let Some((device, event)) = pair_at(step, "msi") {
        machine.msi(small(device)?, small(event)?).ok()?;
        return Some(0);
    }
    let intid = small(number_at(step, "wire")?)?;
    let vcpu = small(number_or(step, "vcpu", 0)?)?;
    machine.wire(intid, vcpu, flag_at(step, "up")?).ok()?;
    Some(0)
}

/// Does a step. None where it is refused.
fn play(machine: &mut Machine, memory: &mut Memory, step: &Value) -> Option<u64> {
    if step.get("dev").is_some() {
        return signal(machine, step);
    }
    let (_, vcpu) = pair_at(step, "vcpu")?;
    operate(machine, memory, small(vcpu)?, step)
}

/// Whether a step reads.
fn is_read(step: &Value) -> bool {
    step.get("dev").is_none() && step.get("write").is_none()
}

/// A line for each read: the number of the step, and what it answered, as `run` writes it. A step that is refused has no line.
pub(crate) fn text_of_machine(alloc: Global, steps: &[Value]) -> Result<String, AllocError> {
    let mut text = String::new(alloc);
    let Ok(mut machine) = Machine::open(alloc, &BOARD) else {
        return Ok(text);
    };
    let mut memory = Memory {
        bytes: vec![in alloc; 0; MEMORY_BYTES]?,
    };
    for (place, step) in steps.iter().enumerate() {
        let number = place + 1;
        match play(&mut machine, &mut memory, step) {
            Some(value) if is_read(step) => {
                let line = format!(in alloc; "{number} 0x{value:016x}\n")?;
                text.push_str(line.as_str())?;
            }
            _ => {}
        }
    }
    Ok(text)
}
