//! The scenario of a number.
ghost use Rattle.std.specs.Prelude.{◌≡◌, ◌≤◌, IfOk, map};
ghost use Rattle.std.specs.List.{range_with_len};
ghost use Rattle.scn_base.specs.declared.step.Mode.{Mode};
ghost use Rattle.scn_base.specs.Good.{IsGood};
ghost use Rattle.gic_soak.specs.Generated.{preset as preset_of, guest as guest_made, steps_from, generated};

use crate::generator::{Generator, SPIS, VCPUS};
use scn_base::{
    FIRST_SPI, GuestShape, GuestSpec, Guests, MAX_STEPS, NoMemory, PRIORITY_STEP, Preset,
    PresetList, Scenario, Steps,
};
use std::alloc::{AllocError, Global};

/// How many PEs there are: each vCPU stands on one.
const PES: u32 = VCPUS;
/// How many list registers each PE has: fewer than there are interrupts.
const LIST_REGISTERS: u32 = 2;
/// How many priorities the presets have.
const PRIORITIES: u32 = 16;
/// The most urgent of them.
const FIRST_PRIORITY: u8 = 64;

/// What the guest has of each kind.
const SHAPE: GuestShape = GuestShape {
    vcpus: VCPUS,
    spis: SPIS,
    espis: 0,
    devices: 1,
    lpis: 0,
    ram: 0,
};

/// How an SPI opens.
fn preset(id: u32) -> Preset
    ensures { result ≡ preset_of id }
{
    Preset {
        id,
        prio: PRIORITY_STEP * (id % PRIORITIES) as u8 + FIRST_PRIORITY,
        edge: true,
        group: 1,
        to: Some(id % VCPUS),
        vcpu: None,
    }
}

/// The guest as it opens.
fn guest(alloc: Global) -> Result<GuestSpec, AllocError>
    ensures { IfOk result (λ guest. guest ≡ guest_made) }
{
    let mut presets = PresetList::new(alloc);
    for id in FIRST_SPI..FIRST_SPI + SPIS {
        presets.push(preset(id))?;
    }
    Ok(GuestSpec {
        shape: SHAPE,
        on: true,
        presets,
    })
}

/// So many steps, drawn from a number on.
fn draw_steps(alloc: Global, number: u64, count: u32) -> Result<Steps, AllocError>
    ensures { IfOk result (λ steps. steps ≡ steps_from count number) }
{
    let mut generator = Generator { state: number };
    let mut steps = Steps::new(alloc);
    for _ in 0..count {
        steps.push(generator.step())?;
    }
    Ok(steps)
}

/// The scenario that a number stands for, with so many steps, at most 100000. It is without a fault, and the same each
/// time. An error where memory for it is refused.
pub fn generate(alloc: Global, number: u64, steps: u32) -> Result<Scenario, NoMemory>
    requires { steps ≤ MAX_STEPS }
    ensures scenario { IfOk result (λ scenario. scenario ≡ generated number steps) }
    ensures good { IfOk result (IsGood Mode.Schedule) }
{
    let mut guests = Guests::new(alloc);
    guests.push(guest(alloc)?)?;
    Ok(Scenario {
        pes: PES,
        lrs: LIST_REGISTERS,
        guests,
        steps: draw_steps(alloc, number, steps)?,
    })
}
