//! A scenario of one guest, and the interrupts that it opens.
ghost use Rattle.std.specs.Prelude.{◌≡◌, ◌∷◌, [], IfOk, Some, None, true};

use floor_core::GuestShape;
use scn_base::{GuestSpec, ListOf, Preset, Scenario};
use std::alloc::{AllocError, Global};

/// A scenario without steps, of one guest with these presets, on one PE with four list registers; `on` says how GICD_CTLR and
/// the CPU interfaces open. An error where memory is refused.
pub fn one_guest(
    alloc: Global,
    shape: GuestShape,
    on: bool,
    presets: &[Preset],
) -> Result<Scenario, AllocError>
    ensures { IfOk result (λ scenario. scenario ≡ record { pes = 1; lrs = 4; guests = record { shape = shape; on = on; presets = presets.now } ∷ []; steps = [] }) }
{
    let mut guests = ListOf::new(alloc);
    guests.push(GuestSpec {
        shape,
        on,
        presets: ListOf::from(presets.to_vec(alloc)?),
    })?;
    Ok(Scenario {
        pes: 1,
        lrs: 4,
        guests,
        steps: ListOf::new(alloc),
    })
}

/// Opens an SPI in group 1 for a vCPU: at this priority, and edge-triggered or level-sensitive.
pub fn spi(id: u32, prio: u8, edge: bool, to: u32) -> Preset
    ensures { result ≡ record { id = id; prio = prio; edge = edge; group = 1; to = Some to; vcpu = None } }
{
    Preset {
        id,
        prio,
        edge,
        group: 1,
        to: Some(to),
        vcpu: None,
    }
}

/// Opens an SGI of a vCPU in group 1, at this priority.
pub fn sgi(id: u32, prio: u8, vcpu: u32) -> Preset
    ensures { result ≡ record { id = id; prio = prio; edge = true; group = 1; to = None; vcpu = Some vcpu } }
{
    Preset {
        id,
        prio,
        edge: true,
        group: 1,
        to: None,
        vcpu: Some(vcpu),
    }
}
