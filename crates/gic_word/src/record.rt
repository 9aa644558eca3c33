//! The record of one interrupt.
ghost use Rattle.std.specs.Prelude.{◌≡◌, ◌<◌};
ghost use Rattle.gic_base.specs.declared.shape.GuestShape.{GuestShape};
ghost use Rattle.gic_word.specs.Record.{is_pending, target_in as target_among, is_ripe};

use gic_base::GuestShape;

/// An interrupt group (IHI 0069, "Interrupt grouping"), with one security state.
#[derive(Clone, Copy, Debug, PartialEq, Eq, PartialOrd, Ord, Hash)]
pub enum Group {
    G0,
    G1,
}

/// Which vCPU an interrupt is for.
#[derive(Clone, Copy, Debug, PartialEq, Eq, Hash)]
pub enum Route {
    /// An SPI's affinity, as GICD_IROUTER stores it: Aff3, Aff2, Aff1 and Aff0 from the highest byte.
    /// vCPU k has the affinity k.
    Affinity(u32),
    /// The vCPU of a private interrupt or of an LPI, or none.
    Target(Option<u32>),
}

/// The record of one interrupt.
#[derive(Clone, Copy, Debug, PartialEq, Eq, Hash)]
pub struct Irq {
    /// A multiple of 8 from 0 to 248; lower is more urgent.
    pub prio: u8,
    /// Forwarded to the CPU interface.
    pub enabled: bool,
    pub group: Group,
    /// Edge-triggered, or else level-sensitive.
    pub edge: bool,
    /// The level of the wire.
    pub line: bool,
    /// The wire rose since the last acknowledge or clear.
    pub rise: bool,
    /// Made pending by a register, a message, an SGI, an INT command or an MSI.
    pub soft: bool,
    /// The vCPU at which the interrupt is active, or none.
    pub act_by: Option<u32>,
    /// The vCPU that has the interrupt at its interface, or none: always none in the ideal controller.
    pub holder: Option<u32>,
    /// An access waits for the interrupt: never in the ideal controller.
    pub want: bool,
    /// The interrupt's copy of GICD_CTLR.EnableGrp0.
    pub en0: bool,
    /// The interrupt's copy of GICD_CTLR.EnableGrp1.
    pub en1: bool,
    pub route: Route,
}

/// Whether an interrupt is pending (IHI 0069, "Interrupt handling state machine").
pub fn pending(irq: &Irq) -> bool
    ensures { result ≡ is_pending irq.now }
{
    let latched = if irq.edge { irq.rise } else { irq.line };
    latched || irq.soft
}

/// The vCPU that an interrupt is for. None where its target is none, or its affinity that of no vCPU of the
/// guest (IHI 0069, "Affinity routing").
pub fn target_in(route: Route, shape: &GuestShape) -> Option<u32>
    ensures { result ≡ target_among route shape.now }
{
    match route {
        Route::Affinity(affinity) => (affinity < shape.vcpus).then_some(affinity),
        Route::Target(target) => target,
    }
}

/// Whether an interrupt would be deliverable to a vCPU of its guest that listens to it, were it not active: it
/// is pending, enabled, in a group that the distributor forwards, and for this vCPU. It is for none that the
/// guest does not have, so the guest's shape does not matter.
pub fn ripe(irq: &Irq, vcpu: u32) -> bool
    ensures { (shape : GuestShape) → vcpu < shape.vcpus → result ≡ is_ripe irq.now vcpu shape }
{
    let forwarded = match irq.group {
        Group::G0 => irq.en0,
        Group::G1 => irq.en1,
    };
    let targeted = match irq.route {
        Route::Affinity(affinity) => affinity == vcpu,
        Route::Target(target) => target == Some(vcpu),
    };
    pending(irq) && irq.enabled && forwarded && targeted
}
