//! What the part of one interrupt reads, and what a write of it changes.
ghost use Rattle.std.specs.Prelude.{◌≡◌, ◌<◌, ◌^◌, IsTrue, true, false};
ghost use Rattle.gic_frame.specs.Words.{IsShape, has_interrupt, is_pending, IsIrq, IsRecordOf};
ghost use Rattle.gic_frame.specs.Part.{part_bits};
ghost use Rattle.gic_reg.specs.Condition.{has_part, is_routed, shows_route};
ghost use Rattle.gic_reg.specs.Touch.{part_read, part_written, with_named};

use crate::router::{affinity_in, router_with};
use gic_frame::{Group, GuestShape, Irq, Key, Kind, PRIORITY_STEP, Route, pending, target_in};

/// What the part of an ICFGR reads for an edge-triggered interrupt; for a level-sensitive one it reads 0.
const EDGE: u64 = 0b10;

/// What an interrupt's part of a register of this kind reads: 0 or 1, but for IPRIORITYR (the priority),
/// ICFGR (0 or 2) and IROUTER (Aff3 in bits [39:32], Aff2, Aff1 and Aff0 in bits [23:0]).
pub fn read_part(kind: Kind, irq: &Irq) -> u64
    requires irq { IsIrq irq.now }
    requires route { IsTrue (shows_route kind irq.now.route) }
    ensures value { result ≡ part_read kind irq.now }
    ensures fits { result < 2 ^ part_bits kind }
{
    match (kind, irq.route) {
        (Kind::Group, _) => match irq.group {
            Group::G0 => 0,
            Group::G1 => 1,
        },
        (Kind::SetEnable | Kind::ClearEnable, _) => u64::from(irq.enabled),
        (Kind::SetPending | Kind::ClearPending, _) => u64::from(pending(irq)),
        (Kind::SetActive | Kind::ClearActive, _) => u64::from(irq.act_by.is_some()),
        (Kind::Priority, _) => u64::from(irq.prio),
        (Kind::Config, _) => u64::from(irq.edge) * EDGE,
        (Kind::Routing, Route::Affinity(affinity)) => router_with(affinity),
        (Kind::Routing, Route::Target(_)) => unreachable!(),
    }
}

/// The record of an interrupt after a write of its part of a register of this kind. What the register does
/// not name stays. A write of 0 to a register that sets or clears changes nothing; nor does a write of
/// ISACTIVER where the interrupt is active or has no target, or of an SGI's part of ICFGR.
pub fn write_part(kind: Kind, key: Key, irq: &Irq, value: u64, shape: &GuestShape) -> Irq
    requires irq { IsIrq irq.now }
    requires shape { IsShape shape.now }
    requires there { IsTrue (has_interrupt shape.now key) }
    requires part { IsTrue (has_part kind key) }
    requires fits { value < 2 ^ part_bits kind }
    requires route { IsTrue (is_routed shape.now key irq.now.route) }
    ensures value { result ≡ part_written kind key irq.now value shape.now }
    ensures irq { IsIrq result }
    ensures route { IsTrue (is_routed shape.now key result.route) }
    ensures valid { IsRecordOf shape.now key irq.now → IsRecordOf shape.now key result }
    // With the fields that the register names put back, the record is the old one.
    ensures others_stay { with_named kind irq.now result ≡ irq.now }
    ensures level_stays { kind ≡ Kind.ClearPending → irq.now.edge ≡ false → irq.now.line ≡ true → IsTrue (is_pending result) }
{
    let is_one = value == 1;
    let mut after = *irq;
    match kind {
        Kind::Group => after.group = if is_one { Group::G1 } else { Group::G0 },
        Kind::SetEnable if is_one => after.enabled = true,
        Kind::ClearEnable if is_one => after.enabled = false,
        Kind::SetPending if is_one => after = irq.raised(),
        Kind::ClearPending if is_one => after = irq.cleared(),
        Kind::SetActive if is_one => after.act_by = irq.act_by.or(target_in(irq.route, shape)),
        Kind::ClearActive if is_one => after.act_by = None,
        Kind::Priority => after.prio = value as u8 / PRIORITY_STEP * PRIORITY_STEP,
        Kind::Config if !key.is_sgi() => after.edge = value / EDGE == 1,
        Kind::Routing => after.route = Route::Affinity(affinity_in(value)),
        _ => {}
    }
    after
}
