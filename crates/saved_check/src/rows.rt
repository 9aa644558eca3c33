//! One CPU interface, interrupt, redistributor, ITS or word of memory.
ghost use Rattle.std.specs.Prelude.{◌≡◌, ◌≤◌, ◌↔◌, ◌||◌, not, IsTrue};
ghost use Rattle.saved_guest.specs.IdealGuests.Words.{IsShape, has_interrupt, is_vcpu_or_none as is_vcpu_or_none_of};
ghost use Rattle.saved_guest.specs.IdealGuests.Registers.{has_lpis};
ghost use Rattle.saved_guest.specs.IdealGuests.Calls.{has_wire as has_wire_of};
ghost use Rattle.saved_guest.specs.IdealGuests.CanOpen.{is_own as is_own_of};
ghost use Rattle.saved_guest.specs.Valid.{is_of_its_kind as is_of_kind, is_route as is_route_of, is_device_or_none as is_device_or_none_of, is_unwired as is_unwired_rec, is_fault as is_fault_of, IsValidCpu, IsValidRec, IsValidRedist, IsValidIts, IsValidWord};

use saved_guest::{
    CpuState, GuestShape, ItsState, Key, MAX_GROUP, MAX_PRIORITY, PRIORITY_STEP, RamState,
    RecState, RedistState, SGI_COUNT, Table, baser, cbaser_after, key_of, pendbaser_after,
    propbaser_after, queue_bytes,
};

/// The least binary points of group 0 and of group 1, and the greatest of both.
const MIN_POINT_0: u8 = 2;

const MIN_POINT_1: u8 = 3;

const MAX_POINT: u8 = 7;
/// The numbers of the faults of a command: the greatest of those that have a row, and that of what is no command.
const MAX_FAULT: u8 = 8;

const UNKNOWN_COMMAND: u8 = 10;
/// The bytes of one command.
const COMMAND_BYTES: u32 = 32;
/// The bytes of a word of memory.
const WORD_BYTES: u32 = 8;

/// Whether binary points are ones that their registers can hold.
fn are_points(bpr0: u8, bpr1: u8) -> bool
    ensures { IsTrue result ↔ ((2 ≤ bpr0) × (bpr0 ≤ 7) × (3 ≤ bpr1) × (bpr1 ≤ 7)) }
{
    (MIN_POINT_0..=MAX_POINT).contains(&bpr0) && (MIN_POINT_1..=MAX_POINT).contains(&bpr1)
}

/// Whether a vCPU may have EnableLPIs so: it is 0 in a guest without LPIs.
fn may_enable(shape: &GuestShape, lpis: bool) -> bool
    ensures { result ≡ (has_lpis shape.now || not lpis) }
{
    shape.lpis > 0 || !lpis
}

/// Whether the registers of a CPU interface hold what writes can leave in them.
pub(crate) fn is_valid_cpu(cpu: &CpuState, shape: &GuestShape) -> bool
    ensures { IsTrue result ↔ IsValidCpu shape.now cpu.now }
{
    let cpu = *cpu;
    cpu.pmr <= MAX_PRIORITY
        && cpu.pmr % PRIORITY_STEP == 0
        && are_points(cpu.bpr0, cpu.bpr1)
        && may_enable(shape, cpu.lpis)
}

/// Whether the guest has an interrupt.
fn has(shape: &GuestShape, key: Key) -> bool
    requires { IsShape shape.now }
    ensures { result ≡ has_interrupt shape.now key }
{
    match key {
        Key::Private { vcpu, id } => key_of(id, vcpu, shape) == Some(key),
        Key::Spi(id) | Key::Lpi(id) => key_of(id, 0, shape) == Some(key),
    }
}

/// Whether an interrupt has a wire: a PPI or an SPI.
fn has_wire(key: Key) -> bool
    ensures { result ≡ has_wire_of key }
{
    match key {
        Key::Private { id, .. } => id >= SGI_COUNT,
        Key::Spi(_) => true,
        Key::Lpi(_) => false,
    }
}

/// Whether a record is edge-triggered, of group 1 and not active where its interrupt has to be so.
fn is_of_its_kind(rec: &RecState) -> bool
    ensures { result ≡ is_of_kind rec.now rec.now.key }
{
    match rec.key {
        Key::Private { id, .. } => id >= SGI_COUNT || rec.edge,
        Key::Spi(_) => true,
        Key::Lpi(_) => rec.edge && rec.group == MAX_GROUP && rec.act.is_none(),
    }
}

/// Whether a number, if there is one, is of a vCPU of the guest.
fn is_vcpu_or_none(shape: &GuestShape, vcpu: Option<u32>) -> bool
    ensures { result ≡ is_vcpu_or_none_of shape.now vcpu }
{
    match vcpu {
        Some(vcpu) => vcpu < shape.vcpus,
        None => true,
    }
}

/// Whether a number, if there is one, is of a device of the guest.
fn is_device_or_none(shape: &GuestShape, device: Option<u32>) -> bool
    ensures { result ≡ is_device_or_none_of shape.now device }
{
    match device {
        Some(device) => device < shape.devices,
        None => true,
    }
}

/// Whether an interrupt can be active by a vCPU, if there is one: a private one by its own.
fn is_own(key: Key, vcpu: Option<u32>) -> bool
    ensures { result ≡ is_own_of key vcpu }
{
    match (key, vcpu) {
        (Key::Private { vcpu: own, .. }, Some(vcpu)) => own == vcpu,
        _ => true,
    }
}

/// Whether it is said for whom an interrupt is as it has to be.
fn is_route(shape: &GuestShape, key: Key, route: Option<u32>) -> bool
    ensures { result ≡ is_route_of shape.now key route }
{
    match key {
        Key::Private { .. } => route.is_none(),
        Key::Spi(_) => route.is_some(),
        Key::Lpi(_) => is_vcpu_or_none(shape, route),
    }
}

/// Whether nothing is said of a wire.
fn is_unwired(rec: &RecState) -> bool
    ensures { result ≡ is_unwired_rec rec.now }
{
    !rec.line && !rec.rise && rec.mover.is_none()
}

/// Whether a record is one that its interrupt can have, which the guest has.
pub(crate) fn is_valid_rec(rec: &RecState, shape: &GuestShape) -> bool
    requires { IsShape shape.now }
    ensures { IsTrue result ↔ IsValidRec shape.now rec.now }
{
    has(shape, rec.key)
        && rec.group <= MAX_GROUP
        && rec.prio <= MAX_PRIORITY
        && rec.prio % PRIORITY_STEP == 0
        && is_of_its_kind(rec)
        && (has_wire(rec.key) || is_unwired(rec))
        && is_vcpu_or_none(shape, rec.act)
        && is_own(rec.key, rec.act)
        && is_route(shape, rec.key, rec.route)
        && is_device_or_none(shape, rec.mover)
}

/// Whether the registers of a redistributor have only bits that are stored.
pub(crate) fn is_valid_redist(redist: &RedistState) -> bool
    ensures { IsTrue result ↔ IsValidRedist redist.now }
{
    redist.propbaser == propbaser_after(false, 0, redist.propbaser)
        && redist.pendbaser == pendbaser_after(false, 0, redist.pendbaser)
}

/// Whether a queue can have stalled at a fault of this number, which is 0 where it is not stalled.
fn is_fault(stalled: bool, fault: u8) -> bool
    ensures { result ≡ is_fault_of stalled fault }
{
    if stalled {
        (1..=MAX_FAULT).contains(&fault) || fault == UNKNOWN_COMMAND
    } else {
        fault == 0
    }
}

/// Whether the registers of the ITS have only bits that are stored, and the places in its queue are of commands.
pub(crate) fn is_valid_its(its: &ItsState) -> bool
    ensures { IsTrue result ↔ IsValidIts its.now }
{
    let bytes = queue_bytes(its.cbaser);
    its.cbaser == cbaser_after(false, 0, its.cbaser)
        && its.cwriter < u64::from(bytes)
        && its.cwriter % u64::from(COMMAND_BYTES) == 0
        && its.offset < bytes
        && its.offset % COMMAND_BYTES == 0
        && is_fault(its.stalled, its.fault)
        && its.baser0 == baser(Table::Devices, its.baser0)
        && its.baser1 == baser(Table::Collections, its.baser1)
}

/// Whether the guest has a word of memory.
pub(crate) fn is_valid_word(ram: &RamState, shape: &GuestShape) -> bool
    ensures { IsTrue result ↔ IsValidWord shape.now ram.now }
{
    let ram = *ram;
    ram.index < shape.ram / WORD_BYTES
}
