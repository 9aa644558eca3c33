//! Which events a call makes that neither takes the ITS nor sets EnableLPIs, where the guest is as the call found it.
ghost use Rattle.std.specs.Prelude.{◌≡◌, ◌%◌, ◌^◌, ◌++◌, [], Bool, false, IsTrue, IfOk, OnOk, Some};
ghost use Rattle.std.specs.List.{cons_option};
ghost use Rattle.history_calls.specs.Words.{IsShape, has_interrupt};
ghost use Rattle.history_calls.specs.Registers.{is_size};
ghost use Rattle.history_calls.specs.Calls.{FitsHalf, FitsDist, FitsRedist, fits, View, ctlr_events as ctlr_events_of, sgi_events as sgi_events_of, icc_events as icc_events_of, device_events as device_events_of, dist_plain, dist_written as dist_written_by, dist_events as dist_events_by, redist_written as redist_written_by, redist_events as redist_events_by, sets_lpis, memory_written as memory_written_by, access_events as access_events_by};
ghost use Rattle.history_calls.specs.Exact.{is_plain, is_good, events_by, HasRecords};
ghost use Rattle.history_calls.specs.Found.{seen_by};

use crate::last::{lpis_at, word_at};
use crate::made::Made;
use crate::parts::{part, part_events};
use floor_calls::{
    DeviceOp, DistReg, DistRegRef as DistRef, Enables, Event, Frame, GuestOp, GuestShape, Half,
    IccReg, Key, Kind, ListOf, Operation, PlainWord, RedistReg, RedistRegRef as RedistRef,
    Touching, dist_access, enables_in, has_bit, insert, interrupt_count, key_at, key_of,
    message_intid, pendbaser_after, propbaser_after, redist_access, sgi_intid, sgi_targets, split,
};
use std::alloc::{AllocError, Global};

/// A write of 1 to an interrupt's part of ICPENDR.
const CLEAR: Touching = Touching::Register {
    kind: Kind::ClearPending,
    value: 1,
};

/// The low half of a value.
pub(crate) fn low(value: u64) -> u32
    ensures { result ≡ value % 2 ^ 32 }
{
    (value % (1 << 32)) as u32
}

/// One event, or none.
fn one_or_none(alloc: Global, event: Option<Event>) -> Result<ListOf<Event>, AllocError>
    ensures { IfOk result (λ events. events ≡ cons_option event []) }
{
    let mut events = ListOf::new(alloc);
    if let Some(one) = event {
        events.push(one)?;
    }
    Ok(events)
}

/// Whether the guest has an SPI with an INTID.
fn has_spi(shape: &GuestShape, id: u32) -> bool
    requires { IsShape shape.now }
    ensures { result ≡ has_interrupt shape.now (Key.Spi id) }
{
    key_of(id, 0, shape) == Some(Key::Spi(id))
}

/// Adds the SGIs of a write of ICC_SGI1R, in rising order of vCPU.
fn push_sgis(
    events: &mut ListOf<Event>,
    shape: &GuestShape,
    sender: u32,
    value: u64,
) -> Result<(), AllocError>
    requires { IsShape shape.now }
    ensures { OnOk result (events.new ≡ events.old ++ sgi_events_of shape.now sender value) }
{
    let targets = sgi_targets(value, sender, shape);
    let id = sgi_intid(value);
    for vcpu in 0..shape.vcpus {
        if has_bit(u64::from(targets.0), vcpu) {
            events.push(Event::Raise {
                key: Key::Private { vcpu, id },
            })?;
        }
    }
    Ok(())
}

/// The events of an access of a register of a vCPU's CPU interface.
fn icc_events(
    alloc: Global,
    shape: &GuestShape,
    vcpu: u32,
    reg: IccReg,
    write: Option<u64>,
) -> Result<ListOf<Event>, AllocError>
    requires { IsShape shape.now }
    ensures { IfOk result (λ events. events ≡ icc_events_of shape.now vcpu reg write) }
{
    let mut events = ListOf::new(alloc);
    events.push(Event::Cpu { vcpu, reg, write })?;
    if let (IccReg::Sgi1r, Some(value)) = (reg, write) {
        push_sgis(&mut events, shape, vcpu, value)?;
    }
    Ok(events)
}

/// The events of a write of GICD_CTLR: each interrupt gets a copy of its enables, in key order.
fn ctlr_events(
    alloc: Global,
    shape: &GuestShape,
    enables: Enables,
) -> Result<ListOf<Event>, AllocError>
    requires { IsShape shape.now }
    ensures { IfOk result (λ events. events ≡ ctlr_events_of shape.now enables) }
{
    let copy = Touching::Enables {
        en0: enables.group0,
        en1: enables.group1,
    };
    let mut events = ListOf::new(alloc);
    events.push(Event::CtlrBegin { enables })?;
    for place in 0..interrupt_count(shape) {
        let key = key_at(place, shape);
        events.push(Event::Touch {
            key,
            touching: copy,
        })?;
    }
    events.push(Event::CtlrEnd)?;
    Ok(events)
}

/// The event of an access of a half of an IROUTER, if there is such an SPI.
fn router_event(
    shape: &GuestShape,
    piece: &[Made],
    id: u32,
    half: Half,
    write: Option<u64>,
) -> Option<Event>
    requires shape { IsShape shape.now }
    requires records { HasRecords shape.now piece.now }
    requires fits { FitsHalf half write }
    ensures { (is_open : Bool) → cons_option result [] ≡ dist_plain shape.now (seen_by is_open piece.now) (DistReg.Router id) half write }
{
    if !has_spi(shape, id) {
        return None;
    }
    let kind = Kind::Routing;
    let touching = match write {
        None => Touching::Read { kind },
        Some(value) => Touching::Register {
            kind,
            value: half.written(part(shape, piece, Frame::Dist, kind, id, 0), value),
        },
    };
    Some(Event::Touch {
        key: Key::Spi(id),
        touching,
    })
}

/// That event as a list.
fn router_events(
    alloc: Global,
    shape: &GuestShape,
    piece: &[Made],
    id: u32,
    half: Half,
    write: Option<u64>,
) -> Result<ListOf<Event>, AllocError>
    requires shape { IsShape shape.now }
    requires records { HasRecords shape.now piece.now }
    requires fits { FitsHalf half write }
    ensures { IfOk result (λ events. (is_open : Bool) → events ≡ dist_plain shape.now (seen_by is_open piece.now) (DistReg.Router id) half write) }
{
    one_or_none(alloc, router_event(shape, piece, id, half, write))
}

/// The events of a write of a register of the distributor that has no part for each interrupt.
fn dist_written(
    alloc: Global,
    shape: &GuestShape,
    reg: DistReg,
    value: u64,
) -> Result<ListOf<Event>, AllocError>
    requires { IsShape shape.now }
    ensures { IfOk result (λ events. events ≡ dist_written_by shape.now reg value) }
{
    let id = message_intid(low(value));
    let key = Key::Spi(id);
    match reg {
        DistReg::Ctlr => ctlr_events(alloc, shape, enables_in(low(value))),
        DistReg::SetSpi if has_spi(shape, id) => one_or_none(alloc, Some(Event::Raise { key })),
        DistReg::ClrSpi if has_spi(shape, id) => one_or_none(
            alloc,
            Some(Event::Touch {
                key,
                touching: CLEAR,
            }),
        ),
        _ => Ok(ListOf::new(alloc)),
    }
}

/// The events of an access of the distributor.
fn dist_events(
    alloc: Global,
    shape: &GuestShape,
    piece: &[Made],
    reference: DistRef,
    write: Option<u64>,
) -> Result<ListOf<Event>, AllocError>
    requires shape { IsShape shape.now }
    requires records { HasRecords shape.now piece.now }
    requires fits { FitsDist reference write }
    ensures { IfOk result (λ events. (is_open : Bool) → events ≡ dist_events_by shape.now (seen_by is_open piece.now) reference write) }
{
    match (reference, write) {
        (DistRef::Bits { kind, first, count }, _) => {
            part_events(alloc, shape, Frame::Dist, kind, first, count, write)
        }
        (
            DistRef::Plain {
                reg: DistReg::Router { id },
                half,
            },
            _,
        ) => router_events(alloc, shape, piece, id, half, write),
        (DistRef::Plain { reg, .. }, Some(value)) => dist_written(alloc, shape, reg, value),
        _ => Ok(ListOf::new(alloc)),
    }
}

/// The event of a write of a register of a redistributor that has no part for each interrupt and does not set EnableLPIs.
fn redist_event(
    shape: &GuestShape,
    piece: &[Made],
    is_open: bool,
    vcpu: u32,
    reg: RedistReg,
    half: Half,
    value: u64,
) -> Option<Event>
    requires fits { FitsHalf half (Some value) }
    requires plain { sets_lpis shape.now (RedistRef.Plain reg half) (Some value) ≡ false }
    ensures { cons_option result [] ≡ redist_written_by shape.now (seen_by is_open piece.now) vcpu reg half value }
{
    let _ = shape;
    let enabled = lpis_at(piece, is_open, vcpu);
    match reg {
        RedistReg::Propbaser if !enabled => {
            let word = PlainWord::Propbaser { vcpu };
            let stored = word_at(piece, word);
            let value = propbaser_after(false, stored, half.written(stored, value));
            Some(Event::Put { word, value })
        }
        RedistReg::Pendbaser if !enabled => {
            let word = PlainWord::Pendbaser { vcpu };
            let stored = word_at(piece, word);
            let value = pendbaser_after(false, stored, half.written(stored, value));
            Some(Event::Put { word, value })
        }
        _ => None,
    }
}

/// The events of an access of a vCPU's redistributor that does not set EnableLPIs.
fn redist_events(
    alloc: Global,
    shape: &GuestShape,
    piece: &[Made],
    is_open: bool,
    vcpu: u32,
    reference: RedistRef,
    write: Option<u64>,
) -> Result<ListOf<Event>, AllocError>
    requires shape { IsShape shape.now }
    requires fits { FitsRedist reference write }
    requires plain { sets_lpis shape.now reference write ≡ false }
    ensures { IfOk result (λ events. events ≡ redist_events_by shape.now (seen_by is_open piece.now) vcpu reference write) }
{
    match (reference, write) {
        (RedistRef::Bits { kind, first, count }, _) => part_events(
            alloc,
            shape,
            Frame::Redist { vcpu },
            kind,
            first,
            count,
            write,
        ),
        (RedistRef::Plain { reg, half }, Some(value)) => one_or_none(
            alloc,
            redist_event(shape, piece, is_open, vcpu, reg, half, value),
        ),
        _ => Ok(ListOf::new(alloc)),
    }
}

/// The event of a write of memory, where it is the guest's.
fn memory_event(
    shape: &GuestShape,
    piece: &[Made],
    offset: u32,
    size: u32,
    value: u64,
) -> Option<Event>
    requires shape { IsShape shape.now }
    requires size { IsTrue (is_size size) }
    requires fits { IsTrue (fits size (Some value)) }
    ensures { (is_open : Bool) → cons_option result [] ≡ memory_written_by shape.now (seen_by is_open piece.now) offset size value }
{
    let part = split(u64::from(offset), size, shape.ram)?;
    let word = PlainWord::Ram { index: part.index };
    let value = insert(word_at(piece, word), &part, value);
    Some(Event::Put { word, value })
}

/// That event as a list.
fn memory_events(
    alloc: Global,
    shape: &GuestShape,
    piece: &[Made],
    offset: u32,
    size: u32,
    value: u64,
) -> Result<ListOf<Event>, AllocError>
    requires shape { IsShape shape.now }
    requires size { IsTrue (is_size size) }
    requires fits { IsTrue (fits size (Some value)) }
    ensures { IfOk result (λ events. (is_open : Bool) → events ≡ memory_written_by shape.now (seen_by is_open piece.now) offset size value) }
{
    one_or_none(alloc, memory_event(shape, piece, offset, size, value))
}

/// The events of an access of memory or of a memory-mapped register.
fn access_events(
    alloc: Global,
    shape: &GuestShape,
    piece: &[Made],
    is_open: bool,
    frame: Frame,
    offset: u32,
    size: u32,
    write: Option<u64>,
) -> Result<ListOf<Event>, AllocError>
    requires shape { IsShape shape.now }
    requires records { HasRecords shape.now piece.now }
    requires good { IsTrue (is_good shape.now (Operation.Access (GuestOp.Mem frame offset size write))) }
    requires plain { IsTrue (is_plain shape.now (Operation.Access (GuestOp.Mem frame offset size write))) }
    ensures { IfOk result (λ events. events ≡ access_events_by shape.now (seen_by is_open piece.now) frame offset size write) }
{
    match (frame, write) {
        (Frame::Dist, _) => dist_events(
            alloc,
            shape,
            piece,
            dist_access(offset, size, write),
            write,
        ),
        (Frame::Redist { vcpu }, _) => {
            let reference = redist_access(offset, size, write);
            redist_events(alloc, shape, piece, is_open, vcpu, reference, write)
        }
        (Frame::Ram, Some(value)) => { memory_events(alloc, shape, piece, offset, size, value) }
        (Frame::Its, _) => Ok(ListOf::new(alloc)),
        (Frame::Ram, None) => Ok(ListOf::new(alloc)),
    }
}

/// The event of a message or a wire.
fn device_event(shape: &GuestShape, op: DeviceOp) -> Option<Event>
    requires { IsTrue (is_plain shape.now (Operation.Device op)) }
    ensures { (view : View) → cons_option result [] ≡ device_events_of view op }
{
    let _ = shape;
    match op {
        DeviceOp::Message { spi } => Some(Event::Raise { key: Key::Spi(spi) }),
        DeviceOp::Wire { key, up: true } => Some(Event::Up { key }),
        DeviceOp::Wire { key, up: false } => Some(Event::Down { key }),
        DeviceOp::Msi { .. } => None,
    }
}

/// The events of an operation.
pub fn events_of(
    alloc: Global,
    shape: &GuestShape,
    actor: u32,
    piece: &[Made],
    is_open: bool,
    operation: &Operation,
) -> Result<ListOf<Event>, AllocError>
    requires shape { IsShape shape.now }
    requires records { HasRecords shape.now piece.now }
    requires good { IsTrue (is_good shape.now operation.now) }
    requires plain { IsTrue (is_plain shape.now operation.now) }
    ensures { IfOk result (λ events. events ≡ events_by shape.now actor (seen_by is_open piece.now) operation.now) }
{
    match *operation {
        Operation::Access {
            op: GuestOp::Icc { reg, write },
        } => icc_events(alloc, shape, actor, reg, write),
        Operation::Access {
            op: GuestOp::Mem {
                frame,
                offset,
                size,
                write,
            },
        } => { access_events(alloc, shape, piece, is_open, frame, offset, size, write) }
        Operation::Device { op } => one_or_none(alloc, device_event(shape, op)),
        Operation::Residence => Ok(ListOf::new(alloc)),
    }
}
