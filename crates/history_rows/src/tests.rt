//! Histories that are fresh, and for each clause of fresh one that this clause alone refuses.
use history_play::{
    CallFound as Found, Cause, DeviceOp, Event, Frame, Group, GuestOp, GuestShape, GuestSpec,
    IccReg, Irq, Key, Kind, ListOf, Moment, NoMemory, Operation, Preset, PresetList, Refusal,
    Touching, check, opening_irq,
};
use std::alloc::{AllocError, Global};
use std::test::Fail;

/// Two vCPUs, SPIs 32 to 63, and a device, the actor 2.
const SHAPE: GuestShape = GuestShape {
    vcpus: 2,
    spis: 32,
    espis: 0,
    devices: 1,
    lpis: 0,
    ram: 0,
};

/// The device.
const DEVICE: u32 = 2;

fn preset(id: u32, prio: u8, edge: bool) -> Preset {
    Preset {
        id,
        prio,
        edge,
        group: 1,
        to: Some(0),
        vcpu: None,
    }
}

/// SPIs 40 and 42 are edge-triggered and 41 is level-sensitive, all for vCPU 0, and 42 comes before the others.
fn guest(alloc: Global) -> Result<GuestSpec, AllocError> {
    let mut presets: PresetList = ListOf::new(alloc);
    presets.push(preset(40, 0xA0, true))?;
    presets.push(preset(41, 0xA0, false))?;
    presets.push(preset(42, 0x20, true))?;
    Ok(GuestSpec {
        shape: SHAPE,
        on: true,
        presets,
    })
}

/// What happens in a history.
#[derive(Clone, Copy)]
pub(crate) enum Row {
    /// A call with one event.
    Call {
        actor: u32,
        operation: Operation,
        event: Event,
        found: Found,
        answer: Option<u64>,
    },
    /// A moment of a longer one.
    One {
        moment: Moment,
    },
}

fn call(actor: u32, operation: Operation, event: Event) -> Row {
    Row::Call {
        actor,
        operation,
        event,
        found: Found::Nothing,
        answer: None,
    }
}

/// A message of an SPI.
fn message(spi: u32) -> Row {
    let op = DeviceOp::Message { spi };
    call(
        DEVICE,
        Operation::Device { op },
        Event::Raise { key: Key::Spi(spi) },
    )
}

/// An SPI gets to a vCPU's interface as the vCPU enters a PE.
fn reach(vcpu: u32, spi: u32) -> Row {
    let key = Key::Spi(spi);
    call(vcpu, Operation::Residence, Event::Reach { key, vcpu })
}

/// It leaves as the vCPU leaves the PE.
fn leave(vcpu: u32, spi: u32) -> Row {
    let key = Key::Spi(spi);
    call(vcpu, Operation::Residence, Event::Leave { key, vcpu })
}

/// An access of a CPU interface register.
fn access(vcpu: u32, reg: IccReg, write: Option<u64>, value: Option<u64>) -> Row {
    Row::Call {
        actor: vcpu,
        operation: Operation::Access {
            op: GuestOp::Icc { reg, write },
        },
        event: Event::Cpu { vcpu, reg, write },
        found: Found::Answer { value },
        answer: value,
    }
}

pub(crate) fn reads(vcpu: u32, reg: IccReg, value: u64) -> Row {
    access(vcpu, reg, None, Some(value))
}

fn ends(vcpu: u32, id: u64) -> Row {
    access(vcpu, IccReg::Eoir1, Some(id), None)
}

pub(crate) fn begin(actor: u32, op: GuestOp) -> Row {
    Row::One {
        moment: Moment::Begin {
            actor,
            operation: Operation::Access { op },
        },
    }
}

pub(crate) fn happens(actor: u32, event: Event, found: Found) -> Row {
    Row::One {
        moment: Moment::Happens {
            actor,
            event,
            found,
        },
    }
}

pub(crate) fn end(actor: u32, answer: Option<u64>) -> Row {
    Row::One {
        moment: Moment::End { actor, answer },
    }
}

/// The moments of some rows.
fn moments(alloc: Global, rows: &[Row]) -> Result<ListOf<Moment>, AllocError> {
    let mut moments = ListOf::new(alloc);
    for row in rows {
        match *row {
            Row::One { moment } => moments.push(moment)?,
            Row::Call {
                actor,
                operation,
                event,
                found,
                answer,
            } => {
                moments.push(Moment::Begin { actor, operation })?;
                moments.push(Moment::Happens {
                    actor,
                    event,
                    found,
                })?;
                moments.push(Moment::End { actor, answer })?;
            }
        }
    }
    Ok(moments)
}

/// What is wrong with a history of a guest, if anything is.
pub(crate) fn play_on(
    alloc: Global,
    guest: &GuestSpec,
    rows: &[Row],
) -> Result<Option<Refusal>, NoMemory> {
    if !guest.is_good() {
        return Err(NoMemory);
    }
    let moments = moments(alloc, rows)?;
    check(alloc, guest, moments.as_slice())
}

/// The same of the guest of these rows.
fn play(alloc: Global, rows: &[Row]) -> Result<Option<Refusal>, NoMemory> {
    let guest = guest(alloc)?;
    play_on(alloc, &guest, rows)
}

/// SPI 40 after a message.
fn pending_irq() -> Irq {
    Irq {
        prio: 0xA0,
        enabled: true,
        group: Group::G1,
        edge: true,
        soft: true,
        ..opening_irq(true, Key::Spi(40))
    }
}

/// A message is acknowledged once, and ended.
fn served() -> [Row; 6] {
    [
        message(40),
        reach(0, 40),
        reads(0, IccReg::Iar1, 40),
        ends(0, 40),
        reads(0, IccReg::Iar1, 1023),
        leave(0, 40),
    ]
}

/// A message of a higher priority comes while the first is active, and is acknowledged over it, in an access in which the
/// first leaves the interface.
fn preempted() -> [Row; 12] {
    let acknowledge = GuestOp::Icc {
        reg: IccReg::Iar1,
        write: None,
    };
    [
        message(40),
        reach(0, 40),
        reads(0, IccReg::Iar1, 40),
        message(42),
        begin(0, acknowledge),
        happens(
            0,
            Event::Leave {
                key: Key::Spi(40),
                vcpu: 0,
            },
            Found::Nothing,
        ),
        happens(
            0,
            Event::Reach {
                key: Key::Spi(42),
                vcpu: 0,
            },
            Found::Nothing,
        ),
        happens(
            0,
            Event::Cpu {
                vcpu: 0,
                reg: IccReg::Iar1,
                write: None,
            },
            Found::Answer { value: Some(42) },
        ),
        end(0, Some(42)),
        reads(0, IccReg::Rpr, 0x20),
        ends(0, 42),
        reads(0, IccReg::Rpr, 0xA0),
    ]
}

/// A write of the distributor by vCPU 1 that touches SPI 40.
fn writes(offset: u32, size: u32, value: u64, touching: Touching) -> Row {
    Row::Call {
        actor: 1,
        operation: Operation::Access {
            op: GuestOp::Mem {
                frame: Frame::Dist,
                offset,
                size,
                write: Some(value),
            },
        },
        event: Event::Touch {
            key: Key::Spi(40),
            touching,
        },
        found: Found::Record { irq: pending_irq() },
        answer: None,
    }
}

/// vCPU 1 routes a pending interrupt to itself, and acknowledges it.
fn migrated() -> [Row; 5] {
    let touching = Touching::Register {
        kind: Kind::Routing,
        value: 1,
    };
    [
        message(40),
        writes(0x6140, 8, 1, touching),
        reads(0, IccReg::Iar1, 1023),
        reach(1, 40),
        reads(1, IccReg::Iar1, 40),
    ]
}

/// The record of an SPI after a message of SPI 40.
fn irq_of(spi: u32) -> Irq {
    let opening = opening_irq(true, Key::Spi(spi));
    match spi {
        40 => pending_irq(),
        41 => Irq {
            prio: 0xA0,
            enabled: true,
            group: Group::G1,
            ..opening
        },
        42 => Irq {
            prio: 0x20,
            enabled: true,
            group: Group::G1,
            edge: true,
            ..opening
        },
        _ => opening,
    }
}

/// vCPU 1 clears the pending state of SPI 40 by a write of ICPENDR1, which touches SPIs 32 to 63.
fn withdrawn(alloc: Global) -> Result<ListOf<Row>, AllocError> {
    let mut rows = ListOf::new(alloc);
    rows.push(message(40))?;
    rows.push(begin(
        1,
        GuestOp::Mem {
            frame: Frame::Dist,
            offset: 0x284,
            size: 4,
            write: Some(0x100),
        },
    ))?;
    for spi in 32..64 {
        let touching = Touching::Register {
            kind: Kind::ClearPending,
            value: u64::from(spi == 40),
        };
        let key = Key::Spi(spi);
        let irq = irq_of(spi);
        rows.push(happens(1, Event::Touch { key, touching }, Found::Record { irq }))?;
    }
    rows.push(end(1, None))?;
    rows.push(reads(0, IccReg::Iar1, 1023))?;
    Ok(rows)
}

/// What leaves an interface before an acknowledge is still pending.
fn returned() -> [Row; 5] {
    [
        message(40),
        reach(0, 40),
        leave(0, 40),
        reach(0, 40),
        reads(0, IccReg::Iar1, 40),
    ]
}

/// An acknowledge finds nothing while the call of a message is open.
fn in_flight() -> [Row; 6] {
    let key = Key::Spi(40);
    let operation = Operation::Device {
        op: DeviceOp::Message { spi: 40 },
    };
    let moment = Moment::Begin {
        actor: DEVICE,
        operation,
    };
    [
        Row::One { moment },
        happens(DEVICE, Event::Raise { key }, Found::Nothing),
        reads(0, IccReg::Iar1, 1023),
        end(DEVICE, None),
        reach(0, 40),
        reads(0, IccReg::Iar1, 40),
    ]
}

/// vCPU 1 is about to clear the pending state of SPI 40 by a write of GICD_CLRSPI_NSR.
fn begins_clear() -> Row {
    begin(
        1,
        GuestOp::Mem {
            frame: Frame::Dist,
            offset: 0x48,
            size: 4,
            write: Some(40),
        },
    )
}

/// The touch of a call that clears the pending state of an SPI.
fn clearing() -> Touching {
    Touching::Register {
        kind: Kind::ClearPending,
        value: 1,
    }
}

/// An acknowledge finds nothing while the call of vCPU 1 is open that is still to clear the interrupt.
fn awaited() -> [Row; 5] {
    let event = Event::Touch {
        key: Key::Spi(40),
        touching: clearing(),
    };
    let found = Found::Record { irq: pending_irq() };
    [
        message(40),
        begins_clear(),
        reads(0, IccReg::Iar1, 1023),
        happens(1, event, found),
        end(1, None),
    ]
}

/// The call that is open then ends without that, and only the next one does it.
fn put_off() -> [Row; 5] {
    [
        message(40),
        begins_clear(),
        reads(0, IccReg::Iar1, 1023),
        end(1, None),
        writes(0x48, 4, 40, clearing()),
    ]
}

#[test]
fn worked_histories_are_fresh(rt: HostRuntime) -> Result<(), Fail> {
    let alloc = rt.alloc();
    assert_eq!(rt; play(alloc, served().as_slice())?, None);
    assert_eq!(rt; play(alloc, preempted().as_slice())?, None);
    assert_eq!(rt; play(alloc, withdrawn(alloc)?.as_slice())?, None);
    assert_eq!(rt; play(alloc, migrated().as_slice())?, None);
    Ok(())
}

#[test]
fn what_leaves_comes_again(rt: HostRuntime) -> Result<(), Fail> {
    let alloc = rt.alloc();
    assert_eq!(rt; play(alloc, returned().as_slice())?, None);
    assert_eq!(rt; play(alloc, in_flight().as_slice())?, None);
    Ok(())
}

#[test]
fn an_open_call_is_awaited(rt: HostRuntime) -> Result<(), Fail> {
    let alloc = rt.alloc();
    assert_eq!(rt; play(alloc, awaited().as_slice())?, None);
    assert_eq!(rt;
        play(alloc, put_off().as_slice())?,
        refused(5, Cause::Acknowledge)
    );
    Ok(())
}

/// What is wrong with a history that ends so, in which a message of SPI 40 got to the interface of vCPU 0 first.
fn play_pending(alloc: Global, last: &[Row]) -> Result<Option<Refusal>, NoMemory> {
    let mut rows = ListOf::new(alloc);
    rows.push(message(40))?;
    rows.push(reach(0, 40))?;
    for row in last {
        rows.push(*row)?;
    }
    play(alloc, rows.as_slice())
}

pub(crate) fn refused(moment: usize, cause: Cause) -> Option<Refusal> {
    Some(Refusal { moment, cause })
}

/// SPI 40 is active when it leaves the interface, and is ended after that.
fn unended() -> [Row; 5] {
    let vcpu = 0;
    let reg = IccReg::Eoir1;
    let write = Some(40);
    let key = Key::Spi(40);
    [
        reads(0, IccReg::Iar1, 40),
        begin(0, GuestOp::Icc { reg, write }),
        happens(0, Event::Leave { key, vcpu }, Found::Nothing),
        happens(
            0,
            Event::Cpu { vcpu, reg, write },
            Found::Answer { value: None },
        ),
        end(0, None),
    ]
}

/// The wire of the level-sensitive SPI 41 is up, and it does not leave the interface as it is ended.
fn kept() -> [Row; 4] {
    let key = Key::Spi(41);
    let op = DeviceOp::Wire { key, up: true };
    [
        call(DEVICE, Operation::Device { op }, Event::Up { key }),
        reach(0, 41),
        reads(0, IccReg::Iar1, 41),
        ends(0, 41),
    ]
}

#[test]
fn each_clause_of_fresh_refuses(rt: HostRuntime) -> Result<(), Fail> {
    let alloc = rt.alloc();
    let overlooked = [message(40), reads(0, IccReg::Iar1, 1023)];
    assert_eq!(rt;
        play(alloc, overlooked.as_slice())?,
        refused(4, Cause::Acknowledge)
    );
    let outdated = [message(40), reads(0, IccReg::Rpr, 0xFF)];
    assert_eq!(rt;
        play_pending(alloc, outdated.as_slice())?,
        refused(10, Cause::Interface)
    );
    assert_eq!(rt;
        play_pending(alloc, unended().as_slice())?,
        refused(11, Cause::End)
    );
    assert_eq!(rt;
        play(alloc, kept().as_slice())?,
        refused(11, Cause::Deactivation)
    );
    Ok(())
}

#[test]
fn what_may_not_happen_is_refused(rt: HostRuntime) -> Result<(), Fail> {
    let alloc = rt.alloc();
    let elsewhere = [reach(1, 40)];
    assert_eq!(rt;
        play_pending(alloc, elsewhere.as_slice())?,
        refused(7, Cause::Forbidden)
    );
    let other = [reads(0, IccReg::Iar1, 41)];
    assert_eq!(rt;
        play_pending(alloc, other.as_slice())?,
        refused(7, Cause::Forbidden)
    );
    let again = [
        begin(
            0,
            GuestOp::Icc {
                reg: IccReg::Rpr,
                write: None,
            },
        ),
        leave(0, 40),
    ];
    assert_eq!(rt;
        play_pending(alloc, again.as_slice())?,
        refused(7, Cause::Forbidden)
    );
    Ok(())
}
