//! Accesses of the frames and of the guest's memory, one after the other, and what they leave.
ghost use Rattle.std.specs.Prelude.{◌≡◌, IsTrue};
ghost use Rattle.port_seq.specs.Registers.{is_size as is_size_of};
ghost use Rattle.port_seq.specs.Calls.{fits as fits_in};
ghost use Rattle.pe_mem.specs.Call.{CanAccess};

use crate::entry::enter_told;
use pe_icc::{Port, leave};
use pe_mem::{
    CoreStep, GuestShape, Missed, WordId, dist_op, give_turn, memory_op, redist_op, settle, shut,
    take_turn, touch, try_access,
};
use port_rest::{is_off, one_guest, spi};
use port_seq::{Key, Kind, Mode, Scenario, SeqPort, Touching, target_in};
use std::alloc::{AllocError, Global};
use std::sync::Wait;
use std::test::Fail;

/// Two vCPUs, SPIs 32 to 991, LPIs 8192 to 8207, and 64 KiB of memory.
const SHAPE: GuestShape = GuestShape {
    vcpus: 2,
    spis: 960,
    espis: 0,
    devices: 1,
    lpis: 16,
    ram: 65536,
};

/// List registers of a PE.
const LIST_REGISTERS: u32 = 4;

/// Where an access is.
#[derive(Clone, Copy)]
enum Place {
    Dist,
    /// The redistributor of vCPU 1.
    Redist,
    Memory,
}

/// An access: a read with what it reads, or a write of a value.
#[derive(Clone, Copy)]
enum Access {
    Read(Place, u32, u32, u64),
    Write(Place, u32, u32, u64),
}

/// Interrupt 40: whether it is enabled, its priority, whether it is edge-triggered, whether it is pending by software, by
/// which vCPU it is active, and the vCPU that it is for.
type State = (bool, u8, bool, bool, Option<u32>, Option<u32>);

/// One try of an access to interrupt 40, with what that is before and after.
#[derive(Clone, Copy, Debug, PartialEq, Eq)]
struct Tried {
    before: Option<State>,
    answer: Result<u64, Missed>,
    after: Option<State>,
}

/// Interrupt 40 as the guest opens.
const OPENING: State = (true, 0xA0, true, false, None, Some(0));

/// A guest with interrupt 40, of which GICD_CTLR opens so.
fn scenario(alloc: Global, on: bool) -> Result<Scenario, AllocError> {
    one_guest(alloc, SHAPE, on, &[spi(40, 0xA0, true, 0)])
}

/// The actor is a vCPU that can make an access.
fn can_access<P: Port>(port: &P) -> bool
    ensures { IsTrue result → CanAccess (P.seen port.now) }
{
    port.actor() < port.shape().vcpus && is_off(port.local_ref())
}

/// A size that an access may have, and a value that fits it.
fn is_fit(size: u32, write: Option<u64>) -> bool
    ensures size { IsTrue result → IsTrue (is_size_of size) }
    ensures fits { IsTrue result → IsTrue (fits_in size write) }
{
    let limit = match size {
        1 => 0x100,
        2 => 0x1_0000,
        4 => 0x1_0000_0000,
        8 => return true,
        _ => return false,
    };
    write.is_none_or(|value| value < limit)
}

/// Makes an access, and answers what it reads. None where it may not.
fn make<P: Port, R: Wait>(
    rt: &R,
    port: &mut P,
    place: Place,
    offset: u32,
    size: u32,
    write: Option<u64>,
) -> Option<Option<u64>> {
    if port.shape() != SHAPE || !can_access(port) || !is_fit(size, write) {
        return None;
    }
    Some(match place {
        Place::Dist => dist_op(rt, port, offset, size, write),
        Place::Redist => redist_op(rt, port, 1, offset, size, write),
        Place::Memory => memory_op(rt, port, offset, size, write),
    })
}

/// Makes an access. Whether it reads what it is to read.
fn goes_so<P: Port, R: Wait>(rt: &R, port: &mut P, access: Access) -> bool {
    match access {
        Access::Read(place, offset, size, value) => {
            make(rt, port, place, offset, size, None) == Some(Some(value))
        }
        Access::Write(place, offset, size, value) => {
            make(rt, port, place, offset, size, Some(value)) == Some(None)
        }
    }
}

/// Interrupt 40. None where the guest has another shape.
fn state<P: Port>(port: &mut P) -> Option<State> {
    if port.shape() != SHAPE {
        return None;
    }
    let word = port.step(CoreStep::Look {
        word: WordId::Irq(Key::Spi(40)),
    });
    let irq = port_seq::unpack(word)?;
    Some((
        irq.enabled,
        irq.prio,
        irq.edge,
        irq.soft,
        irq.act_by,
        target_in(irq.route, &SHAPE),
    ))
}

/// LPI 8195 is mapped to vCPU 1, by the actor that has the ITS and shut the translation lines. False where it may not.
fn map_lpi<P: Port, R: Wait>(rt: &R, port: &mut P) -> bool {
    if port.shape() != SHAPE || !can_access(port) {
        return false;
    }
    let touching = Touching::MapLpi {
        target: 1,
        enabled: true,
        prio: 0xA0,
    };
    take_turn(rt, port);
    shut(rt, port);
    touch(rt, port, Key::Lpi(8195), touching);
    give_turn(port);
    true
}

/// Whether LPI 8195 is pending. None where the guest has another shape.
fn lpi_is_pending<P: Port>(port: &mut P) -> Option<bool> {
    if port.shape() != SHAPE {
        return None;
    }
    let word = port.step(CoreStep::Look {
        word: WordId::Irq(Key::Lpi(8195)),
    });
    Some(port_seq::unpack(word)?.soft)
}

/// Makes accesses with LPI 8195 for vCPU 1: whether it is pending then. None where one goes otherwise.
fn pends<R: Wait>(rt: &R, alloc: Global, accesses: &[Access]) -> Result<Option<bool>, AllocError> {
    let scenario = scenario(alloc, true)?;
    if !scenario.is_good(alloc, Mode::Threads)? {
        return Ok(None);
    }
    let mut port = SeqPort::start(alloc, &scenario)?;
    if !map_lpi(rt, &mut port) {
        return Ok(None);
    }
    for access in accesses {
        if !goes_so(rt, &mut port, *access) {
            return Ok(None);
        }
    }
    Ok(lpi_is_pending(&mut port))
}

/// Makes accesses, each with what interrupt 40 is then: the number of the first that goes otherwise, if one does.
fn first_other<P: Port, R: Wait>(
    rt: &R,
    port: &mut P,
    accesses: &[(Access, State)],
) -> Option<usize> {
    for (number, (access, after)) in accesses.iter().enumerate() {
        if !goes_so(rt, port, *access) || state(port) != Some(*after) {
            return Some(number);
        }
    }
    None
}

/// The first access that goes otherwise, in a guest that just opened; the number of the accesses where it can't be made.
fn play<R: Wait>(
    rt: &R,
    alloc: Global,
    on: bool,
    accesses: &[(Access, State)],
) -> Result<Option<usize>, AllocError> {
    let scenario = scenario(alloc, on)?;
    if !scenario.is_good(alloc, Mode::Threads)? {
        return Ok(Some(accesses.len()));
    }
    let mut port = SeqPort::start(alloc, &scenario)?;
    Ok(first_other(rt, &mut port, accesses))
}

/// A message makes interrupt 40 pending. False where it may not.
fn send<P: Port>(port: &mut P) -> bool
    ensures { (P.seen port.new).number ≡ (P.seen port.old).number }
{
    if port.shape() != SHAPE || port.actor() != 0 || !is_off(port.local_ref()) {
        return false;
    }
    port.step(CoreStep::Raise { key: Key::Spi(40) });
    settle(port);
    true
}

/// vCPU 0 gets a message, enters a PE, and leaves it or stays. False where it may not.
fn visit<P: Port>(port: &mut P, leaves: bool) -> bool
    requires { (P.seen port.old).number ≡ 0 }
{
    if !send(port) {
        return false;
    }
    let Some(vcpu) = enter_told(port, LIST_REGISTERS) else {
        return false;
    };
    if leaves {
        leave(port, vcpu);
    }
    true
}

/// Tries to clear interrupt 40. None where the actor may not.
fn clear<P: Port>(port: &mut P) -> Option<Result<u64, Missed>> {
    if port.shape() != SHAPE || !can_access(port) {
        return None;
    }
    Some(try_access(port, Key::Spi(40), Kind::ClearPending, Some(1)))
}

/// vCPU 1 tries to clear interrupt 40, which vCPU 0 has at its interface or gave back. None where it may not.
fn clear_beside(alloc: Global, leaves: bool) -> Result<Option<Tried>, AllocError> {
    let scenario = scenario(alloc, true)?;
    if !scenario.is_good(alloc, Mode::Threads)? {
        return Ok(None);
    }
    let mut port = SeqPort::start(alloc, &scenario)?;
    if !visit(&mut port, leaves) {
        return Ok(None);
    }
    let guest = port.current_mut();
    if guest.shape() != SHAPE {
        return Ok(None);
    }
    guest.set_actor(1);
    let before = state(guest);
    let Some(answer) = clear(guest) else {
        return Ok(None);
    };
    Ok(Some(Tried {
        before,
        answer,
        after: state(guest),
    }))
}

#[test]
fn registers_of_an_interrupt(rt: HostRuntime) -> Result<(), Fail> {
    use Access::{Read, Write};
    use Place::Dist;

    let pending = (true, 0xA0, true, true, None, Some(0));
    let active = (true, 0xA0, true, false, Some(0), Some(0));
    let routed = (true, 0xA0, true, true, None, Some(1));
    let accesses = [
        // A message by a register, and its clear.
        (Write(Dist, 0x40, 2, 40), pending),
        (Read(Dist, 0x204, 4, 0x100), pending),
        (Write(Dist, 0x284, 4, 0x100), OPENING),
        (Read(Dist, 0x204, 4, 0), OPENING),
        // Active, and not.
        (Write(Dist, 0x304, 4, 0x100), active),
        (Read(Dist, 0x384, 4, 0x100), active),
        (Write(Dist, 0x384, 4, 0x100), OPENING),
        // A route to vCPU 1: causes stay, and so does the half that is not written.
        (Write(Dist, 0x40, 4, 40), pending),
        (Write(Dist, 0x6140, 8, 1), routed),
        (Write(Dist, 0x6144, 4, 0), routed),
        (Read(Dist, 0x6140, 4, 1), routed),
        (
            Write(Dist, 0x48, 4, 40),
            (true, 0xA0, true, false, None, Some(1)),
        ),
    ];
    assert_eq!(rt; play(&rt, rt.alloc(), true, accesses.as_slice())?, None);
    Ok(())
}

#[test]
fn a_driver_starts(rt: HostRuntime) -> Result<(), Fail> {
    use Access::{Read, Write};
    use Place::{Dist, Memory};

    let disabled = (false, 0xA0, true, false, None, Some(0));
    let level = (false, 0xA0, false, false, None, Some(0));
    let started = (true, 0xA0, true, false, None, Some(0));
    let accesses = [
        (Write(Dist, 0x0, 4, 0), OPENING),
        (Write(Dist, 0x84, 4, 0xFFFF_FFFF), OPENING),
        (Write(Dist, 0x428, 4, 0xA0A0_A0A0), OPENING),
        (Write(Dist, 0x384, 4, 0xFFFF_FFFF), OPENING),
        (Write(Dist, 0x184, 4, 0xFFFF_FFFF), disabled),
        (Write(Dist, 0x0, 4, 0x13), disabled),
        (Read(Dist, 0x0, 4, 0x53), disabled),
        (Write(Dist, 0xC08, 4, 0), level),
        (Write(Dist, 0xC08, 4, 0x20000), disabled),
        (Write(Dist, 0x104, 4, 0x100), started),
        // 960 SPIs, and LPIs.
        (Read(Dist, 0x4, 4, 0x066B_001E), started),
        // The last SPI, and one that is not there.
        (Write(Dist, 0x40, 4, 991), started),
        (Read(Dist, 0x278, 4, 0x8000_0000), started),
        (Write(Dist, 0x40, 4, 992), started),
        // What no register has.
        (Read(Dist, 0x2, 4, 0), started),
        (Read(Dist, 0x428, 8, 0), started),
        (Read(Dist, 0x100, 1, 0), started),
        // Memory: a byte of eight, and one past the end.
        (Write(Memory, 0x8, 8, 0x1122_3344_5566_7788), started),
        (Write(Memory, 0xA, 1, 0xFF), started),
        (Read(Memory, 0x8, 8, 0x1122_3344_55FF_7788), started),
        (Read(Memory, 0x1_0000, 1, 0), started),
    ];
    assert_eq!(rt; play(&rt, rt.alloc(), false, accesses.as_slice())?, None);
    Ok(())
}

#[test]
fn enable_lpis_rises(rt: HostRuntime) -> Result<(), Fail> {
    use Access::{Read, Write};
    use Place::{Memory, Redist};

    // Whether LPI 8195 is pending then. The pending table at 0 has its bit in byte 0x400.
    let rows: [(&[Access], bool); 2] = [
        (
            &[
                Read(Redist, 0x8, 8, 0x0000_0001_0000_0111),
                Write(Redist, 0x70, 8, 0x300D),
                Write(Memory, 0x400, 1, 0x08),
                Read(Redist, 0x0, 4, 0),
                Write(Redist, 0x0, 4, 1),
                Read(Redist, 0x0, 4, 1),
                // From now on the addresses of the tables stay, and EnableLPIs stays 1.
                Write(Redist, 0x70, 4, 0),
                Read(Redist, 0x70, 8, 0x300D),
                Write(Redist, 0x78, 8, 0x1_0000),
                Read(Redist, 0x78, 8, 0),
                Write(Redist, 0x0, 4, 0),
                Read(Redist, 0x0, 4, 1),
            ],
            true,
        ),
        // A table that is said to have only zeros is not read; PTZ reads 0.
        (
            &[
                Write(Memory, 0x400, 1, 0x08),
                Write(Redist, 0x78, 8, 0x4000_0000_0000_0000),
                Read(Redist, 0x78, 8, 0),
                Write(Redist, 0x0, 4, 1),
            ],
            false,
        ),
    ];
    for (accesses, pending) in rows {
        assert_eq!(rt; pends(&rt, rt.alloc(), accesses)?, Some(pending));
    }
    Ok(())
}

#[test]
fn bits_of_sgis(rt: HostRuntime) -> Result<(), Fail> {
    use Access::{Read, Write};
    use Place::Redist;

    // Those of vCPU 1, one by one.
    let accesses = [
        Write(Redist, 0x1_0200, 4, 0x20),
        Read(Redist, 0x1_0280, 4, 0x20),
        Read(Redist, 0x1_0C00, 4, 0xAAAA_AAAA),
        Write(Redist, 0x1_0404, 4, 0x1122_33FF),
        Read(Redist, 0x1_0404, 1, 0xF8),
    ];
    assert_eq!(rt; pends(&rt, rt.alloc(), accesses.as_slice())?, Some(false));
    Ok(())
}

#[test]
fn clear_of_a_held_interrupt(rt: HostRuntime) -> Result<(), Fail> {
    // Its cause is at the interface of vCPU 0.
    let held = Tried {
        before: Some(OPENING),
        answer: Err(Missed::Held { holder: 0 }),
        after: Some(OPENING),
    };
    assert_eq!(rt; clear_beside(rt.alloc(), false)?, Some(held));
    // It came back.
    let back = Tried {
        before: Some((true, 0xA0, true, true, None, Some(0))),
        answer: Ok(0),
        after: Some(OPENING),
    };
    assert_eq!(rt; clear_beside(rt.alloc(), true)?, Some(back));
    Ok(())
}
