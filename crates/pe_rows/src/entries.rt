//! What stands in the list registers after an entry.
ghost use Rattle.std.specs.Prelude.{◌≡◌, IsTrue, []};
ghost use Rattle.port_seq.specs.Words.{Spi, has_interrupt};
ghost use Rattle.pe_mem.specs.Core.{shape_of, is_settled};

use crate::entry::enter_told;
use pe_icc::{Port, leave};
use pe_mem::{CoreStep, GuestShape, WordId, settle};
use port_rest::{is_off, one_guest, spi};
use port_seq::{Key, Kind, Mode, Scenario, SeqPort, Touching};
use std::alloc::{AllocError, Global};
use std::test::Fail;

/// One vCPU, SPIs 32 to 63, and a device.
const SHAPE: GuestShape = GuestShape {
    vcpus: 1,
    spis: 32,
    espis: 0,
    devices: 1,
    lpis: 0,
    ram: 8,
};

/// What becomes of an interrupt before the entry.
#[derive(Clone, Copy)]
enum Cause {
    /// A message makes it pending.
    Message(u32),
    /// Its wire goes up.
    Up(u32),
    /// It is active.
    Active(u32),
}

/// What an entry leaves in the registers of a PE: ICH_HCR, and the first two list registers.
#[derive(Clone, Copy, Debug, PartialEq, Eq)]
struct Stored {
    hcr: u32,
    lr: [u64; 2],
}

/// A guest with the interrupts 40, 41 and 42, of which 42 comes first.
fn scenario(alloc: Global, edge: bool) -> Result<Scenario, AllocError> {
    one_guest(
        alloc,
        SHAPE,
        true,
        &[
            spi(40, 0xA0, edge, 0),
            spi(41, 0xA0, true, 0),
            spi(42, 0x20, true, 0),
        ],
    )
}

/// A write of ISACTIVER makes an SPI active.
fn activate<P: Port>(port: &mut P, id: u32)
    requires there { IsTrue (has_interrupt (shape_of (P.seen port.old)) (Spi id)) }
    requires empty { (P.seen port.old).local.at ≡ [] }
    requires settled { IsTrue (is_settled (P.seen port.old).local) }
    ensures { (P.seen port.new).number ≡ (P.seen port.old).number }
{
    let key = Key::Spi(id);
    let seen = port.step(CoreStep::Look {
        word: WordId::Irq(key),
    });
    port.step(CoreStep::Touch {
        key,
        seen,
        kind: Touching::Register {
            kind: Kind::SetActive,
            value: 1,
        },
    });
}

/// An interrupt becomes so. False where it may not.
fn make<P: Port>(port: &mut P, cause: Cause) -> bool
    ensures { (P.seen port.new).number ≡ (P.seen port.old).number }
{
    if port.shape() != SHAPE || port.actor() != 0 || !is_off(port.local_ref()) {
        return false;
    }
    match cause {
        Cause::Message(id @ 40..=42) => {
            port.step(CoreStep::Raise { key: Key::Spi(id) });
        }
        Cause::Up(id @ 40..=42) => {
            port.step(CoreStep::WireUp { key: Key::Spi(id) });
        }
        Cause::Active(id @ 40..=42) => activate(port, id),
        _ => return false,
    }
    settle(port);
    true
}

/// vCPU 0 enters a PE, and leaves it: what stood in the registers between. None where it may not.
fn visit<P: Port>(port: &mut P, lrs: u32) -> Option<Stored>
    requires { (P.seen port.old).number ≡ 0 }
{
    let vcpu = enter_told(port, lrs)?;
    let registers = Stored {
        hcr: vcpu.regs.hcr,
        lr: [vcpu.regs.lr[0], vcpu.regs.lr[1]],
    };
    leave(port, vcpu);
    Some(registers)
}

/// What an entry stores after these causes, with this many list registers. None where it may not.
fn visit_after<P: Port>(port: &mut P, causes: &[Cause], lrs: u32) -> Option<Stored>
    requires { (P.seen port.old).number ≡ 0 }
{
    for cause in causes {
        if !make(port, *cause) {
            return None;
        }
    }
    visit(port, lrs)
}

/// What an entry stores after these causes, in a guest that just opened.
fn store(
    alloc: Global,
    edge: bool,
    causes: &[Cause],
    lrs: u32,
) -> Result<Option<Stored>, AllocError> {
    let scenario = scenario(alloc, edge)?;
    if !scenario.is_good(alloc, Mode::Threads)? {
        return Ok(None);
    }
    let mut port = SeqPort::start(alloc, &scenario)?;
    Ok(visit_after(&mut port, causes, lrs))
}

/// What an entry is to store.
fn just(hcr: u32, first: u64, second: u64) -> Option<Stored> {
    Some(Stored {
        hcr,
        lr: [first, second],
    })
}

#[test]
fn pending_interrupts(rt: HostRuntime) -> Result<(), Fail> {
    use Cause::{Message, Up};

    // One that is pending, alone and with one more than there are list registers.
    assert_eq!(rt;
        store(rt.alloc(), true, &[Message(40)], 1)?,
        just(0x91, 0x50a0_0000_0000_0028, 0)
    );
    assert_eq!(rt;
        store(rt.alloc(), true, &[Message(40), Message(41)], 1)?,
        just(0x99, 0x50a0_0000_0000_0028, 0)
    );
    // The end of a level-sensitive one is to be seen.
    assert_eq!(rt;
        store(rt.alloc(), false, &[Up(40)], 1)?,
        just(0x91, 0x50a0_0200_0000_0028, 0)
    );
    Ok(())
}

#[test]
fn active_interrupts(rt: HostRuntime) -> Result<(), Fail> {
    use Cause::{Active, Message};

    // One that is active stays first, and its end is to be seen, where not all that are pending fit.
    assert_eq!(rt;
        store(
            rt.alloc(),
            true,
            &[Active(40), Message(40), Message(41), Message(42)],
            2
        )?,
        just(0x99, 0x90a0_0200_0000_0028, 0x5020_0000_0000_002a)
    );
    // Where all fit it is pending too, with its causes.
    assert_eq!(rt;
        store(rt.alloc(), true, &[Active(40), Message(40)], 1)?,
        just(0x91, 0xd0a0_0000_0000_0028, 0)
    );
    // Where it leaves no list register to one that is pending, accesses are trapped.
    assert_eq!(rt;
        store(rt.alloc(), true, &[Active(40), Message(42)], 1)?,
        just(0x5c91, 0, 0)
    );
    Ok(())
}
