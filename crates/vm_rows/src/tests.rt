//! The calls of a machine, by the addresses and the encodings that a guest uses.

use crate::board::{
    BOARD, CTLR, Call, DIR, DOWN, EOIR0, EOIR1, FIQ, HPPIR1, IAR0, IAR1, IGRPEN0, IGRPEN1, IRQ,
    LAYOUT, Memory, NONE, Name, ONE, PMR, QUEUE, RPR, Row, SGI0R, SGI1R, encoding, make, play,
};
use std::alloc::Global;
use std::process::Abort;
use vm_saved::{Done, Layout, Machine, MachineSpec, NotDone, NotMine, Refused};

const GICD: u64 = 0x0800_0000;

const GICD_CTLR: u64 = GICD;

const GICD_TYPER: u64 = GICD + 4;

const GICD_IGROUPR1: u64 = GICD + 0x84;

const GICD_ISENABLER1: u64 = GICD + 0x104;

pub(crate) const GICD_ISACTIVER1: u64 = GICD + 0x304;

const GICD_IPRIORITYR: u64 = GICD + 0x400;

const GICD_ICFGR2: u64 = GICD + 0xC08;

const GICD_IROUTER: u64 = GICD + 0x6000;
/// The redistributor of vCPU 1.
const GICR: u64 = 0x080C_0000;

pub(crate) const GICR_PROPBASER: u64 = GICR + 0x70;

const GICR_PENDBASER: u64 = GICR + 0x78;

const GITS: u64 = 0x0808_0000;

pub(crate) const GITS_CBASER: u64 = GITS + 0x80;

const GITS_CWRITER: u64 = GITS + 0x88;

const GITS_CREADR: u64 = GITS + 0x90;

const GITS_TRANSLATER: u64 = GITS + 0x1_0040;

/// vCPU 1 listens to both groups, with all masked. The SPIs 40, 42, 43 and 44 are of group 1, 41 of group 0; 40 and 44 have priority 0xA0, 42 and 43
/// priority 0x80, and 41 priority 0. All are enabled, level-sensitive, and for vCPU 1.
pub(crate) const SET_UP: [Row; 14] = [
    (Call::Load(GICD_CTLR, 4), 0x50, NONE, DOWN),
    (Call::Store(GICD_CTLR, 4, 3), 0, NONE, DOWN),
    (Call::Store(GICD_IGROUPR1, 4, 0x1D00), 0, NONE, DOWN),
    (
        Call::Store(GICD_IPRIORITYR + 40, 4, 0x8080_00A0),
        0,
        NONE,
        DOWN,
    ),
    (Call::Store(GICD_IPRIORITYR + 44, 1, 0xA0), 0, NONE, DOWN),
    (Call::Store(GICD_ISENABLER1, 4, 0x1F00), 0, NONE, DOWN),
    (Call::Store(GICD_IROUTER + 8 * 40, 8, 1), 0, NONE, DOWN),
    (Call::Store(GICD_IROUTER + 8 * 41, 8, 1), 0, NONE, DOWN),
    (Call::Store(GICD_IROUTER + 8 * 42, 8, 1), 0, NONE, DOWN),
    (Call::Store(GICD_IROUTER + 8 * 43, 8, 1), 0, NONE, DOWN),
    (Call::Store(GICD_IROUTER + 8 * 44, 8, 1), 0, NONE, DOWN),
    (Call::Write(IGRPEN0, 1), 0, NONE, DOWN),
    (Call::Write(IGRPEN1, 1), 0, NONE, DOWN),
    (Call::Read(IAR1), 1023, NONE, DOWN),
];

/// Nothing is masked.
pub(crate) const UNMASK: Row = (Call::Write(PMR, 0xF0), 0, NONE, DOWN);

/// An SPI is raised, acknowledged and ended.
const FIRST_PATH: [Row; 10] = [
    UNMASK,
    (Call::Wire(40, true), 0, ONE, IRQ),
    (Call::Read(HPPIR1), 40, NONE, IRQ),
    (Call::Read(IAR1), 40, ONE, DOWN),
    (Call::Read(RPR), 0xA0, NONE, DOWN),
    (Call::Load(GICD_ISACTIVER1, 4), 0x100, NONE, DOWN),
    (Call::Wire(40, false), 0, NONE, DOWN),
    (Call::Write(EOIR1, 40), 0, NONE, DOWN),
    (Call::Load(GICD_ISACTIVER1, 4), 0, NONE, DOWN),
    (Call::Read(IAR1), 1023, NONE, DOWN),
];

/// HPPIR looks at no mask, and a line does.
const MASKED: [Row; 5] = [
    (Call::Wire(40, true), 0, NONE, DOWN),
    (Call::Read(HPPIR1), 40, NONE, DOWN),
    (Call::Read(IAR1), 1023, NONE, DOWN),
    (Call::Write(PMR, 0xF0), 0, ONE, IRQ),
    (Call::Write(PMR, 0xA0), 0, ONE, DOWN),
];

/// A higher priority preempts, an equal one does not; a level that stays up asserts the line again.
const PREEMPTED: [Row; 13] = [
    UNMASK,
    (Call::Wire(40, true), 0, ONE, IRQ),
    (Call::Read(IAR1), 40, ONE, DOWN),
    (Call::Wire(42, true), 0, ONE, IRQ),
    (Call::Read(IAR1), 42, ONE, DOWN),
    (Call::Wire(43, true), 0, NONE, DOWN),
    (Call::Write(EOIR1, 42), 0, ONE, IRQ),
    (Call::Read(IAR1), 42, ONE, DOWN),
    (Call::Wire(42, false), 0, NONE, DOWN),
    (Call::Wire(43, false), 0, NONE, DOWN),
    (Call::Write(EOIR1, 42), 0, NONE, DOWN),
    (Call::Write(EOIR1, 40), 0, ONE, IRQ),
    (Call::Wire(40, false), 0, ONE, DOWN),
];

/// With EOImode an end of interrupt drops the priority alone, and DIR deactivates.
const SPLIT: [Row; 9] = [
    UNMASK,
    (Call::Write(CTLR, 2), 0, NONE, DOWN),
    (Call::Wire(40, true), 0, ONE, IRQ),
    (Call::Read(IAR1), 40, ONE, DOWN),
    (Call::Wire(44, true), 0, NONE, DOWN),
    (Call::Write(EOIR1, 40), 0, ONE, IRQ),
    (Call::Load(GICD_ISACTIVER1, 4), 0x100, NONE, IRQ),
    (Call::Wire(44, false), 0, ONE, DOWN),
    (Call::Write(DIR, 40), 0, ONE, IRQ),
];

/// Group 0 asserts FIQ.
const GROUP_0: [Row; 7] = [
    UNMASK,
    (Call::Wire(41, true), 0, ONE, FIQ),
    (Call::Read(IAR1), 1023, NONE, FIQ),
    (Call::Read(IAR0), 41, ONE, DOWN),
    (Call::Wire(40, true), 0, NONE, DOWN),
    (Call::Wire(41, false), 0, NONE, DOWN),
    (Call::Write(EOIR0, 41), 0, ONE, IRQ),
];

/// The level that a wire has is no second edge.
const SAME_LEVEL: [Row; 8] = [
    UNMASK,
    (Call::Store(GICD_ICFGR2, 4, 0x2_0000), 0, NONE, DOWN),
    (Call::Wire(40, true), 0, ONE, IRQ),
    (Call::Read(IAR1), 40, ONE, DOWN),
    (Call::Wire(40, true), 0, NONE, DOWN),
    (Call::Write(EOIR1, 40), 0, NONE, DOWN),
    (Call::Wire(40, false), 0, NONE, DOWN),
    (Call::Wire(40, true), 0, ONE, IRQ),
];

/// A message, and an access of a size or at an address that no register takes.
const ODD: [Row; 8] = [
    UNMASK,
    (Call::Message(40), 0, ONE, IRQ),
    (Call::Load(GICD_CTLR, 3), 0, NONE, IRQ),
    (Call::Load(GICD_CTLR + 2, 4), 0, NONE, IRQ),
    (Call::Store(GICD_CTLR, 3, 0), 0, NONE, IRQ),
    (Call::Store(GICD_CTLR, 0, 0), 0, NONE, IRQ),
    (Call::Load(GICD_CTLR, 4), 0x53, NONE, IRQ),
    (Call::Store(GICD_CTLR, 4, 0xFF_0000_0000), 0, ONE, DOWN),
];

/// The configuration table of LPIs, and the pending table of vCPU 1, in the guest's memory.
pub(crate) const PROPERTIES: u64 = 0x4_0001_0000;

const PENDING: u64 = 0x4_0002_0000;

/// The attributes of memory in the registers that name the tables, and in that which names the queue: cacheable, inner shareable.
pub(crate) const CACHED: u64 = 0x780;

pub(crate) const QUEUE_CACHED: u64 = 0x3800_0000_0000_0400;

/// The ITS maps event 3 of device 8 to the LPI 8195, of vCPU 1.
pub(crate) const MAP: [Row; 18] = [
    (Call::Memory(PROPERTIES, 0xA100_0000), 0, NONE, DOWN),
    (Call::Memory(QUEUE, 0x8_0000_0008), 0, NONE, DOWN),
    (Call::Memory(QUEUE + 0x8, 4), 0, NONE, DOWN),
    (Call::Memory(QUEUE + 0x10, 1 << 63), 0, NONE, DOWN),
    (Call::Memory(QUEUE + 0x20, 0x9), 0, NONE, DOWN),
    (
        Call::Memory(QUEUE + 0x30, 0x8000_0000_0001_0001),
        0,
        NONE,
        DOWN,
    ),
    (Call::Memory(QUEUE + 0x40, 0x8_0000_000A), 0, NONE, DOWN),
    (Call::Memory(QUEUE + 0x48, 0x2003_0000_0003), 0, NONE, DOWN),
    (Call::Memory(QUEUE + 0x50, 1), 0, NONE, DOWN),
    (
        Call::Store(GICR_PROPBASER, 8, PROPERTIES + CACHED + 0xD),
        0,
        NONE,
        DOWN,
    ),
    (
        Call::Store(GICR_PENDBASER, 8, (1 << 62) + PENDING + CACHED),
        0,
        NONE,
        DOWN,
    ),
    (Call::Store(GICR, 4, 1), 0, NONE, DOWN),
    (
        Call::Store(GITS_CBASER, 4, QUEUE_CACHED % (1 << 32)),
        0,
        NONE,
        DOWN,
    ),
    (Call::Store(GITS_CBASER + 4, 4, 0xB800_0004), 0, NONE, DOWN),
    (
        Call::Load(GITS_CBASER, 8),
        (1 << 63) + QUEUE_CACHED + QUEUE,
        NONE,
        DOWN,
    ),
    (Call::Store(GITS, 4, 1), 0, NONE, DOWN),
    (Call::Store(GITS_CWRITER, 8, 0x60), 0, NONE, DOWN),
    (Call::Load(GITS_CREADR, 8), 0x60, NONE, DOWN),
];

/// A vCPU is reset while it handles an LPI: its LPIs stay enabled.
const RESET_VCPU: [Row; 11] = [
    UNMASK,
    (Call::Store(GITS_TRANSLATER, 4, 3), 0, NONE, DOWN),
    (Call::Msi(8, 3), 0, ONE, IRQ),
    (Call::Read(IAR1), 8195, ONE, DOWN),
    (Call::Read(RPR), 0xA0, NONE, DOWN),
    (Call::ResetVcpu, 0, NONE, DOWN),
    (Call::Load(GICR, 4), 1, NONE, DOWN),
    (Call::Msi(8, 3), 0, NONE, DOWN),
    (Call::Write(PMR, 0xF0), 0, NONE, DOWN),
    (Call::Write(IGRPEN1, 1), 0, ONE, IRQ),
    (Call::Read(IAR1), 8195, ONE, DOWN),
];

/// The machine is reset while one interrupt is active and the line of another is up.
const RESET: [Row; 9] = [
    UNMASK,
    (Call::Wire(40, true), 0, ONE, IRQ),
    (Call::Read(IAR1), 40, ONE, DOWN),
    (Call::Wire(42, true), 0, ONE, IRQ),
    (Call::Reset, 0, ONE, DOWN),
    (Call::Load(GICD_ISACTIVER1, 4), 0, NONE, DOWN),
    (Call::Load(GICR, 4), 0, NONE, DOWN),
    (Call::Read(RPR), 0xFF, NONE, DOWN),
    (Call::Msi(8, 3), 0, NONE, DOWN),
];

/// Once LPIs are enabled the tables stay where they are, and GITS_CBASER while the ITS is; INV reads the table that stays.
const IGNORED: [Row; 14] = [
    UNMASK,
    (Call::Store(GICR_PROPBASER, 8, 0x9_0000_0000), 0, NONE, DOWN),
    (Call::Store(GICR_PENDBASER + 4, 4, 9), 0, NONE, DOWN),
    (Call::Store(GITS_CBASER, 8, 0), 0, NONE, DOWN),
    (
        Call::Load(GICR_PROPBASER, 8),
        PROPERTIES + CACHED + 0xD,
        NONE,
        DOWN,
    ),
    (Call::Load(GICR_PENDBASER, 8), PENDING + CACHED, NONE, DOWN),
    (
        Call::Load(GITS_CBASER, 8),
        (1 << 63) + QUEUE_CACHED + QUEUE,
        NONE,
        DOWN,
    ),
    (Call::Load(GITS_CREADR, 8), 0x60, NONE, DOWN),
    (Call::Memory(PROPERTIES, 0x4100_0000), 0, NONE, DOWN),
    (Call::Memory(0x9_0000_0000, 0x8100_0000), 0, NONE, DOWN),
    (Call::Memory(QUEUE + 0x60, 0x8_0000_000C), 0, NONE, DOWN),
    (Call::Memory(QUEUE + 0x68, 3), 0, NONE, DOWN),
    (Call::Store(GITS_CWRITER, 4, 0x80), 0, NONE, DOWN),
    (Call::Msi(8, 3), 0, ONE, IRQ),
];

/// The queue goes round its end: INT is its last command, and INV its first.
const ROUND: [Row; 11] = [
    UNMASK,
    (Call::Store(GITS_CWRITER, 8, 0xFE0), 0, NONE, DOWN),
    (Call::Load(GITS_CREADR, 8), 0xFE0, NONE, DOWN),
    (Call::Memory(QUEUE + 0xFE0, 0x8_0000_0003), 0, NONE, DOWN),
    (Call::Memory(QUEUE + 0xFE8, 3), 0, NONE, DOWN),
    (Call::Memory(QUEUE, 0x8_0000_000C), 0, NONE, DOWN),
    (Call::Memory(QUEUE + 8, 3), 0, NONE, DOWN),
    (Call::Memory(PROPERTIES, 0x4100_0000), 0, NONE, DOWN),
    (Call::Store(GITS_CWRITER, 8, 0x20), 0, ONE, IRQ),
    (Call::Read(IAR1), 8195, ONE, DOWN),
    (Call::Read(RPR), 0x40, NONE, DOWN),
];

/// The pending table is read as EnableLPIs rises, with PTZ 0.
const PENDED: [Row; 5] = [
    UNMASK,
    (Call::Store(GICR_PENDBASER, 8, PENDING), 0, NONE, DOWN),
    (Call::Memory(PENDING + 0x400, 8), 0, NONE, DOWN),
    (Call::Store(GICR, 4, 1), 0, ONE, IRQ),
    (Call::Read(IAR1), 8195, ONE, DOWN),
];

/// After it a level that is given again rises.
const AFTER_RESET: [Row; 2] = [UNMASK, (Call::Wire(42, true), 0, ONE, IRQ)];

/// Plays rows on a machine that was set up.
fn play_all(rt: &impl Abort, alloc: Global, rows: &[Row]) -> Result<(), Refused> {
    let mut machine = Machine::open(alloc, &BOARD)?;
    let mut memory = Memory::new();
    play(rt, &mut machine, &mut memory, &SET_UP);
    play(rt, &mut machine, &mut memory, rows);
    Ok(())
}

#[test]
fn interrupts(rt: HostRuntime) -> Result<(), Refused> {
    play_all(&rt, rt.alloc(), &FIRST_PATH)?;
    play_all(&rt, rt.alloc(), &MASKED)?;
    play_all(&rt, rt.alloc(), &PREEMPTED)?;
    play_all(&rt, rt.alloc(), &SPLIT)?;
    play_all(&rt, rt.alloc(), &GROUP_0)?;
    play_all(&rt, rt.alloc(), &SAME_LEVEL)?;
    play_all(&rt, rt.alloc(), &ODD)?;
    Ok(())
}

#[test]
fn vcpu_is_reset(rt: HostRuntime) -> Result<(), Refused> {
    let mut machine = Machine::open(rt.alloc(), &BOARD)?;
    let mut memory = Memory::new();
    play(&rt, &mut machine, &mut memory, &SET_UP);
    play(&rt, &mut machine, &mut memory, &MAP);
    play(&rt, &mut machine, &mut memory, &RESET_VCPU);
    Ok(())
}

#[test]
fn machine_is_reset(rt: HostRuntime) -> Result<(), Refused> {
    let mut machine = Machine::open(rt.alloc(), &BOARD)?;
    let mut memory = Memory::new();
    play(&rt, &mut machine, &mut memory, &SET_UP);
    play(&rt, &mut machine, &mut memory, &MAP);
    play(&rt, &mut machine, &mut memory, &RESET);
    play(&rt, &mut machine, &mut memory, &SET_UP);
    play(&rt, &mut machine, &mut memory, &AFTER_RESET);
    Ok(())
}

#[test]
fn queue_in_the_guests_memory(rt: HostRuntime) -> Result<(), Refused> {
    for rows in [&IGNORED[..], &ROUND] {
        let mut machine = Machine::open(rt.alloc(), &BOARD)?;
        let mut memory = Memory::new();
        play(&rt, &mut machine, &mut memory, &SET_UP);
        play(&rt, &mut machine, &mut memory, &MAP);
        play(&rt, &mut machine, &mut memory, rows);
    }
    Ok(())
}

/// LPIs are enabled after their events are mapped.
#[test]
fn pending_table(rt: HostRuntime) -> Result<(), Refused> {
    let mut machine = Machine::open(rt.alloc(), &BOARD)?;
    let mut memory = Memory::new();
    play(&rt, &mut machine, &mut memory, &SET_UP);
    for row in MAP {
        if !matches!(row.0, Call::Store(GICR, _, _)) {
            play(&rt, &mut machine, &mut memory, &[row]);
        }
    }
    play(&rt, &mut machine, &mut memory, &PENDED);
    Ok(())
}

/// GICD_TYPER tells the LPIs: 2^(num_LPIs + 1).
#[test]
fn numbers_of_lpis(rt: HostRuntime) -> Result<(), Refused> {
    for (lpis, is_good, number) in LPIS {
        let opened = Machine::open(rt.alloc(), &MachineSpec { lpis, ..BOARD });
        match opened {
            Ok(mut machine) => {
                assert!(rt; is_good, "{lpis}");
                let done = machine.mmio(0, GICD_TYPER, 4, None, &Memory::new());
                let told = done.map_or(0, |done| done.value >> 11 & 0x1F);
                assert_eq!(rt; told, number, "{lpis}");
            }
            Err(refusal) => {
                assert!(rt; !is_good, "{lpis}");
                assert_eq!(rt; refusal, Refused::Shape);
            }
        }
    }
    Ok(())
}

/// A route that changes takes the line of the one vCPU down, and asserts that of the other.
#[test]
fn route_changes(rt: HostRuntime) -> Result<(), Refused> {
    let mut machine = Machine::open(rt.alloc(), &BOARD)?;
    let mut memory = Memory::new();
    play(&rt, &mut machine, &mut memory, &SET_UP);
    play(
        &rt,
        &mut machine,
        &mut memory,
        &[UNMASK, (Call::Wire(40, true), 0, ONE, IRQ)],
    );
    for (name, value) in [(PMR, 0xF0), (IGRPEN1, 1)] {
        let done = machine.sysreg(0, encoding(name), Some(value));
        assert_eq!(rt;
            done,
            Ok(Done {
                value: 0,
                changed: NONE
            })
        );
    }
    let both = (Call::Store(GICD_IROUTER + 8 * 40, 8, 0), 0, 0b11, DOWN);
    play(&rt, &mut machine, &mut memory, &[both]);
    assert_eq!(rt; machine.lines(0), IRQ);
    assert_eq!(rt; machine.lines(2), DOWN);
    Ok(())
}

/// Addresses, and whether they are in a frame.
const ADDRESSES: [(u64, bool); 9] = [
    (0x07FF_FFFF, false),
    (0x0800_FFFF, true),
    (0x0801_0000, false),
    (0x0807_FFFF, false),
    (0x0809_FFFF, true),
    (0x080D_FFFF, true),
    (0x080E_0000, false),
    (0x1_0800_0000, false),
    (u64::MAX, false),
];

/// Accesses of system registers that are not done.
const NOT_DONE: [(u32, Name, Option<u64>, NotDone); 6] = [
    (0, SGI0R, Some(0), NotDone::NoRegister),
    (0, (2, 0, 12, 12, 0), None, NotDone::NoRegister),
    (2, IAR1, None, NotDone::NoRegister),
    (0, IAR1, Some(0), NotDone::Undefined),
    (0, EOIR1, None, NotDone::Undefined),
    (0, SGI1R, None, NotDone::Undefined),
];

#[test]
fn accesses_of_others(rt: HostRuntime) -> Result<(), Refused> {
    let mut machine = Machine::open(rt.alloc(), &BOARD)?;
    let mut memory = Memory::new();
    for (address, is_mine) in ADDRESSES {
        let done = machine.mmio(0, address, 1, None, &memory);
        assert_eq!(rt; done.is_ok(), is_mine, "at {address}");
    }
    assert_eq!(rt; machine.mmio(2, GICD_CTLR, 4, None, &memory), Err(NotMine));
    for (vcpu, name, write, refusal) in NOT_DONE {
        assert_eq!(rt; machine.sysreg(vcpu, encoding(name), write), Err(refusal));
    }
    Ok(())
}

/// What devices cannot do: wires of an SGI, of an LPI and of what is not there, a message of a PPI.
const NOT_THERE: [Call; 5] = [
    Call::Wire(15, true),
    Call::Wire(8195, true),
    Call::Wire(64, true),
    Call::Message(20),
    Call::Message(64),
];

#[test]
fn devices_that_are_not_there(rt: HostRuntime) -> Result<(), Refused> {
    let mut machine = Machine::open(rt.alloc(), &BOARD)?;
    let mut memory = Memory::new();
    for call in NOT_THERE {
        assert_eq!(rt; make(&mut machine, &mut memory, call), None, "{call:?}");
    }
    assert_eq!(rt; machine.wire(16, 2, true), Err(Refused::NotThere));
    assert_eq!(rt; machine.wire(16, 1, true).is_ok(), true);
    assert_eq!(rt; machine.reset_vcpu(2), Err(Refused::NotThere));
    let without_lpis = MachineSpec { lpis: 0, ..BOARD };
    let mut machine = Machine::open(rt.alloc(), &without_lpis)?;
    let mut memory = Memory::new();
    assert_eq!(rt; machine.msi(8, 3), Err(Refused::NotThere));
    Ok(())
}

/// Numbers of LPIs, whether a machine can have so many, and num_LPIs of it.
const LPIS: [(u32, bool, u64); 8] = [
    (0, true, 0),
    (2, false, 0),
    (4, true, 1),
    (12, false, 0),
    (16, true, 3),
    (2048, true, 10),
    (4096, true, 11),
    (8192, false, 0),
];

/// Layouts, and whether they are good.
const LAYOUTS: [(Layout, bool); 8] = [
    (LAYOUT, true),
    (
        Layout {
            its: 0x080E_0000,
            ..LAYOUT
        },
        true,
    ),
    (
        Layout {
            its: 0x080D_0000,
            ..LAYOUT
        },
        false,
    ),
    (
        Layout {
            redist: 0x0807_0000,
            ..LAYOUT
        },
        false,
    ),
    (
        Layout {
            dist: 0x0800_8000,
            ..LAYOUT
        },
        false,
    ),
    (
        Layout {
            dist: 0xF_FFFF_FFFF_0000,
            ..LAYOUT
        },
        true,
    ),
    (
        Layout {
            dist: 0x10_0000_0000_0000,
            ..LAYOUT
        },
        false,
    ),
    (
        Layout {
            dist: 0xFFFF_FFFF_FFFF_0000,
            ..LAYOUT
        },
        false,
    ),
];

#[test]
fn openings(rt: HostRuntime) -> Result<(), Refused> {
    for (layout, is_good) in LAYOUTS {
        let opened = Machine::open(rt.alloc(), &MachineSpec { layout, ..BOARD });
        match opened {
            Ok(_) => assert!(rt; is_good, "{layout:?}"),
            Err(refusal) => {
                assert!(rt; !is_good, "{layout:?}");
                assert_eq!(rt; refusal, Refused::Layout);
            }
        }
    }
    for vcpus in [0, 33] {
        let opened = Machine::open(rt.alloc(), &MachineSpec { vcpus, ..BOARD });
        assert_eq!(rt; opened.err(), Some(Refused::Shape));
    }
    Ok(())
}
