//! Machines that are saved and restored.

use crate::board::{
    BOARD, Call, DOWN, EOIR1, HPPIR1, IAR1, IRQ, Memory, NONE, ONE, QUEUE, RPR, Row, play,
};
use crate::tests::{
    CACHED, GICD_ISACTIVER1, GICR_PROPBASER, GITS_CBASER, MAP, PROPERTIES, QUEUE_CACHED, SET_UP,
    UNMASK,
};
use std::alloc::Global;
use vm_saved::{Bytes, Done, Fault, Machine, MachineSpec, NotRestored, Refused, restore, save};

/// SPI 40 is active and its level up, LPI 8195 is pending and waits for it, and SPI 42, of a higher priority, is pending.
const BEFORE: [Row; 5] = [
    UNMASK,
    (Call::Wire(40, true), 0, ONE, IRQ),
    (Call::Read(IAR1), 40, ONE, DOWN),
    (Call::Msi(8, 3), 0, NONE, DOWN),
    (Call::Wire(42, true), 0, ONE, IRQ),
];

/// Each of them comes, and what the guest wrote reads back.
const AFTER: [Row; 12] = [
    (Call::Read(HPPIR1), 42, NONE, IRQ),
    (Call::Read(RPR), 0xA0, NONE, IRQ),
    (Call::Read(IAR1), 42, ONE, DOWN),
    (Call::Load(GICD_ISACTIVER1, 4), 0x500, NONE, DOWN),
    (Call::Wire(42, false), 0, NONE, DOWN),
    (Call::Write(EOIR1, 42), 0, NONE, DOWN),
    (Call::Write(EOIR1, 40), 0, ONE, IRQ),
    (Call::Wire(40, false), 0, NONE, IRQ),
    (Call::Read(IAR1), 8195, ONE, DOWN),
    (Call::Write(EOIR1, 8195), 0, NONE, DOWN),
    (
        Call::Load(GITS_CBASER, 8),
        (1 << 63) + QUEUE_CACHED + QUEUE,
        NONE,
        DOWN,
    ),
    (
        Call::Load(GICR_PROPBASER, 8),
        PROPERTIES + CACHED + 0xD,
        NONE,
        DOWN,
    ),
];

/// The image of a machine.
fn image(alloc: Global, machine: &Machine) -> Result<Bytes, Refused> {
    save(alloc, machine).map_err(|_| Refused::NoMemory)
}

/// A machine in the midst of its interrupts is saved, and another one of its shape restored from that: both go on alike.
#[test]
fn goes_on_elsewhere(rt: HostRuntime) -> Result<(), Refused> {
    let mut machine = Machine::open(rt.alloc(), &BOARD)?;
    let mut memory = Memory::new();
    for rows in [&SET_UP[..], &MAP, &BEFORE] {
        play(&rt, &mut machine, &mut memory, rows);
    }
    let bytes = image(rt.alloc(), &machine)?;
    let mut other = Machine::open(rt.alloc(), &BOARD)?;
    let done = restore(rt.alloc(), &mut other, bytes.as_slice());
    assert_eq!(rt;
        done,
        Ok(Done {
            value: 0,
            changed: ONE
        })
    );
    assert_eq!(rt; other.lines(1), IRQ);
    play(&rt, &mut machine, &mut memory, &AFTER);
    play(&rt, &mut other, &mut memory, &AFTER);
    Ok(())
}

/// A machine goes back to what it was, and its line falls.
#[test]
fn goes_back(rt: HostRuntime) -> Result<(), Refused> {
    let mut machine = Machine::open(rt.alloc(), &BOARD)?;
    let mut memory = Memory::new();
    play(&rt, &mut machine, &mut memory, &SET_UP);
    let bytes = image(rt.alloc(), &machine)?;
    play(&rt, &mut machine, &mut memory, &MAP);
    play(&rt, &mut machine, &mut memory, &BEFORE);
    let done = restore(rt.alloc(), &mut machine, bytes.as_slice());
    assert_eq!(rt;
        done,
        Ok(Done {
            value: 0,
            changed: ONE
        })
    );
    let rows = [
        (Call::Read(IAR1), 1023, NONE, DOWN),
        (Call::Load(GICD_ISACTIVER1, 4), 0, NONE, DOWN),
        (Call::Load(GICR_PROPBASER, 8), 0, NONE, DOWN),
        UNMASK,
        (Call::Wire(40, true), 0, ONE, IRQ),
        (Call::Read(IAR1), 40, ONE, DOWN),
    ];
    play(&rt, &mut machine, &mut memory, &rows);
    Ok(())
}

/// The image of a machine with one vCPU and nothing else, after reset.
const LEAST: &str = concat!(
    r#"{"bases":[0,0,0,0,0,0,0,0,0,0,0,0,0,0,0,0,0,0,0,0,0,0,0,0,0,0,0,0,0,0,0,0,0,"#,
    r#"0,0,0,0,0,0,0,0,0,0,0,0,0,0,0,0,0,0,0,0,0,0,0,0,0,0,0,0,0,0,0,0],"#,
    r#""image":{"done":0,"guests":[{"col":[],"cpu":[[0,2,3,0,0,0,0,0,0,0]],"dev":[],"evt":[],"gicd":0,"#,
    r#""irqs":[],"its":null,"on":false,"ram":[],"rec":[],"redist":[[0,0]],"shape":[1,0,0,0,0,0]}],"#,
    r#""lrs":1,"on_pe":[null],"pes":1,"reads":0,"steps":[],"version":1}}"#
);

/// What such a machine has.
const SMALL: MachineSpec = MachineSpec {
    vcpus: 1,
    spis: 0,
    espis: 0,
    lpis: 0,
    ..BOARD
};

#[test]
fn text_of_the_least_machine(rt: HostRuntime) -> Result<(), Refused> {
    let machine = Machine::open(rt.alloc(), &SMALL)?;
    let bytes = image(rt.alloc(), &machine)?;
    assert!(rt; bytes.as_slice() == LEAST.as_bytes());
    Ok(())
}

/// Bytes that restore nothing, and why: the end of the text is missing, there is no field, a number of the registers is missing, the image of the guest has no field,
/// and the machine is one of another shape.
const REFUSED: [(&str, NotRestored); 5] = [
    (r#"{"bases":[0"#, NotRestored::NoJson),
    ("{}", NO_SHAPE),
    (r#"{"bases":[0],"image":{}}"#, NO_SHAPE),
    (
        concat!(
            r#"{"bases":[0,0,0,0,0,0,0,0,0,0,0,0,0,0,0,0,0,0,0,0,0,0,0,0,0,0,0,0,0,0,0,0,0,"#,
            r#"0,0,0,0,0,0,0,0,0,0,0,0,0,0,0,0,0,0,0,0,0,0,0,0,0,0,0,0,0,0,0,0],"image":{}}"#
        ),
        NO_SHAPE,
    ),
    (LEAST, NotRestored::Other),
];

const NO_SHAPE: NotRestored = NotRestored::NoImage(Fault { code: 1, step: 0 });

/// A machine that is not restored stays as it was.
#[test]
fn refused_images(rt: HostRuntime) -> Result<(), Refused> {
    let mut machine = Machine::open(rt.alloc(), &BOARD)?;
    let mut memory = Memory::new();
    for rows in [&SET_UP[..], &MAP, &BEFORE] {
        play(&rt, &mut machine, &mut memory, rows);
    }
    for (text, refusal) in REFUSED {
        let done = restore(rt.alloc(), &mut machine, text.as_bytes());
        assert_eq!(rt; done, Err(refusal), "{text}");
        assert_eq!(rt; machine.lines(1), IRQ);
    }
    play(&rt, &mut machine, &mut memory, &AFTER);
    Ok(())
}
