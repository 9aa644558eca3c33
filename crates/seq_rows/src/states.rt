//! Drawn states of guests: what can be saved, whether a run leaves it or none does.

use crate::command::words;
use crate::dice::Dice;
use crate::draw::{COMMAND_BYTES, CONFIGURATIONS, ONE_PAGE, QUEUE, QUEUE_BYTES, TABLE};
use crate::guests::priority;
use crate::tables::{Mapped, map_some};
use eager_rest::check::{
    CpuState, GuestShape, GuestSpec, GuestState, ItsState, Key, ListOf, RamState, RamStates,
    RecState, RecStates, RedistState,
};
use saved_guest::{Table, baser, pendbaser_after, propbaser_after};
use std::alloc::{AllocError, Global};

/// Priority masks: most let all pass.
const MASKS: [u8; 5] = [0xF0, 0xF0, 0xF8, 0x80, 0x28];

/// The numbers of faults of commands.
const FAULTS: [u8; 9] = [1, 2, 3, 4, 5, 6, 7, 8, 10];

/// The interrupts of a vCPU's own, of which the first are SGIs, and the first SPI and LPI.
const PRIVATE_COUNT: u32 = 32;

const SGI_COUNT: u32 = 16;

const FIRST_SPI: u32 = 32;

const FIRST_LPI: u32 = 8192;

/// The enables of GICD_CTLR.
const BOTH_ENABLES: u32 = 3;

/// Places of commands in a queue of one page, and how many commands stand behind the next one.
const PLACES: u32 = QUEUE_BYTES / COMMAND_BYTES;

const COMMANDS: u32 = 6;

/// The bytes of a word of memory.
const WORD_BYTES: u32 = 8;

/// Configurations of eight LPIs: all enabled, and some of them.
const CONFIGURED: [u64; 3] = [
    0xA1A1_A1A1_A1A1_A1A1,
    0x41A1_A021_A941_A1A1,
    0x00A0_41A1_2141_A100,
];

/// Active levels: none, one, or any.
fn levels(dice: &mut Dice) -> u32 {
    match dice.roll(5) {
        0 => 1 << dice.roll_small(32),
        1 => dice.roll(1 << 32) as u32,
        _ => 0,
    }
}

/// A CPU interface.
fn cpu(dice: &mut Dice, has_lpis: bool) -> CpuState {
    CpuState {
        pmr: MASKS[dice.roll(5) as usize],
        bpr0: 2 + dice.roll(6) as u8,
        bpr1: 3 + dice.roll(5) as u8,
        cbpr: dice.is_once_in(3),
        eoimode: dice.is_once_in(3),
        en0: !dice.is_once_in(3),
        en1: !dice.is_once_in(6),
        lpis: has_lpis && !dice.is_once_in(3),
        ap0: levels(dice),
        ap1: levels(dice),
    }
}

/// A vCPU of a guest with so many.
fn vcpu_of(dice: &mut Dice, vcpus: u32) -> u32 {
    dice.roll_small(vcpus.max(1))
}

/// By whom an interrupt is active, and for whom it is: an LPI for this vCPU or for none.
fn whose(
    dice: &mut Dice,
    key: Key,
    shape: &GuestShape,
    target: Option<u32>,
) -> (Option<u32>, Option<u32>) {
    let is_active = dice.is_once_in(4);
    match key {
        Key::Private { vcpu, .. } => (is_active.then_some(vcpu), None),
        Key::Spi(_) => {
            let affinity = if dice.is_once_in(8) {
                dice.roll_small(1 << 31)
            } else {
                vcpu_of(dice, shape.vcpus)
            };
            let vcpu = vcpu_of(dice, shape.vcpus);
            (is_active.then_some(vcpu), Some(affinity))
        }
        Key::Lpi(_) => (None, target),
    }
}

/// The device that moved a wire, or none.
fn mover(dice: &mut Dice, devices: u32) -> Option<u32> {
    let device = dice.roll_small(devices.max(1));
    (devices > 0 && dice.is_once_in(3)).then_some(device)
}

/// The record of an interrupt.
fn rec(dice: &mut Dice, key: Key, shape: &GuestShape, gicd: u32, target: Option<u32>) -> RecState {
    let has_wire = match key {
        Key::Private { id, .. } => id >= SGI_COUNT,
        Key::Spi(_) => true,
        Key::Lpi(_) => false,
    };
    let (act, route) = whose(dice, key, shape, target);
    let mover = mover(dice, shape.devices);
    RecState {
        key,
        enabled: !dice.is_once_in(4),
        group: if matches!(key, Key::Lpi(_)) || !dice.is_once_in(3) {
            1
        } else {
            0
        },
        prio: priority(dice),
        edge: !has_wire || dice.is_once_in(2),
        line: has_wire && dice.is_once_in(2),
        rise: has_wire && dice.is_once_in(2),
        soft: dice.is_once_in(3),
        act,
        route,
        en0: gicd & 1 != 0,
        en1: gicd & 2 != 0,
        mover: if has_wire { mover } else { None },
    }
}

/// The records of a guest's interrupts in key order: of each LPI that is for a vCPU, and of others all or some.
#[derive(Drop)]
struct Drawn<'a> {
    shape: &'a GuestShape,
    gicd: u32,
    all: bool,
}

impl Drawn<'_> {
    /// The record of an interrupt, where it is to be there.
    fn rec(&self, dice: &mut Dice, key: Key, target: Option<u32>) -> Option<RecState> {
        let is_there = self.all || target.is_some() || dice.is_once_in(6);
        is_there.then_some(rec(dice, key, self.shape, self.gicd, target))
    }

    /// The private interrupts, those of one vCPU after those of another.
    fn add_private(&self, dice: &mut Dice, recs: &mut RecStates) -> Result<(), AllocError> {
        for vcpu in 0..self.shape.vcpus {
            for id in 0..PRIVATE_COUNT {
                if let Some(rec) = self.rec(dice, Key::Private { vcpu, id }, None) {
                    recs.push(rec)?;
                }
            }
        }
        Ok(())
    }

    /// The SPIs.
    fn add_spis(&self, dice: &mut Dice, recs: &mut RecStates) -> Result<(), AllocError> {
        for number in 0..self.shape.spis {
            if let Some(rec) = self.rec(dice, Key::Spi(FIRST_SPI.wrapping_add(number)), None) {
                recs.push(rec)?;
            }
        }
        Ok(())
    }

    /// The LPIs. One that has an event of a mapped collection is for the collection's vCPU, or another.
    fn add_lpis(
        &self,
        dice: &mut Dice,
        mapped: &Mapped,
        recs: &mut RecStates,
    ) -> Result<(), AllocError> {
        for number in 0..self.shape.lpis {
            let lpi = FIRST_LPI.wrapping_add(number);
            let other = dice.is_once_in(4);
            let vcpu = vcpu_of(dice, self.shape.vcpus);
            let target = mapped
                .vcpu_of(lpi)
                .map(|own| if other { vcpu } else { own });
            if let Some(rec) = self.rec(dice, Key::Lpi(lpi), target) {
                recs.push(rec)?;
            }
        }
        Ok(())
    }
}

/// The registers of an ITS, and how its queue is.
fn its(dice: &mut Dice) -> ItsState {
    let stalled = dice.is_once_in(4);
    let fault = FAULTS[dice.roll(9) as usize];
    ItsState {
        enabled: !dice.is_once_in(3),
        cbaser: if dice.is_once_in(8) { 0 } else { ONE_PAGE },
        cwriter: u64::from(COMMAND_BYTES) * dice.roll(u64::from(PLACES)),
        offset: COMMAND_BYTES * dice.roll_small(PLACES),
        stalled,
        fault: if stalled { fault } else { 0 },
        baser0: baser(Table::Devices, dice.roll(u64::MAX)),
        baser1: baser(Table::Collections, dice.roll(u64::MAX)),
    }
}

/// The registers of a redistributor: mostly with the table of configurations.
fn redist(dice: &mut Dice) -> RedistState {
    let any = dice.roll(u64::MAX);
    let table = if dice.is_once_in(4) { any } else { TABLE };
    RedistState {
        propbaser: propbaser_after(false, 0, table),
        pendbaser: pendbaser_after(false, 0, any),
    }
}

/// Words of memory: commands in the queue from an offset on, and the configurations of LPIs.
fn ram(alloc: Global, dice: &mut Dice, offset: u32) -> Result<RamStates, AllocError> {
    let mut ram = ListOf::new(alloc);
    for number in 0..COMMANDS {
        let place = offset.wrapping_add(number.wrapping_mul(COMMAND_BYTES));
        if place < QUEUE_BYTES {
            let mut index = QUEUE.wrapping_add(place) / WORD_BYTES;
            for word in words(dice) {
                ram.push(RamState { index, word })?;
                index = index.wrapping_add(1);
            }
        }
    }
    ram.push(RamState {
        index: CONFIGURATIONS / WORD_BYTES,
        word: dice.one_of(&CONFIGURED),
    })?;
    Ok(ram)
}

/// A state of a guest: its enables mostly as it opened, else with each record.
pub(crate) fn state(
    alloc: Global,
    dice: &mut Dice,
    guest: &GuestSpec,
) -> Result<GuestState, AllocError> {
    let shape = &guest.shape;
    let opened = if guest.on { BOTH_ENABLES } else { 0 };
    let other = dice.roll_small(BOTH_ENABLES + 1);
    let gicd = if dice.is_once_in(4) { other } else { opened };
    let has_lpis = shape.lpis > 0;
    let mapped = map_some(alloc, dice, shape)?;
    let drawn = Drawn {
        shape,
        gicd,
        all: gicd != opened,
    };
    let mut rec = ListOf::new(alloc);
    drawn.add_private(dice, &mut rec)?;
    drawn.add_spis(dice, &mut rec)?;
    drawn.add_lpis(dice, &mapped, &mut rec)?;
    let mut cpu_states = ListOf::new(alloc);
    let mut redists = ListOf::new(alloc);
    for _ in 0..shape.vcpus {
        cpu_states.push(cpu(dice, has_lpis))?;
        redists.push(redist(dice))?;
    }
    let its = its(dice);
    let ram = if has_lpis {
        ram(alloc, dice, its.offset)?
    } else {
        ListOf::new(alloc)
    };
    let Mapped { dev, evt, col } = mapped;
    Ok(GuestState {
        gicd,
        cpu: cpu_states,
        rec,
        redist: redists,
        its: has_lpis.then_some(its),
        dev,
        evt,
        col,
        ram,
    })
}
