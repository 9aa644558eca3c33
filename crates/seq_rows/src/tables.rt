//! What an ITS has mapped, drawn.

use crate::dice::Dice;
use eager_rest::check::{ColEnd, ColEnds, DevEnd, DevEnds, EvtEnd, EvtEnds, GuestShape, ListOf};
use std::alloc::{AllocError, Global};

/// The devices that may be mapped.
const DEVICES: [u32; 2] = [8, 9];

/// How many events a device may have that are mapped, and how many collections there may be.
const EVENTS: u32 = 4;

const COLLECTIONS: u16 = 4;

/// The INTID of the first LPI.
const FIRST_LPI: u32 = 8192;

/// Devices, events and collections.
#[derive(Drop)]
pub(crate) struct Mapped {
    pub(crate) dev: DevEnds,
    pub(crate) evt: EvtEnds,
    pub(crate) col: ColEnds,
}

impl Mapped {
    /// The vCPU of the collection of the event that an LPI has, if there are both.
    pub(crate) fn vcpu_of(&self, lpi: u32) -> Option<u32> {
        let event = self.evt.iter().find(|event| event.id == lpi)?;
        let collection = self.col.iter().find(|col| col.icid == event.icid)?;
        Some(collection.vcpu)
    }

    /// A device with 1 to 5 bits, and some of its events, each with an LPI that none has yet: those behind `last`.
    fn add_device(
        &mut self,
        dice: &mut Dice,
        device: u32,
        last: &mut u32,
        shape: &GuestShape,
    ) -> Result<(), AllocError> {
        let bits = 1 + dice.roll_small(5);
        self.dev.push(DevEnd { device, bits })?;
        let events = if bits == 1 { 2 } else { EVENTS };
        for event in 0..events {
            let id = last.wrapping_add(1).wrapping_add(dice.roll_small(2));
            if dice.is_once_in(2) && id < FIRST_LPI.wrapping_add(shape.lpis) {
                *last = id;
                let icid = dice.roll(u64::from(COLLECTIONS)) as u16;
                self.evt.push(EvtEnd {
                    device,
                    event,
                    id,
                    icid,
                })?;
            }
        }
        Ok(())
    }

    /// Some collections.
    fn add_collections(&mut self, dice: &mut Dice, vcpus: u32) -> Result<(), AllocError> {
        for icid in 0..COLLECTIONS {
            if !dice.is_once_in(4) {
                let vcpu = dice.roll_small(vcpus.max(1));
                self.col.push(ColEnd { icid, vcpu })?;
            }
        }
        Ok(())
    }
}

/// What the ITS of a guest has mapped; nothing where it has none.
pub(crate) fn map_some(
    alloc: Global,
    dice: &mut Dice,
    shape: &GuestShape,
) -> Result<Mapped, AllocError> {
    let mut mapped = Mapped {
        dev: ListOf::new(alloc),
        evt: ListOf::new(alloc),
        col: ListOf::new(alloc),
    };
    if shape.lpis == 0 {
        return Ok(mapped);
    }
    let mut last = FIRST_LPI - 1;
    for device in DEVICES {
        if !dice.is_once_in(4) {
            mapped.add_device(dice, device, &mut last, shape)?;
        }
    }
    mapped.add_collections(dice, shape.vcpus)?;
    Ok(mapped)
}
