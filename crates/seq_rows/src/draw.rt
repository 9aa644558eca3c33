//! Drawn scenarios: of each step the form, and who does it.

use crate::access::{
    acknowledge, end_of, gicd_write, gicr_write, icc_end, icc_read, icc_write, register_read,
    route, send_sgi, stores,
};
use crate::command::{DEVICE, setup, words};
use crate::dice::Dice;
use crate::guests::{guests, shared_id};
use gic_top::{DeviceOp, Frame, GuestOp, GuestShape, Key, ListOf, PeOp, Scenario, Step, Steps};
use std::alloc::{AllocError, Global};

/// Where a queue of one page begins, and the table of the LPIs' configurations.
pub(crate) const QUEUE: u32 = 0x1000;

pub(crate) const CONFIGURATIONS: u32 = 0x3000;

pub(crate) const QUEUE_BYTES: u32 = 4096;

pub(crate) const COMMAND_BYTES: u32 = 32;

/// Offsets of registers of the ITS and of a redistributor.
const CBASER: u32 = 0x80;

const CWRITER: u32 = 0x88;

const PROPBASER: u32 = 0x70;

const PENDBASER: u32 = 0x78;

/// CBASER: the queue is valid, and has one page.
pub(crate) const ONE_PAGE: u64 = 0x8000_0000_0000_1000;

/// PROPBASER: the table at 0x3000, for INTIDs of 14 bits.
pub(crate) const TABLE: u64 = 0x300D;

/// PENDBASER: a table of zeros.
const ZEROS: u64 = 0x4000_0000_0001_0000;

/// Steps that are being drawn.
#[derive(Drop)]
struct Drawing {
    steps: Steps,
    /// Of each guest, where its next command goes in the queue.
    offsets: [u32; 4],
}

impl Drawing {
    /// No steps yet, and empty queues.
    fn new(alloc: Global) -> Drawing {
        Drawing {
            steps: ListOf::new(alloc),
            offsets: [0; 4],
        }
    }

    fn add(&mut self, step: Step) -> Result<(), AllocError> {
        self.steps.push(step)?;
        Ok(())
    }

    /// A vCPU of a guest does an operation.
    fn does(&mut self, guest: u32, vcpu: u32, op: GuestOp) -> Result<(), AllocError> {
        self.add(Step::Vcpu { guest, vcpu, op })
    }

    /// A vCPU of a guest writes a register.
    fn writes(
        &mut self,
        guest: u32,
        vcpu: u32,
        frame: Frame,
        offset: u32,
        size: u32,
        value: u64,
    ) -> Result<(), AllocError> {
        self.does(guest, vcpu, stores(frame, offset, size, value))
    }

    /// A vCPU of a guest writes a command into its queue.
    fn command(&mut self, guest: u32, vcpu: u32, words: &[u64; 4]) -> Result<(), AllocError> {
        let place = (guest % 4) as usize;
        let offset = self.offsets[place] % QUEUE_BYTES;
        for (number, word) in words.iter().enumerate() {
            let address = QUEUE + offset + 8 * number as u32;
            self.writes(guest, vcpu, Frame::Ram, address, 8, *word)?;
        }
        self.offsets[place] = (offset + COMMAND_BYTES) % QUEUE_BYTES;
        Ok(())
    }

    /// A vCPU of a guest tells the ITS where the commands end, and whether a stalled queue goes on.
    fn end(&mut self, guest: u32, vcpu: u32, retry: u64) -> Result<(), AllocError> {
        let end = u64::from(self.offsets[(guest % 4) as usize]);
        self.writes(guest, vcpu, Frame::Its, CWRITER, 8, end | retry)
    }

    /// The ITS of a guest is set up: the tables of its vCPUs, its queue, and the first commands.
    fn set_up(&mut self, guest: u32, shape: &GuestShape) -> Result<(), AllocError> {
        for (lpi, byte) in [0xA1, 0xA1, 0xA1, 0x41].iter().enumerate() {
            let address = CONFIGURATIONS + lpi as u32;
            self.writes(guest, 0, Frame::Ram, address, 1, *byte)?;
        }
        for vcpu in 0..shape.vcpus {
            let frame = Frame::Redist { vcpu };
            self.writes(guest, 0, frame, PROPBASER, 8, TABLE)?;
            self.writes(guest, 0, frame, PENDBASER, 8, ZEROS)?;
            self.writes(guest, 0, frame, 0, 4, 1)?;
        }
        self.writes(guest, 0, Frame::Its, CBASER, 8, ONE_PAGE)?;
        self.writes(guest, 0, Frame::Its, 0, 4, 1)?;
        for words in &setup(shape.vcpus.saturating_sub(1)) {
            self.command(guest, 0, words)?;
        }
        self.end(guest, 0, 0)
    }

    /// A step of the ITS.
    fn its(&mut self, dice: &mut Dice, guest: u32) -> Result<(), AllocError> {
        let vcpu = dice.roll_small(3);
        match dice.roll(12) {
            0 => self.writes(guest, vcpu, Frame::Its, 0, 4, dice.one_of(&[1, 1, 0])),
            1 => {
                let address = CONFIGURATIONS + dice.roll_small(5);
                let byte = dice.one_of(&[0xA1, 0xA0, 0x41, 0x21, 0xA9, 0x00]);
                self.writes(guest, vcpu, Frame::Ram, address, 1, byte)
            }
            2 => self.end(guest, vcpu, 1),
            3 => {
                self.offsets[(guest % 4) as usize] = 0;
                self.writes(guest, vcpu, Frame::Its, CBASER, 8, ONE_PAGE)
            }
            4 => {
                let frame = Frame::Redist {
                    vcpu: dice.roll_small(3),
                };
                self.writes(guest, vcpu, frame, 0, 4, 1)
            }
            _ => {
                for _ in 0..1 + dice.roll(2) {
                    self.command(guest, vcpu, &words(dice))?;
                }
                self.end(guest, vcpu, dice.roll(2))
            }
        }
    }

    /// A step of a device.
    fn device(&mut self, dice: &mut Dice, guest: u32) -> Result<(), AllocError> {
        let device = dice.roll_small(2);
        let up = dice.is_once_in(2);
        let op = match dice.roll(10) {
            0..=2 => DeviceOp::Message {
                spi: shared_id(dice),
            },
            3..=5 => DeviceOp::Wire {
                key: Key::Spi(shared_id(dice)),
                up,
            },
            6 => DeviceOp::Wire {
                key: Key::Private {
                    vcpu: dice.roll_small(3),
                    id: dice.small_of(&[20, 27]),
                },
                up,
            },
            _ => DeviceOp::Msi {
                device: DEVICE,
                event: dice.roll_small(4),
            },
        };
        self.add(Step::Device { guest, device, op })
    }

    /// An SPI goes from one vCPU to another: it is acknowledged, routed anew, ended, sent again, and acknowledged there; now and
    /// then a step is left out.
    fn hand_over(&mut self, dice: &mut Dice, guest: u32) -> Result<(), AllocError> {
        let id = shared_id(dice);
        let from = dice.roll_small(3);
        let to = dice.roll_small(3);
        let message = Step::Device {
            guest,
            device: 0,
            op: DeviceOp::Message { spi: id },
        };
        let routes = Step::Vcpu {
            guest,
            vcpu: dice.roll_small(3),
            op: route(id, to),
        };
        let does = |vcpu, op| Step::Vcpu { guest, vcpu, op };
        let steps = [
            message,
            does(from, acknowledge()),
            routes,
            does(from, end_of(id)),
            message,
            does(to, acknowledge()),
        ];
        for step in steps {
            if !dice.is_once_in(8) {
                self.add(step)?;
            }
        }
        Ok(())
    }

    /// A step of a PE.
    fn pe(&mut self, dice: &mut Dice, guest: u32) -> Result<(), AllocError> {
        let pe = dice.roll_small(3);
        let op = match dice.roll(7) {
            0 => PeOp::Exit,
            1..=3 => PeOp::Enter {
                guest,
                vcpu: dice.roll_small(3),
            },
            _ => PeOp::Lrs,
        };
        self.add(Step::Pe { pe, op })
    }

    /// A step, or some that belong together, of a guest.
    fn step(&mut self, dice: &mut Dice, guest: u32) -> Result<(), AllocError> {
        let vcpu = dice.roll_small(3);
        match dice.roll(27) {
            0..=4 => self.does(guest, vcpu, icc_read(dice)),
            5..=7 => self.does(guest, vcpu, icc_end(dice)),
            8 => self.does(guest, vcpu, icc_write(dice)),
            9 => self.does(guest, vcpu, send_sgi(dice)),
            10..=12 => self.does(guest, vcpu, gicd_write(dice)),
            13 => self.does(guest, vcpu, gicr_write(dice)),
            14 => self.does(guest, vcpu, register_read(dice)),
            15..=18 => self.device(dice, guest),
            19..=21 => self.pe(dice, guest),
            22 | 23 => self.its(dice, guest),
            _ => self.hand_over(dice, guest),
        }
    }

    /// So many steps, or a few more, each of one of the guests.
    fn tries(&mut self, dice: &mut Dice, guests: usize, tries: u32) -> Result<(), AllocError> {
        let guests: u32 = match guests {
            0 | 1 => 1,
            2 => 2,
            _ => 3,
        };
        for _ in 0..tries {
            let guest = dice.roll_small(guests);
            self.step(dice, guest)?;
        }
        Ok(())
    }
}

/// The PEs, the list registers and the guests of a scenario, which has no steps yet.
pub(crate) fn opening(alloc: Global, dice: &mut Dice) -> Result<Scenario, AllocError> {
    Ok(Scenario {
        pes: 1 + dice.roll_small(4),
        lrs: dice.small_of(&[1, 1, 2, 2, 3, 4]),
        guests: guests(alloc, dice)?,
        steps: ListOf::new(alloc),
    })
}

/// Steps for a scenario, so many or a few more for each guest, beside those that set up an ITS. Some of them can't be done.
pub(crate) fn steps(
    alloc: Global,
    dice: &mut Dice,
    scenario: &Scenario,
    tries: u32,
) -> Result<Steps, AllocError> {
    let mut drawing = Drawing::new(alloc);
    let mut guest: u32 = 0;
    for spec in scenario.guests.iter() {
        if spec.shape.lpis > 0 {
            drawing.set_up(guest, &spec.shape)?;
        }
        guest = guest.wrapping_add(1);
    }
    drawing.tries(dice, scenario.guests.len(), tries)?;
    Ok(drawing.steps)
}

/// The same for guests, so many, of which no ITS is set up.
pub(crate) fn later_steps(
    alloc: Global,
    dice: &mut Dice,
    guests: usize,
    tries: u32,
) -> Result<Steps, AllocError> {
    let mut drawing = Drawing::new(alloc);
    drawing.tries(dice, guests, tries)?;
    Ok(drawing.steps)
}
