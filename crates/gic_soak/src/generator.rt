//! The generator of numbers, and the steps that it decides on.
ghost use Rattle.std.specs.Prelude.{◌≡◌, ◌<◌};
ghost use Rattle.gic_soak.specs.Draw.{draw as draw_from};
ghost use Rattle.gic_soak.specs.Generated.{message as message_from, acknowledge as acknowledge_from, end_of_interrupt as end_of_interrupt_from, step as step_from};

use scn_base::{DeviceOp, FIRST_SPI, Frame, GuestOp, IccReg, Step};

/// The factor of the generator, which is Knuth's for MMIX.
const FACTOR: u64 = 6_364_136_223_846_793_005;
/// The term that it adds, which is Knuth's too.
const TERM: u64 = 1_442_695_040_888_963_407;
/// How many low bits of a state no draw answers: they vary least.
const LOW_BITS: u32 = 33;

/// How many vCPUs the guest has.
pub(crate) const VCPUS: u32 = 2;
/// How many SPIs it has.
pub(crate) const SPIS: u32 = 32;

/// The kind of a step is drawn below this: three in eight are messages, two acknowledge, two end an interrupt, and one
/// deactivates.
const KINDS: u32 = 8;
/// GICD_ICACTIVER1, the register of the SPIs 32 to 63.
const ICACTIVER1: u32 = 0x384;
/// How many bytes it has.
const REGISTER_SIZE: u32 = 4;
/// All interrupts of a register.
const ALL: u64 = 0xFFFF_FFFF;

/// vCPU 0 deactivates all SPIs.
const DEACTIVATION: Step = Step::Vcpu {
    guest: 0,
    vcpu: 0,
    op: GuestOp::Mem {
        frame: Frame::Dist,
        offset: ICACTIVER1,
        size: REGISTER_SIZE,
        write: Some(ALL),
    },
};

/// A linear congruential generator.
#[derive(Drop)]
pub(crate) struct Generator {
    pub state: u64,
}

impl Generator {
    /// Draws a number below another.
    fn draw(&mut self, below: u32) -> u32
        requires { 0 < below }
        ensures value { draw_from below self.old.state ≡ (result, self.new.state) }
        ensures below { result < below }
    {
        self.state = self.state.wrapping_mul(FACTOR).wrapping_add(TERM);
        ((self.state >> LOW_BITS) % u64::from(below)) as u32
    }

    /// A device's message of an SPI.
    fn message(&mut self) -> Step
        ensures { message_from self.old.state ≡ (result, self.new.state) }
    {
        Step::Device {
            guest: 0,
            device: 0,
            op: DeviceOp::Message {
                spi: FIRST_SPI + self.draw(SPIS),
            },
        }
    }

    /// A vCPU acknowledges an interrupt of group 1.
    fn acknowledge(&mut self) -> Step
        ensures { acknowledge_from self.old.state ≡ (result, self.new.state) }
    {
        Step::Vcpu {
            guest: 0,
            vcpu: self.draw(VCPUS),
            op: GuestOp::Icc {
                reg: IccReg::Iar1,
                write: None,
            },
        }
    }

    /// A vCPU ends an SPI of group 1.
    fn end_of_interrupt(&mut self) -> Step
        ensures { end_of_interrupt_from self.old.state ≡ (result, self.new.state) }
    {
        let vcpu = self.draw(VCPUS);
        let spi = FIRST_SPI + self.draw(SPIS);
        Step::Vcpu {
            guest: 0,
            vcpu,
            op: GuestOp::Icc {
                reg: IccReg::Eoir1,
                write: Some(u64::from(spi)),
            },
        }
    }

    /// The next step.
    pub(crate) fn step(&mut self) -> Step
        ensures { step_from self.old.state ≡ (result, self.new.state) }
    {
        match self.draw(KINDS) {
            0..=2 => self.message(),
            3 | 4 => self.acknowledge(),
            5 | 6 => self.end_of_interrupt(),
            _ => DEACTIVATION,
        }
    }
}
