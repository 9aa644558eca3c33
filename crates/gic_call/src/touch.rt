//! What an access or an ITS command does to one interrupt that is at no CPU interface.
ghost use Rattle.std.specs.Prelude.{◌≡◌, IsTrue};
ghost use Rattle.floor_registers.specs.Words.{IsShape, IsIrq, IsRecordOf, IsHome};
ghost use Rattle.gic_call.specs.Touch.{CanTouch, is_shown, touched, touch_answer};

use floor_registers::{GuestShape, Irq, Key, Kind, Route, read_part, write_part};

/// What an access or an ITS command does to one interrupt. A priority is a multiple of 8 up to 248, and a
/// target is one of the guest's vCPUs.
#[derive(Clone, Copy, Debug, PartialEq, Eq, Hash)]
pub enum Touching {
    /// A read of the interrupt's part of a register of this kind. An IROUTER is an SPI's.
    Read {
        kind: Kind,
    },
    /// A write of the interrupt's part of a register of this kind, which has as many bits as the part. An
    /// IROUTER is an SPI's, and of an LPI there are ISPENDR and ICPENDR alone, as INT and CLEAR write them.
    Register {
        kind: Kind,
        value: u64,
    },
    /// The interrupt's copies of GICD_CTLR.EnableGrp0 and EnableGrp1.
    Enables {
        en0: bool,
        en1: bool,
    },
    /// MAPTI or MAPI: an event is mapped to the LPI, which has a target and a configuration from then on.
    MapLpi {
        target: u32,
        enabled: bool,
        prio: u8,
    },
    /// MAPC, MOVI or MOVALL: the LPI's target, or none.
    Retarget {
        target: Option<u32>,
    },
    /// INV or INVALL: the LPI's configuration.
    Configure {
        enabled: bool,
        prio: u8,
    },
    /// MAPD, DISCARD, or an event mapped again: the LPI is discarded.
    Forget,
}

impl Touching {
    /// The record after the touch. A map, a new target and a configuration keep what is pending of the LPI;
    /// a discarded LPI is neither pending by software nor enabled, has no target, and priority 0.
    #[tactic(auto, using(crate::proofs::TouchLemmas::routed, crate::proofs::TouchLemmas::touch_valid))]
    pub fn applied(self, key: Key, irq: &Irq, shape: &GuestShape) -> Irq
        requires shape { IsShape shape.now }
        requires can { CanTouch shape.now key self }
        requires record { IsRecordOf shape.now key irq.now }
        ensures value { result ≡ touched shape.now key self irq.now }
        ensures valid { IsRecordOf shape.now key result }
        ensures holder { result.holder ≡ irq.now.holder }
        ensures want { result.want ≡ irq.now.want }
        ensures home { IsHome irq.now → IsHome result }
    {
        match self {
            Touching::Read { .. } => *irq,
            Touching::Register { kind, value } => write_part(kind, key, irq, value, shape),
            Touching::Enables { en0, en1 } => Irq { en0, en1, ..*irq },
            Touching::MapLpi {
                target,
                enabled,
                prio,
            } => Irq {
                route: Route::Target(Some(target)),
                enabled,
                prio,
                ..*irq
            },
            Touching::Retarget { target } => Irq {
                route: Route::Target(target),
                ..*irq
            },
            Touching::Configure { enabled, prio } => Irq {
                enabled,
                prio,
                ..*irq
            },
            Touching::Forget => Irq {
                soft: false,
                route: Route::Target(None),
                enabled: false,
                prio: 0,
                ..*irq
            },
        }
    }

    /// What the touch reads of the record before it: a read the interrupt's part, any other touch nothing.
    pub fn answer(self, irq: &Irq) -> Option<u64>
        requires irq { IsIrq irq.now }
        requires shown { IsTrue (is_shown self irq.now) }
        ensures { result ≡ touch_answer self irq.now }
    {
        match self {
            Touching::Read { kind } => Some(read_part(kind, irq)),
            _ => None,
        }
    }
}
