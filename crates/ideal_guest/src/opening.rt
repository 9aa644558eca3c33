//! How a guest opens.
ghost use Rattle.std.specs.Prelude.{◌≡◌, IfOk};
ghost use Rattle.floor_calls.specs.Calls.{IsGoodGuest};
ghost use Rattle.ideal_guest.specs.CanOpen.{OpeningsCanOpen};
ghost use Rattle.ideal_guest.specs.Opening.{opening};
ghost use Rattle.ideal_guest.specs.Sound.{IsSound};

use crate::guest::IdealGuest;
use floor_calls::{GuestSpec, ItsTables, cpus, enables_in, irqs, opening_enables, plains};
use irq_records::IrqRecords;
use std::alloc::{AllocError, Global};

impl IdealGuest {
    /// The state in which a guest opens: the records of its presets, nothing pending or active, memory and stored
    /// registers 0, and an ITS that has mapped nothing, and has room for all that it may ever map.
    /// `AllocError` where memory is refused.
    #[tactic(auto, using(crate::proofs::OpeningLemmas::sound_opening))]
    pub fn open(alloc: Global, guest: &GuestSpec) -> Result<Self, AllocError>
        requires { IsGoodGuest guest.now }
        ensures value { IfOk result (λ state. state ≡ opening guest.now) }
        ensures sound { IfOk result IsSound }
    {
        let Ok(tables) = ItsTables::of(alloc) else {
            return Err(AllocError);
        };
        Ok(IdealGuest {
            shape: guest.shape,
            irqs: IrqRecords::of(alloc, irqs(alloc, guest)?)?,
            cpus: cpus(alloc, guest)?,
            enables: enables_in(opening_enables(guest.on)),
            words: plains(alloc, &guest.shape)?,
            offset: 0,
            is_stalled: false,
            tables,
        })
    }
}

/// A law of every good guest: the state in which it opens is one in which a guest can open.
pub fn openings_can_open()
    ensures { OpeningsCanOpen }
{}
