//! Guests that are alike, and the port of one thread that is told of a device of one.
ghost use Rattle.std.specs.Prelude.{map};
ghost use Rattle.port_seq.specs.IdealGuests.Opening.{opening};
ghost use Rattle.port_seq.specs.Told.{IsOpening};
ghost use Rattle.port_seq.specs.Ports.{told_all};

use port_seq::{Actor, GuestShape, GuestSpec, ListOf, Preset, Scenario, SeqPort};
use std::alloc::{AllocError, Global};

/// A scenario without steps, of so many guests of this shape, each of which opens on with these presets.
pub(crate) fn alike(
    alloc: Global,
    count: u32,
    shape: GuestShape,
    presets: &[Preset],
) -> Result<Scenario, AllocError> {
    let mut guests = ListOf::new(alloc);
    for _ in 0..count {
        guests.push(GuestSpec {
            shape,
            on: true,
            presets: ListOf::from(presets.to_vec(alloc)?),
        })?;
    }
    Ok(Scenario {
        pes: 1,
        lrs: 4,
        guests,
        steps: ListOf::new(alloc),
    })
}

/// Tells a device of the second of two guests that just opened. False where there is none.
pub(crate) fn tell_device(port: &mut SeqPort, guests: &[GuestSpec]) -> bool
    requires { IsOpening (map opening guests.now) (told_all port.old) }
{
    if guests.len() != 2 || guests[1].shape.devices == 0 {
        return false;
    }
    port.set_actor(Actor::Device {
        guest: 1,
        device: 0,
    });
    true
}
