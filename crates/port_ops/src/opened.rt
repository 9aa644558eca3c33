//! How a guest opened.
ghost use Rattle.std.specs.Prelude.{◌≡◌, ◌<◌, IfOk, false, slice_index_or};
ghost use Rattle.port_core.specs.Words.{IsShape};
ghost use Rattle.port_core.specs.Calls.{IsGoodGuest, opening_cpu as cpu_at_opening};
ghost use Rattle.port_core.specs.IdealGuests.CanOpen.{CanOpen};
ghost use Rattle.port_core.specs.IdealGuests.Opening.{opening as opening_guest};
ghost use Rattle.port_core.specs.Actor.{actor_at as actor_in, actor_count as count_of};
ghost use Rattle.port_core.specs.Local.{opening_local};
ghost use Rattle.port_core.specs.Run.{opening};
ghost use Rattle.port_ops.specs.World.{locals_in};

use port_core::{
    CpuRec, GuestShape, GuestSpec, IdealGuest, Local, actor_at, actor_count, opening_cpu,
};
use std::alloc::{AllocError, Global};

/// A guest as it opened, with its number: as a scenario's guest opens, or in any other state in which a guest can open.
/// The rule of its words speaks of it.
#[derive(Drop)]
pub struct Opened {
    pub number: u32,
    pub guest: IdealGuest,
}

/// What an actor has for itself as its guest, of such a number and shape, opens with these records of its CPU
/// interfaces: a vCPU its own one.
pub fn local_at_opening(actor: u32, number: u32, shape: &GuestShape, cpus: &[CpuRec]) -> Local
    requires shape { IsShape shape.now }
    requires there { actor < count_of shape.now }
    ensures { result ≡ opening_local (actor_in shape.now number actor) (slice_index_or cpus.now actor (cpu_at_opening false)) }
{
    let cpu = match cpus.get(actor as usize) {
        Some(cpu) => *cpu,
        None => opening_cpu(false),
    };
    Local::opening(actor_at(actor, number, shape), cpu)
}

impl Opened {
    /// A scenario's guest as it opens, with the guest's number. An error where memory is refused.
    pub fn of(alloc: Global, number: u32, guest: &GuestSpec) -> Result<Opened, AllocError>
        requires { IsGoodGuest guest.now }
        ensures value { IfOk result (λ opened. opened ≡ record { number = number; guest = opening_guest guest.now }) }
        ensures opens { IfOk result (λ opened. CanOpen opened.guest) }
    {
        Ok(Opened {
            number,
            guest: IdealGuest::open(alloc, guest)?,
        })
    }

    /// What each actor of the guest has for itself as the guest opens. An error where memory is refused.
    pub fn locals(&self, alloc: Global) -> Result<Vec<Local>, AllocError>
        requires { CanOpen self.now.guest }
        ensures { IfOk result (λ locals. locals.items ≡ locals_in (opening self.now.guest self.now.number)) }
    {
        let shape = self.guest.shape;
        let mut locals = Vec::new(alloc);
        for actor in 0..actor_count(&shape) {
            locals.push(local_at_opening(actor, self.number, &shape, self.guest.cpus.as_slice()))?;
        }
        Ok(locals)
    }
}
