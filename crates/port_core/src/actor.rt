//! The actors of a guest, and their numbering: the vCPUs come first, and then the devices.
ghost use Rattle.std.specs.Prelude.{◌≡◌, ◌<◌, ◌≤◌, IsTrue};
ghost use Rattle.core_words.specs.Words.{IsShape};
ghost use Rattle.port_core.specs.Actor.{actor_count as count_of, actor_at as actor_in, guest_of as guest_in, number_of as number_in, has_actor};

use core_words::{Actor, GuestShape};

/// How many actors a guest has, at most 36.
pub fn actor_count(shape: &GuestShape) -> u32
    requires { IsShape shape.now }
    ensures value { result ≡ count_of shape.now }
    ensures bound { result ≤ 36 }
{
    shape.vcpus + shape.devices
}

/// The actor of a number, in the guest of a number.
pub fn actor_at(number: u32, guest: u32, shape: &GuestShape) -> Actor
    requires { number < count_of shape.now }
    ensures value { result ≡ actor_in shape.now guest number }
    ensures there { IsTrue (has_actor shape.now result) }
    ensures inverse { number_in shape.now result ≡ number }
{
    if number < shape.vcpus {
        Actor::Vcpu {
            guest,
            vcpu: number,
        }
    } else {
        Actor::Device {
            guest,
            device: number - shape.vcpus,
        }
    }
}

/// The number of the guest that an actor is of.
pub fn guest_of(actor: Actor) -> u32
    ensures { result ≡ guest_in actor }
{
    match actor {
        Actor::Vcpu { guest, .. } | Actor::Device { guest, .. } => guest,
    }
}

/// The number of an actor in its guest.
pub fn number_of(actor: Actor, shape: &GuestShape) -> u32
    requires shape { IsShape shape.now }
    requires there { IsTrue (has_actor shape.now actor) }
    ensures value { result ≡ number_in shape.now actor }
    ensures within { result < count_of shape.now }
    ensures inverse { actor_in shape.now (guest_in actor) result ≡ actor }
{
    match actor {
        Actor::Vcpu { vcpu, .. } => vcpu,
        Actor::Device { device, .. } => shape.vcpus + device,
    }
}
