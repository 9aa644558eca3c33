//! The port of an actor: its atomic steps, one at a time.
ghost use Rattle.std.specs.Prelude.{◌≡◌, IsTrue, true, false};
ghost use Rattle.port_core.specs.Known.{known_maps};
ghost use Rattle.port_core.specs.Port.{Seen, IsPort, shape_of, word_by, left_by, CanMake, AddsStep};
ghost use Rattle.port_core.specs.Valid.{CanFind};

use crate::local::Local;
use crate::step::CoreStep;
use core_words::{GuestShape, ItsTables};

/// What an actor of a guest makes its atomic steps through: it has the words that all actors of the guest share, and
/// what the actor has for itself.
pub trait Port {
    /// What is told of the actor.
    ghost seen: { Self → Seen };

    /// What it tells is of a good guest and of one of its actors.
    ghost is_port: { (port : Self) → IsPort (seen port) };

    /// The number of the actor: the vCPUs come first, and then the devices.
    fn actor(&self) -> u32
        ensures { result ≡ (seen self.now).actor };

    /// The guest's shape.
    fn shape(&self) -> GuestShape
        ensures { result ≡ shape_of (seen self.now) };

    /// A copy of what the actor has for itself: near a kilobyte.
    fn local(&self) -> Local
        ensures { result ≡ (seen self.now).local };

    /// What the actor has for itself, without a copy.
    fn local_ref(&self) -> &Local
        ensures { result.now ≡ (seen self.now).local };

    /// Makes one atomic step, and answers the word that it found.
    fn step(&mut self, step: CoreStep) -> u64
        requires { CanMake (seen self.old) step }
        ensures found { CanFind (shape_of (seen self.old)) (seen self.old).actor (seen self.old).local (word_by (seen self.old) step) result }
        ensures left { CanFind (shape_of (seen self.old)) (seen self.old).actor (seen self.new).local (word_by (seen self.old) step) (left_by (seen self.old) step result) }
        ensures adds { AddsStep (seen self.old) (seen self.new) step result };

    /// Takes the tables of the ITS, which the actor has.
    fn take_tables(&mut self) -> ItsTables
        requires turn { IsTrue (seen self.old).local.turn }
        requires home { (seen self.old).taken ≡ false }
        ensures value { result ≡ known_maps (seen self.old).own }
        ensures seen { seen self.new ≡ record (seen self.old) { taken = true } };

    /// Gives the tables back, as the actor's commands left them.
    fn put_tables(&mut self, tables: ItsTables)
        requires taken { IsTrue (seen self.old).taken }
        requires value { tables ≡ known_maps (seen self.old).own }
        ensures { seen self.new ≡ record (seen self.old) { taken = false } };
}
