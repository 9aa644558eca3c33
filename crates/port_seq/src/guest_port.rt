//! The port of the actor that a guest tells.
use crate::guest::GuestPort;
use port_ops::{CoreStep, ItsTables, Local, Port};
use scn_base::GuestShape;

impl Port for GuestPort {
    ghost use Rattle.port_seq.specs.Told.{seen_of};
    ghost use Rattle.port_seq.specs.Ports.{told};
    ghost use Rattle.port_seq.specs.Kept.{told_is_port};

    ghost seen = { λ port. seen_of (told port) };

    ghost is_port = { λ port. told_is_port (told port) port.good port.there port.sound port.made port.turn };

    fn actor(&self) -> u32 {
        self.actor
    }

    fn shape(&self) -> GuestShape {
        self.shape
    }

    fn local(&self) -> Local {
        self.own_local().copied()
    }

    fn local_ref(&self) -> &Local {
        self.own_local()
    }

    #[inline(always)]
    fn step(&mut self, step: CoreStep) -> u64 {
        self.make(step)
    }

    fn take_tables(&mut self) -> ItsTables {
        self.take()
    }

    fn put_tables(&mut self, tables: ItsTables) {
        self.put(tables);
    }
}
