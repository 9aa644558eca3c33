//! The port of the actor that is told, of any guest.
use crate::port::SeqPort;
use port_ops::{CoreStep, ItsTables, Local, Port};
use scn_base::GuestShape;

impl Port for SeqPort {
    ghost use Rattle.port_seq.specs.Told.{seen_in};
    ghost use Rattle.port_seq.specs.Ports.{told_all};
    ghost use Rattle.port_seq.specs.Every.{each_is_port};

    ghost seen = { λ port. seen_in (told_all port) };

    ghost is_port = { λ port. each_is_port port.guests.items port.guest port.there };

    fn actor(&self) -> u32 {
        self.current().actor()
    }

    fn shape(&self) -> GuestShape {
        self.current().shape()
    }

    fn local(&self) -> Local {
        self.current().local()
    }

    fn local_ref(&self) -> &Local {
        self.current().local_ref()
    }

    fn step(&mut self, step: CoreStep) -> u64 {
        self.guests[self.guest as usize].step(step)
    }

    fn take_tables(&mut self) -> ItsTables {
        self.guests[self.guest as usize].take_tables()
    }

    fn put_tables(&mut self, tables: ItsTables) {
        self.guests[self.guest as usize].put_tables(tables);
    }
}
