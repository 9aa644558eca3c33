//! The steps of an actor through its port.
use crate::port::TablePort;
use crate::rule::make;
use port_ops::{CoreStep, ItsTables, Local, Port, place_of_word};
use scn_base::GuestShape;

impl<'a> Port for TablePort<'a> {
    ghost use Rattle.port_table.specs.Ports.{seen_of};
    ghost use Rattle.port_table.specs.Kept.{table_is_port};

    ghost seen = { λ port. seen_of port };

    ghost is_port = { λ port. table_is_port port };

    fn actor(&self) -> u32 {
        self.actor
    }

    fn shape(&self) -> GuestShape {
        self.shape
    }

    fn local(&self) -> Local {
        self.local.copied()
    }

    fn local_ref(&self) -> &Local {
        &self.local
    }

    #[inline(always)]
    fn step(&mut self, step: CoreStep) -> u64 {
        let shape = self.shape;
        let actor = self.actor;
        let place = place_of_word(step.word(actor, &shape), &shape);
        let atomic = self.local.operation(&step, actor, &shape);
        let found = make(self.table, &mut self.seat, place, atomic, actor, &step);
        self.local.advance(&step, found, actor, &shape);
        found
    }

    fn take_tables(&mut self) -> ItsTables {
        match self.table.exchange(&mut self.seat, 0, None) {
            Some(tables) => tables,
            None => unreachable!(),
        }
    }

    fn put_tables(&mut self, tables: ItsTables) {
        self.table.exchange(&mut self.seat, 0, Some(tables));
    }
}
