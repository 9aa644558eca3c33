//! Operations of a vCPU on a PE, one after the other.
ghost use Rattle.std.specs.Prelude.{◌≡◌, ◌≤◌, IsTrue, All, length, vec_len, vec_capacity};
ghost use Rattle.pe_place.specs.PeLoop.Stay.{IsUp};
ghost use Rattle.pe_place.specs.Core.{shape_of};
ghost use Rattle.port_table.specs.Calls.{is_good_op};
ghost use Rattle.thr_trip.specs.Operate.{Operates};

use gic_io::{Gate, GuestOp};
use pe_place::{Loaded, guest_op};
use port_table::CorePort as Port;
use std::sync::Wait;

/// What a PE passes: its gate, before and after each operation.
#[derive(Drop)]
pub struct Passes<'g, G: Gate> {
    gate: &'g G,
    pe: u32,
    turn: u64,
}

impl<'g, G: Gate> Passes<'g, G> {
    /// The PE of a number, before its first operation.
    pub fn new(gate: &'g G, pe: u32) -> Self {
        Passes { gate, pe, turn: 0 }
    }

    /// It passes its gate once more.
    fn pass(&mut self) {
        self.gate.pass(self.pe, self.turn);
        self.turn = self.turn.wrapping_add(1);
    }
}

/// The vCPU, which is on a PE, does the next operations of its script, at most so many, and their answers are kept behind those of
/// the operations before. There is room for them.
pub(crate) fn operate<P: Port, R: Wait, G: Gate>(
    rt: &R,
    port: &mut P,
    vcpu: &mut Loaded,
    script: &[GuestOp],
    answers: &mut Vec<Option<u64>>,
    most: u32,
    passes: &mut Passes<'_, G>,
)
    requires up { IsUp (P.seen port.old) vcpu.old }
    requires good { All (λ op. IsTrue (is_good_op (shape_of (P.seen port.old)) op)) script.now }
    requires room { length script.now ≤ vec_capacity answers.old }
    requires within { vec_len answers.old ≤ length script.now }
    ensures room { vec_capacity answers.new ≡ vec_capacity answers.old }
    ensures operates { Operates script.now (P.seen port.old) (P.seen port.new) vcpu.old vcpu.new answers.old.items answers.new.items }
{
    for _ in 0..most {
        let Some(op) = script.get(answers.len()) else {
            return;
        };
        passes.pass();
        let answer = guest_op(rt, port, vcpu, op);
        passes.pass();
        answers.push_reserved(answer);
    }
}
