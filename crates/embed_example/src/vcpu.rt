//! The loop of a vCPU.
ghost use Rattle.std.specs.Prelude.{◌≡◌, OnOk};
ghost use Rattle.pe_op.specs.PeLoop.Stay.{IsUp};
ghost use Rattle.gic_msi.specs.Core.{IsSameActor};

use crate::fault::Fault;
use crate::machine::{DOORBELL, Exit, LIST_REGISTERS, operation_of};
use crate::signals::Signals;
use pe_op::{Loaded, enter, guest_op, icc_op, leave};
use port_seq::{CorePort as Port, IccReg};
use std::alloc::{AllocError, Global};
use std::sync::Wait;
use vm_threads::{TakesTurns, rest};

/// What HPPIR1 reads where no interrupt of group 1 is pending.
const NO_INTERRUPT: u64 = 1023;

/// A vCPU as the VMM has it: its code, as the exits that it makes, the next of them, and what it read.
#[derive(Drop)]
pub struct Vcpu {
    code: Vec<Exit>,
    next: usize,
    pub reads: Vec<u64>,
}

/// What comes of an exit.
enum After {
    /// Guest code goes on, with the value that it reads, if it reads one.
    GoesOn(Option<u64>),
    /// It waits, since no interrupt is there.
    Waits,
}

/// Handles an exit of a vCPU that is on a PE.
#[tactic(auto, using(crate::proofs::TurnLemmas::same_after, crate::proofs::TurnLemmas::same_here))]
fn handle<P: Port, R: Wait>(
    rt: &R,
    port: &mut P,
    vcpu: &mut Loaded,
    exit: Exit,
    signals: &Signals,
) -> Result<After, Fault>
    requires up { IsUp (P.seen port.old) vcpu.old }
    ensures up { IsUp (P.seen port.new) vcpu.new }
    ensures same { IsSameActor (P.seen port.old) (P.seen port.new) }
{
    match exit {
        Exit::WaitForInterrupt => {
            match icc_op(rt, port, vcpu, IccReg::Hppir1, None) {
                Some(NO_INTERRUPT) => Ok(After::Waits),
                _ => Ok(After::GoesOn(None)),
            }
        }
        Exit::Mmio { address, .. } if address == DOORBELL => {
            signals.ring();
            Ok(After::GoesOn(None))
        }
        Exit::Mmio { .. } | Exit::Register { .. } => {
            let Some(op) = operation_of(&port.shape(), exit) else {
                return Err(Fault::UnknownAccess);
            };
            Ok(After::GoesOn(guest_op(rt, port, vcpu, &op)))
        }
    }
}

impl Vcpu {
    /// A vCPU that is to run this code, with room for what it reads: an exit reads once at most. An error where memory is refused.
    pub fn new(alloc: Global, code: &[Exit]) -> Result<Self, AllocError> {
        Ok(Vcpu {
            code: Vec::from_slice(alloc, code)?,
            next: 0,
            reads: Vec::with_capacity(alloc, code.len())?,
        })
    }

    /// Runs guest code on a PE, from exit to exit, until it waits for an interrupt or is through.
    #[tactic(auto, using(crate::proofs::TurnLemmas::same_twice, crate::proofs::TurnLemmas::same_here))]
    fn run<P: Port, R: Wait>(
        &mut self,
        rt: &R,
        port: &mut P,
        vcpu: &mut Loaded,
        signals: &Signals,
    ) -> Result<(), Fault>
        requires up { IsUp (P.seen port.old) vcpu.old }
        ensures up { OnOk result (IsUp (P.seen port.new) vcpu.new) }
        ensures same { OnOk result (IsSameActor (P.seen port.old) (P.seen port.new)) }
    {
        for (number, exit) in self.code.iter().enumerate().skip(self.next) {
            match handle(rt, port, vcpu, *exit, signals)? {
                After::GoesOn(None) => {}
                After::GoesOn(Some(value)) => self.reads.push(value)?,
                After::Waits => {
                    self.next = number;
                    return Ok(());
                }
            }
        }
        self.next = self.code.len();
        Ok(())
    }
}

impl TakesTurns<Signals, Fault> for Vcpu {
    /// The vCPU enters a PE, runs guest code there, and leaves it.
    #[tactic(auto, using(crate::proofs::TurnLemmas::same_after, crate::proofs::TurnLemmas::same_twice, crate::proofs::TurnLemmas::same_here, crate::proofs::TurnLemmas::rests_off))]
    fn turn<P: Port, R: Wait>(
        &mut self,
        rt: &R,
        port: &mut P,
        signals: &Signals,
    ) -> Result<(), Fault> {
        let vcpu = rest(port, 0).ok_or(Fault::NotAtRest)?;
        let mut loaded = enter(port, vcpu, LIST_REGISTERS);
        self.run(rt, port, &mut loaded, signals)?;
        leave(port, loaded);
        Ok(())
    }

    /// Whether all of its code was run.
    fn is_through(&self) -> bool {
        self.next == self.code.len()
    }
}
