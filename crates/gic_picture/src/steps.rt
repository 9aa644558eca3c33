//! The steps of the ideal controller.
ghost use Rattle.std.specs.Prelude.{◌≡◌, All, IfOk, IsTrue, map};
ghost use Rattle.ideal_guest.specs.Calls.{IsGoodGuest};
ghost use Rattle.ideal_guest.specs.Opening.{opening};
ghost use Rattle.ideal_guest.specs.Sound.{IsSound};
ghost use Rattle.gic_ideal.specs.Eager.{state_shapes, after_step, after_steps};
ghost use Rattle.gic_picture.specs.Steps.{can_act, value_of as value_in, step_value};

use gic_ideal::{IdealGuest, Step};
use scn_base::{Answer, Guests};
use std::alloc::{AllocError, Global};

/// The states in which the guests open.
pub(crate) fn open_all(alloc: Global, guests: &Guests) -> Result<Vec<IdealGuest>, AllocError>
    requires { All IsGoodGuest guests.now }
    ensures value { IfOk result (λ states. states.items ≡ map opening guests.now) }
    ensures sound { IfOk result (λ states. All IsSound states.items) }
{
    let mut states = Vec::new(alloc);
    for guest in guests.as_slice() {
        states.push(IdealGuest::open(alloc, guest)?)?;
    }
    Ok(states)
}

/// The value of an answer that has one.
fn value_of(answer: &Answer) -> Option<u64>
    ensures { result ≡ value_in answer.now }
{
    match *answer {
        Answer::Value(value) => Some(value),
        Answer::Nothing | Answer::Regs(_) => None,
    }
}

/// Does a step, and answers the value that it reads.
pub(crate) fn do_step(states: &mut Vec<IdealGuest>, step: &Step) -> Option<u64>
    requires sound { All IsSound states.old.items }
    requires acts { IsTrue (can_act (state_shapes states.old.items) step.now) }
    ensures value { result ≡ step_value step.now states.old.items }
    ensures after { states.new.items ≡ after_step step.now states.old.items }
    ensures sound { All IsSound states.new.items }
    ensures shapes { state_shapes states.new.items ≡ state_shapes states.old.items }
{
    match *step {
        Step::Vcpu { guest, vcpu, op } => {
            let answer = states[guest as usize].operate(vcpu, op);
            value_of(&answer)
        }
        Step::Device { guest, op, .. } => {
            states[guest as usize].receive(op);
            None
        }
        Step::Pe { .. } => None,
    }
}

/// Does steps one after the other.
pub(crate) fn do_steps(states: &mut Vec<IdealGuest>, steps: &[Step])
    requires sound { All IsSound states.old.items }
    requires acts { All (λ step. IsTrue (can_act (state_shapes states.old.items) step)) steps.now }
    ensures after { states.new.items ≡ after_steps steps.now states.old.items }
    ensures sound { All IsSound states.new.items }
    ensures shapes { state_shapes states.new.items ≡ state_shapes states.old.items }
{
    for step in steps {
        do_step(states, step);
    }
}
