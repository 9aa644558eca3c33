//! The run of a scenario, and of steps from any states on.
ghost use Rattle.std.specs.Prelude.{◌≡◌, ◌≤◌, [], IfOk, IfSome, OnOk, IsTrue, All, map, length, None};
ghost use Rattle.scn_base.specs.declared.step.Mode.{Mode};
ghost use Rattle.scn_base.specs.Standing.{has_vcpu, ResidentsExist};
ghost use Rattle.scn_base.specs.Good.{IsGood, is_formed};
ghost use Rattle.ideal_guest.specs.Calls.{IsGoodGuest, shapes_of};
ghost use Rattle.ideal_guest.specs.Opening.{opening};
ghost use Rattle.gic_ideal.specs.Ends.{ends_of};
ghost use Rattle.gic_ideal.specs.Eager.{shown, step_answer, after_step, answers_of, after_steps, eager_from as run_from, eager as eager_run, state_shapes};
ghost use Rattle.ideal_guest.specs.Sound.{IsSound};

use crate::ends::end_of;
use crate::shown::registers;
use ideal_guest::IdealGuest;
use scn_base::{
    Answer, Answers, Ends, GuestSpec, ListOf, LrList, MAX_LIST_REGISTERS, NoMemory, PeOp, Pes,
    RunOut, Scenario, Step, VcpuName, move_pes, opening_pes,
};
use std::alloc::{AllocError, Global};

/// The states in which the guests open.
fn open_all(alloc: Global, guests: &[GuestSpec]) -> Result<Vec<IdealGuest>, AllocError>
    requires { All IsGoodGuest guests.now }
    ensures value { IfOk result (λ states. states.items ≡ map opening guests.now) }
    ensures sound { IfOk result (λ states. All IsSound states.items) }
{
    let mut states = Vec::new(alloc);
    for guest in guests {
        states.push(IdealGuest::open(alloc, guest)?)?;
    }
    Ok(states)
}

/// ICH_HCR and list registers that are all zeros.
fn zeros(alloc: Global, lrs: u32) -> Result<Answer, AllocError>
    requires { lrs ≤ MAX_LIST_REGISTERS }
    ensures { IfOk result (λ answer. answer ≡ shown lrs None []) }
{
    Ok(Answer::Regs(LrList::from(vec![in alloc; 0; lrs as usize + 1]?)))
}

/// What is shown of a PE with `lrs` list registers, on which this vCPU stands, or none.
fn show(
    alloc: Global,
    states: &[IdealGuest],
    lrs: u32,
    resident: Option<VcpuName>,
) -> Result<Answer, AllocError>
    requires sound { All IsSound states.now }
    requires lrs { 1 ≤ lrs × lrs ≤ MAX_LIST_REGISTERS }
    requires there { IfSome resident (λ name. IsTrue (has_vcpu (state_shapes states.now) name.guest name.vcpu)) }
    ensures { IfOk result (λ answer. answer ≡ shown lrs resident states.now) }
{
    match resident {
        Some(VcpuName { guest, vcpu }) => {
            Ok(Answer::Regs(registers(alloc, &states[guest as usize], lrs, vcpu)?))
        }
        None => zeros(alloc, lrs),
    }
}

/// Does a step, and answers what it reads. Memory is asked for where it shows list registers, and there alone.
fn do_step(
    alloc: Global,
    states: &mut Vec<IdealGuest>,
    pes: &Pes,
    lrs: u32,
    step: &Step,
) -> Result<Answer, AllocError>
    requires sound { All IsSound states.old.items }
    requires lrs { 1 ≤ lrs × lrs ≤ MAX_LIST_REGISTERS }
    requires formed { IsTrue (is_formed Mode.Schedule (length pes.now) (state_shapes states.old.items) step.now) }
    requires residents { ResidentsExist (state_shapes states.old.items) pes.now }
    ensures answer { IfOk result (λ answer. answer ≡ step_answer lrs pes.now step.now states.old.items) }
    ensures after { states.new.items ≡ after_step step.now states.old.items }
    ensures sound { All IsSound states.new.items }
    ensures shapes { state_shapes states.new.items ≡ state_shapes states.old.items }
{
    match *step {
        Step::Vcpu { guest, vcpu, op } => Ok(states[guest as usize].operate(vcpu, op)),
        Step::Device { guest, op, .. } => {
            states[guest as usize].receive(op);
            Ok(Answer::Nothing)
        }
        Step::Pe { pe, op: PeOp::Lrs } => show(alloc, states, lrs, pes.as_slice()[pe as usize]),
        Step::Pe { .. } => Ok(Answer::Nothing),
    }
}

/// Does the steps one after the other, and answers what each reads.
fn do_steps(
    alloc: Global,
    states: &mut Vec<IdealGuest>,
    mut pes: Pes,
    lrs: u32,
    steps: &[Step],
) -> Result<Answers, AllocError>
    requires sound { All IsSound states.old.items }
    requires lrs { 1 ≤ lrs × lrs ≤ MAX_LIST_REGISTERS }
    requires formed { All (λ step. IsTrue (is_formed Mode.Schedule (length pes) (state_shapes states.old.items) step)) steps.now }
    requires residents { ResidentsExist (state_shapes states.old.items) pes }
    ensures answers { IfOk result (λ answers. answers ≡ answers_of lrs pes steps.now states.old.items) }
    ensures after { OnOk result (states.new.items ≡ after_steps steps.now states.old.items) }
    ensures sound { OnOk result (All IsSound states.new.items) }
    ensures shapes { OnOk result (state_shapes states.new.items ≡ state_shapes states.old.items) }
{
    let mut answers = ListOf::new(alloc);
    for step in steps {
        answers.push(do_step(alloc, states, &pes, lrs, step)?)?;
        move_pes(step, &mut pes);
    }
    Ok(answers)
}

/// How each guest ended that opened as the scenario says.
fn end_all(alloc: Global, guests: &[GuestSpec], closed: &[IdealGuest]) -> Result<Ends, AllocError>
    requires good { All IsGoodGuest guests.now }
    requires sound { All IsSound closed.now }
    requires shapes { state_shapes closed.now ≡ shapes_of guests.now }
    ensures { IfOk result (λ ends. ends ≡ ends_of (map opening guests.now) closed.now) }
{
    let mut ends = ListOf::new(alloc);
    for (number, guest) in guests.iter().enumerate() {
        let opened = IdealGuest::open(alloc, guest)?;
        let last = &closed[number];
        ends.push(end_of(alloc, &opened, last, &last.tables)?)?;
    }
    Ok(ends)
}

/// The run of steps by the ideal controller from sound states on, one of each guest, with these vCPUs on the PEs and `lrs` list registers shown: what
/// each step answers, and how each guest ended, which opened as it is specified. `NoMemory` where memory is refused.
pub fn eager_from(
    alloc: Global,
    guests: &[GuestSpec],
    mut states: Vec<IdealGuest>,
    pes: Pes,
    lrs: u32,
    steps: &[Step],
) -> Result<RunOut, NoMemory>
    requires good { All IsGoodGuest guests.now }
    requires sound { All IsSound states.items }
    requires shapes { state_shapes states.items ≡ shapes_of guests.now }
    requires lrs { 1 ≤ lrs × lrs ≤ MAX_LIST_REGISTERS }
    requires formed { All (λ step. IsTrue (is_formed Mode.Schedule (length pes) (shapes_of guests.now) step)) steps.now }
    requires residents { ResidentsExist (shapes_of guests.now) pes }
    ensures { IfOk result (λ out. out ≡ run_from lrs pes steps.now (map opening guests.now) states.items) }
{
    let answers = do_steps(alloc, &mut states, pes, lrs, steps)?;
    let ends = end_all(alloc, guests, states.as_slice())?;
    Ok(RunOut { answers, ends })
}

/// The run of a scenario by the ideal controller. `NoMemory` where memory is refused.
pub fn eager(alloc: Global, scenario: &Scenario) -> Result<RunOut, NoMemory>
    requires { IsGood Mode.Schedule scenario.now }
    ensures { IfOk result (λ out. out ≡ eager_run scenario.now) }
{
    let guests = scenario.guests.as_slice();
    let states = open_all(alloc, guests)?;
    let pes = opening_pes(alloc, scenario.pes, guests)?;
    eager_from(
        alloc,
        guests,
        states,
        pes,
        scenario.lrs,
        scenario.steps.as_slice(),
    )
}
