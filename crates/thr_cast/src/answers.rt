//! What the steps of a scenario answered, from what its vCPUs were answered.
ghost use Rattle.std.specs.Prelude.{◌≡◌, ◌+◌, ◌<◌, IfOk, None, length, slice_index_or, slice_set};
ghost use Rattle.guest_end.specs.Outcome.{answer_by};
ghost use Rattle.thr_cast.specs.Answers.{AllHeard, AnswersAre, heard_by, next_of, place_by};

use guest_end::{Answer, GuestAnswers as Answers, ListOf, Step, VcpuName, answer_of};
use std::alloc::{AllocError, Global};

/// What the operations of a vCPU answered, oldest first.
#[derive(Drop)]
pub struct Heard {
    pub name: VcpuName,
    pub answers: ListOf<Option<u64>>,
}

/// The place of a vCPU's first entry, or past all of them where it has none.
fn place_of(heard: &[Heard], guest: u32, vcpu: u32) -> usize
    ensures { result ≡ place_by guest vcpu heard.now }
{
    for (place, one) in heard.iter().enumerate() {
        if one.name.guest == guest && one.name.vcpu == vcpu {
            return place;
        }
    }
    heard.len()
}

/// What the next operation of a vCPU answered: the first one that was not told before. `next` says which that is, for each entry.
fn next_answer(heard: &[Heard], next: &mut [usize], guest: u32, vcpu: u32) -> Answer
    requires there { place_by guest vcpu heard.now < length heard.now }
    requires each { length next.old ≡ length heard.now }
    requires more { next_of guest vcpu heard.now next.old < length (heard_by guest vcpu heard.now) }
    ensures answer { result ≡ answer_by (slice_index_or (heard_by guest vcpu heard.now) (next_of guest vcpu heard.now next.old) None) }
    ensures next { next.new ≡ slice_set next.old (place_by guest vcpu heard.now) (next_of guest vcpu heard.now next.old + 1) }
{
    let place = place_of(heard, guest, vcpu);
    let done = next[place];
    let answers = heard[place].answers.as_slice();
    let answer = answer_of(answers[done]);
    next[place] = done + 1;
    answer
}

/// What each step answered: a step of a vCPU what its next operation did, and every other one nothing. An error where memory for
/// the answers is refused.
pub fn all_answers(alloc: Global, steps: &[Step], heard: &[Heard]) -> Result<Answers, AllocError>
    requires { AllHeard steps.now heard.now }
    ensures each { IfOk result (λ answers. length answers ≡ length steps.now) }
    ensures are { IfOk result (AnswersAre steps.now heard.now) }
{
    let mut next = vec![in alloc; 0usize; heard.len()]?;
    let mut answers = Answers::new(alloc);
    for step in steps {
        let answer = match *step {
            Step::Vcpu { guest, vcpu, .. } => {
                next_answer(heard, next.as_mut_slice(), guest, vcpu)
            }
            Step::Device { .. } | Step::Pe { .. } => Answer::Nothing,
        };
        answers.push(answer)?;
    }
    Ok(answers)
}
