//! Laws of calls while nobody else acts.
ghost use Rattle.law_lone_calls_are_eager.specs.Laws.{InterfaceCallsPass, ResidencesPass, DeviceCallsPass, DistributorCallsPass, RedistributorCallsPass, MemoryCallsPass, ItsCallsPass, CallsPassHome, CallsEndAgain, RestStays};
ghost use Rattle.law_lone_calls_are_eager.specs.Runs.{RunsPassHome};

/// A law of every access of a CPU interface register that an actor makes while nobody else acts.
pub fn interface_calls_pass()
    ensures { InterfaceCallsPass }
{}

/// A law of every vCPU that enters or leaves a PE, or looks whether it was kicked, while nobody else acts.
pub fn residences_pass()
    ensures { ResidencesPass }
{}

/// A law of every message, wire and message-signalled interrupt of a device, while nobody else acts.
pub fn device_calls_pass()
    ensures { DeviceCallsPass }
{}

/// A law of every access of the distributor, while nobody else acts.
pub fn distributor_calls_pass()
    ensures { DistributorCallsPass }
{}

/// A law of every access of a redistributor, while nobody else acts.
pub fn redistributor_calls_pass()
    ensures { RedistributorCallsPass }
{}

/// A law of every access of the guest's memory, while nobody else acts.
pub fn memory_calls_pass()
    ensures { MemoryCallsPass }
{}

/// A law of every access of the ITS, while nobody else acts and the guest is at rest: a write also does the commands that it
/// starts.
pub fn its_calls_pass()
    ensures { ItsCallsPass }
{}

/// A law of every call, while nobody else acts and the guest is at rest.
pub fn calls_pass_home()
    ensures { CallsPassHome }
{}

/// A law of every call while nobody else acts: all calls ended again after it, so the next one is such a call too.
#[tactic(auto, using(crate::proofs::EndLemmas::calls_end_again))]
pub fn calls_end_again()
    ensures { CallsEndAgain }
{}

/// A law of the eager controller: a guest is at rest as it opens, and after each good operation of a vCPU and of a device, so
/// the law of calls speaks of each call of a scenario that is done step by step.
pub fn rest_stays()
    ensures { RestStays }
{}

/// A law of every history of calls, one after the other, of a good guest from its opening on: with all that stands at
/// interfaces taken back, it is the eager controller's, answer by answer.
#[tactic(auto, using(crate::proofs::RunLaws::runs_pass_home))]
pub fn runs_pass_home()
    ensures { RunsPassHome }
{}
