//! Scenarios made from a number, for runs that are long.
#![tactic(auto)]

mod generator;
mod scenario;

pub use scenario::generate;
pub use scn_base::{
    Answer, Answers, ColEnd, ColEnds, CpuEnd, CpuEnds, DevEnd, DevEnds, End, Ends, EvtEnd, EvtEnds,
    Guests, IrqEnd, IrqEnds, ItsEnd, LrList, RunOut, Scenario as ScenarioScenario, Step, Steps,
};
