//! Laws of the calls of a history while nobody else acts: with all that stands at a CPU interface taken back, each does and
//! answers what the eager controller does and answers.
#![tactic(auto)]

mod laws;

pub use laws::{
    calls_pass_home, device_calls_pass, distributor_calls_pass, interface_calls_pass,
    its_calls_pass, memory_calls_pass, redistributor_calls_pass, residences_pass, rest_stays,
};
