//! Steps that are read one after the other: all of them, or the first fault.
#![tactic(auto)]

pub use scn_base::Fault;
