//! Tests of traces: what each event says, and the faults of events, worked out by hand.
#![tactic(auto)]

#[cfg(test)]
mod faults;
#[cfg(test)]
mod said;
#[cfg(test)]
mod table;
