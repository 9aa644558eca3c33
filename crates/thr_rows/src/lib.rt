//! Runs of scenarios on threads through the whole tool: what is written where it is the same in every schedule, and else what it
//! may be.
//!
//! What is written, or may be, was worked out by hand, from the architecture and the rules of `docs/`, and never taken from a run.
#![tactic(auto)]

#[cfg(test)]
mod call;
#[cfg(test)]
mod example;
#[cfg(test)]
mod gates;
#[cfg(test)]
mod input;
#[cfg(test)]
mod lines;
#[cfg(test)]
mod many;
#[cfg(test)]
mod messages;
#[cfg(test)]
mod refused;
