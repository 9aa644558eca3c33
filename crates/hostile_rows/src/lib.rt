//! Damaged inputs, and streams that break at any call, through the whole tool: each with the status and all that is written.
//!
//! What is written was worked out by hand, from the table of statuses in `docs/SCENARIO.md`, and never taken from a run.
#![tactic(auto)]

#[cfg(test)]
mod call;
#[cfg(test)]
mod damaged;
#[cfg(test)]
mod inputs;
#[cfg(test)]
mod streams;
#[cfg(test)]
mod words;
