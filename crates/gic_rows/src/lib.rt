//! Worked scenarios through the whole tool: of each the status and all that is written; runs that are saved and resumed; and traces.
//!
//! What is written was worked out by hand, from the architecture and the rules of `docs/`, and never taken from a
//! run.
#![tactic(auto)]

#[cfg(test)]
mod refused;
#[cfg(test)]
mod row;
#[cfg(test)]
mod runs;
#[cfg(test)]
mod saves;
#[cfg(test)]
mod sweep;
#[cfg(test)]
mod traces;
