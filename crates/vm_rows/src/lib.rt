//! Tests of a machine.
#![tactic(auto)]

#[cfg(test)]
mod board;
#[cfg(test)]
mod saved;
#[cfg(test)]
mod tests;
