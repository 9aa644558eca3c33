//! What is told of typical mistakes in a scenario, line by line, worked out by hand.
#![tactic(auto)]

#[cfg(test)]
mod bytes;
#[cfg(test)]
mod line;
#[cfg(test)]
mod outside;
#[cfg(test)]
mod steps;
