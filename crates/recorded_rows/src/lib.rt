//! Runs over the port of many threads, each step of which is written into a trace, and what the checker says of these.
#![tactic(auto)]

#[cfg(test)]
mod guest;
#[cfg(test)]
mod moments;
#[cfg(test)]
mod noting;
#[cfg(test)]
mod rows;
