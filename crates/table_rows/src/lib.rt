//! Tests alone: calls over the port of many threads, in one thread and in four.
#![tactic(auto)]

#[cfg(test)]
mod one;
#[cfg(test)]
mod rows;
#[cfg(test)]
mod threads;
