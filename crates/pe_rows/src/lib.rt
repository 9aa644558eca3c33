//! Tests of a vCPU over the port of one thread: how it enters a PE and leaves it, its accesses of its CPU interface, and its
//! memory-mapped ones.
#![tactic(auto)]

#[cfg(test)]
mod entries;
#[cfg(test)]
mod entry;
#[cfg(test)]
mod interface;
#[cfg(test)]
mod memory;
