//! Tests of a vCPU's operations.
#![tactic(auto)]

#[cfg(test)]
mod tests;
