//! Worked calls: whether what was made can still become the call, and whether it is the call.
#![tactic(auto)]

#[cfg(test)]
mod tests;
#[cfg(test)]
mod turns;
