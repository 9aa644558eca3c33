//! Worked histories, played by the program that checks them.
#![tactic(auto)]

#[cfg(test)]
mod commands;
#[cfg(test)]
mod tests;
