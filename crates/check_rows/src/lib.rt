//! Tests of verdicts on recorded runs, of what their events say, and of what open calls may yet make, worked out by hand.
#![tactic(auto)]

#[cfg(test)]
mod commands;
#[cfg(test)]
mod legal_play_rows;
#[cfg(test)]
mod messages;
#[cfg(test)]
mod table;
#[cfg(test)]
mod tape;
#[cfg(test)]
mod trace_told_rows;
