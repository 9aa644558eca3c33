//! Tests of the ideal controller as a program: a scenario that is built in code, the picture of one, and what is saved of a guest.
#![tactic(auto)]

#[cfg(test)]
mod gic_ideal_rows;
#[cfg(test)]
mod gic_picture_rows;
#[cfg(test)]
mod made;
#[cfg(test)]
mod saved_take_rows;
