//! Tests of linked interrupts: rows worked out by hand, through the whole tool; registers word by word, and drawn runs.
#![tactic(auto)]

#[cfg(test)]
mod drawn;
#[cfg(test)]
mod faults;
#[cfg(test)]
mod hints;
#[cfg(test)]
mod plain;
#[cfg(test)]
mod registers;
#[cfg(test)]
mod runs;
#[cfg(test)]
mod tool;
