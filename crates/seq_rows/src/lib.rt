//! The scheduled run beside the ideal controller: worked, generated and drawn scenarios and drawn images, the texts of both, and the lines of `soak`.
#![tactic(auto)]

#[cfg(test)]
mod access;
#[cfg(test)]
mod command;
#[cfg(test)]
mod compare;
#[cfg(test)]
mod dice;
#[cfg(test)]
mod draw;
#[cfg(test)]
mod drawn;
#[cfg(test)]
mod generated;
#[cfg(test)]
mod guests;
#[cfg(test)]
mod images;
#[cfg(test)]
mod keep;
#[cfg(test)]
mod rows;
#[cfg(test)]
mod soak;
#[cfg(test)]
mod states;
#[cfg(test)]
mod tables;
