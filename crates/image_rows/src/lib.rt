//! Tests of the reading of images: what is read, and what each wrong image is refused with, worked out by hand.
#![tactic(auto)]

#[cfg(test)]
mod active;
#[cfg(test)]
mod mapped;
#[cfg(test)]
mod sweep;
#[cfg(test)]
mod table;
