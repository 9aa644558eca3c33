//! Tests of the ITS over the port of one thread: its command queue, and a vCPU's writes of its registers.
#![tactic(auto)]

#[cfg(test)]
mod access;
#[cfg(test)]
mod acts;
#[cfg(test)]
mod commands;
#[cfg(test)]
mod guest;
#[cfg(test)]
mod lines;
#[cfg(test)]
mod messages;
#[cfg(test)]
mod overtaken;
#[cfg(test)]
mod rows;
#[cfg(test)]
mod writes;
