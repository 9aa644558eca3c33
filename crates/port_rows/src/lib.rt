//! Tests of the core: its words and its sets, steps by hand and what devices do over the port of one thread, and the lines of a vCPU
//! there, as a VMM has them.
#![tactic(auto)]

#[cfg(test)]
mod devices;
#[cfg(test)]
mod made;
#[cfg(test)]
mod port_core_rows;
#[cfg(test)]
mod port_seq_rows;
#[cfg(test)]
mod vm_threads_rows;
#[cfg(test)]
mod words;
