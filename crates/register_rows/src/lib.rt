//! Tests of registers, of the ITS's tables and of calls, crate by crate: maps and contents of frames, the part of an interrupt, faults
//! of commands, how guests open, what is touched and moved, and the lines of a vCPU.
#![tactic(auto)]

#[cfg(test)]
mod gic_call_rows;
#[cfg(test)]
mod gic_dmap_rows;
#[cfg(test)]
mod gic_imap_rows;
#[cfg(test)]
mod gic_line_rows;
#[cfg(test)]
mod gic_open_rows;
#[cfg(test)]
mod gic_reg_rows;
#[cfg(test)]
mod gic_rmap_rows;
#[cfg(test)]
mod its_tab_rows;
