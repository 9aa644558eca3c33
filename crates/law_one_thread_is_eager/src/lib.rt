//! Laws of what was done to a guest in one thread, part by part: with all that stands at interfaces taken back it is the guest of
//! the ideal controller.
#![tactic(auto)]

mod laws;

pub use laws::{calls_pass_home, guests_open_at_home, registers_show_home, residences_keep_home};
pub use seq_guest::{SeqPort, Vcpus, add_cpus};
