//! Linked physical interrupts: a hypervisor hands physical SPIs to vCPUs by list registers whose HW bit is 1.
#![tactic(auto)]

mod form;
mod good;
mod host;
mod icc;
mod laws;
mod link;
mod reading;
mod run;
mod scenario;
mod state;
mod step;
mod text;

pub use floor_lists as lists;
pub use form::HostForm;
pub use gic_ich as registers;
pub use gic_open::opening_cpu;
pub use gic_report as report;
pub use laws::{
    latches_are_taken, links_are_apart, order_does_not_matter, physical_follows_virtual,
};
pub use link::{Link, LinkList, are_linked, fit_registers, linked};
pub use reading::{HOST_FIELDS, LINK_FIELDS, LINK_TWICE, link_code_is_fixed, read_host};
pub use run::run_host;
pub use scenario::{HostScenario, MAX_LINKS, MAX_STEPS, MAX_VCPUS};
pub use scn_read as scenarios;
pub use step::{HostStep, HostStepList, PhysSet};
