//! Tests of the libraries of a virtual CPU interface: each by itself, and whole states through the plan, a guest's accesses, and what
//! comes back.
#![tactic(auto)]

#[cfg(test)]
mod gic_ich_rows;
#[cfg(test)]
mod gic_icv_rows;
#[cfg(test)]
mod tests;
#[cfg(test)]
mod vcpu_refill_rows;
#[cfg(test)]
mod vcpu_state_rows;
