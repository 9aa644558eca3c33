//! Tests of scenarios: the reading of texts and their faults, worked out by hand, which are good, those of `soak`, and what is written
//! of a run and of a saved one.
#![tactic(auto)]

#[cfg(test)]
mod gic_report_rows;
#[cfg(test)]
mod gic_save_rows;
#[cfg(test)]
mod gic_soak_rows;
#[cfg(test)]
mod made;
#[cfg(test)]
mod outside;
#[cfg(test)]
mod scenario;
#[cfg(test)]
mod scn_base_rows;
#[cfg(test)]
mod standing;
#[cfg(test)]
mod steps;
#[cfg(test)]
mod table;
