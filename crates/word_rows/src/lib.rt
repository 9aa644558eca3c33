//! Tests of words and records, crate by crate: bits, lists, fields of JSON, SVG, streams, list registers, priorities, memory, commands
//! of the ITS, and the shelf of vCPUs.
#![tactic(auto)]

#[cfg(test)]
mod gic_aff_rows;
#[cfg(test)]
mod gic_bits_rows;
#[cfg(test)]
mod gic_frame_rows;
#[cfg(test)]
mod gic_io_rows;
#[cfg(test)]
mod gic_list_rows;
#[cfg(test)]
mod gic_lr_rows;
#[cfg(test)]
mod gic_prio_rows;
#[cfg(test)]
mod gic_ram_rows;
#[cfg(test)]
mod its_cmd_rows;
#[cfg(test)]
mod json_field_rows;
#[cfg(test)]
mod svg_text_rows;
#[cfg(test)]
mod vcpu_shelf_rows;
