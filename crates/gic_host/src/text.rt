//! The lines of a text.
ghost use Rattle.std.specs.Prelude.{◌≡◌, ◌≤◌, ◌++◌, ◌∷◌, OnOk, Some, string_bytes, take};
ghost use Rattle.std.specs.List.{flat_map};
ghost use Rattle.scn_read.specs.GicGuest.declared.outcome.Answer.TheVariants.{Regs};
ghost use Rattle.gic_ich.specs.Words.{MAX_LIST_REGISTERS};
ghost use Rattle.gic_report.specs.Text.{hex, register_value, answer_line};
ghost use Rattle.gic_host.specs.Text.{answer as answer_of, phys_state as phys_state_of, phys_line, counts_line};

use crate::icc::Registers;
use crate::state::LinkState;
use crate::step::HostStepList;
use std::alloc::AllocError;
use std::fmt::Write;

/// The state of a physical interrupt in a word, by its latch and whether it is active.
fn phys_state(latch: bool, active: bool) -> &'static str
    ensures { result.now ≡ phys_state_of latch active }
{
    match (latch, active) {
        (false, false) => "inactive",
        (true, false) => "pending",
        (false, true) => "active",
        (true, true) => "both",
    }
}

/// Writes the line of a step that shows a physical interrupt.
pub(crate) fn write_phys(
    text: &mut String,
    number: usize,
    link: &LinkState,
) -> Result<(), AllocError>
    ensures { OnOk result (string_bytes text.new ≡ string_bytes text.old ++ phys_line number link.now) }
{
    let phys = link.link.phys;
    let state = phys_state(link.latch, link.active);
    writeln!(text, "{number} phys {phys} {state}")
}

/// Writes the line of a step that reads, or none of one that writes.
pub(crate) fn write_value(
    text: &mut String,
    number: usize,
    value: Option<u64>,
) -> Result<(), AllocError>
    ensures { OnOk result (string_bytes text.new ≡ string_bytes text.old ++ answer_line number (answer_of value)) }
{
    match value {
        Some(value) => {
            write!(text, "{number}")?;
            write_register(text, value)?;
            writeln!(text)
        }
        None => Ok(()),
    }
}

/// Writes a value in a line.
#[tactic(auto, using(gic_report::proofs::HexLemmas::padded_hex))]
fn write_register(text: &mut String, value: u64) -> Result<(), AllocError>
    ensures { OnOk result (string_bytes text.new ≡ string_bytes text.old ++ register_value value) }
{
    write!(text, " 0x{value:016x}")
}

/// Writes several values in a line.
fn write_registers(text: &mut String, values: &[u64]) -> Result<(), AllocError>
    ensures { OnOk result (string_bytes text.new ≡ string_bytes text.old ++ flat_map register_value values.now) }
{
    for value in values {
        write_register(text, *value)?;
    }
    Ok(())
}

/// Writes the line of a step that shows the list registers, of which there are 1 to 16.
pub(crate) fn write_lrs(
    text: &mut String,
    number: usize,
    registers: &Registers,
    lrs: u32,
) -> Result<(), AllocError>
    requires { lrs ≤ MAX_LIST_REGISTERS }
    ensures { OnOk result (string_bytes text.new
        ≡ string_bytes text.old ++ answer_line number (Regs (registers.now.hcr ∷ take lrs registers.now.words))) }
{
    write!(text, "{number} lrs")?;
    write_register(text, u64::from(registers.hcr))?;
    write_registers(text, &registers.words[..lrs as usize])?;
    writeln!(text)
}

/// Writes the last line.
pub(crate) fn write_counts(text: &mut String, steps: &HostStepList) -> Result<(), AllocError>
    ensures { OnOk result (string_bytes text.new ≡ string_bytes text.old ++ counts_line steps.now) }
{
    let all = steps.len();
    let reads = steps
        .as_slice()
        .iter()
        .filter(|step| step.is_read())
        .count();
    writeln!(text, "end {all} {reads}")
}
