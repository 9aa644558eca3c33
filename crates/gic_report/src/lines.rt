//! The lines of a text, each in its form.

ghost use Rattle.std.specs.Prelude.{◌≡◌, ◌++◌, ℕ, OnOk, decimal, string_bytes};
ghost use Rattle.std.specs.List.{flat_map};
ghost use Rattle.gic_report.specs.Text.{answer_line, register_value, hex, flag, vcpu_text, gicd_line, cpu_line, irq_setting, irq_line, queue_part, its_line, dev_line, evt_line, col_line};

use crate::show::{Flag, Hex, Trigger, Vcpu};
use gic_soak::{Answer, ColEnd, CpuEnd, DevEnd, EvtEnd, IrqEnd, ItsEnd, LrList};
use scn_saved::Name;
use std::alloc::AllocError;
use std::fmt::Write;

/// Writes the line of a step, if it answers.
pub(crate) fn write_answer(
    text: &mut String,
    step: usize,
    answer: &Answer,
) -> Result<(), AllocError>
    ensures { OnOk result (string_bytes text.new ≡ string_bytes text.old ++ answer_line step answer.now) }
{
    match answer {
        Answer::Nothing => Ok(()),
        Answer::Value(value) => {
            let value = Hex::<16>(*value);
            writeln!(text, "{step} 0x{value}")
        }
        Answer::Regs(values) => {
            write!(text, "{step} lrs")?;
            write_values(text, values)?;
            writeln!(text)
        }
    }
}

/// Writes the values of some registers.
fn write_values(text: &mut String, values: &LrList) -> Result<(), AllocError>
    ensures { OnOk result (string_bytes text.new ≡ string_bytes text.old ++ flat_map register_value values.now) }
{
    for value in values.as_slice() {
        put_hex::<16>(text, " 0x", *value)?;
    }
    Ok(())
}

/// Writes a label, and a number in hexadecimal digits.
pub(crate) fn put_hex<const DIGITS: usize>(
    text: &mut String,
    label: &str,
    value: u64,
) -> Result<(), AllocError>
    ensures { OnOk result (string_bytes text.new ≡ string_bytes text.old ++ (label.now ++ hex DIGITS value)) }
{
    let value = Hex::<DIGITS>(value);
    write!(text, "{label}{value}")
}

/// Writes a label, and 0 or 1.
fn put_flag(text: &mut String, label: &str, value: bool) -> Result<(), AllocError>
    ensures { OnOk result (string_bytes text.new ≡ string_bytes text.old ++ (label.now ++ flag value)) }
{
    let value = Flag(value);
    write!(text, "{label}{value}")
}

/// Writes a label, and a vCPU's number or a dash.
fn put_vcpu(text: &mut String, label: &str, value: Option<u32>) -> Result<(), AllocError>
    ensures { OnOk result (string_bytes text.new ≡ string_bytes text.old ++ (label.now ++ vcpu_text value)) }
{
    let value = Vcpu(value);
    write!(text, "{label}{value}")
}

/// Writes a label, and a number in decimal digits.
pub(crate) fn put_number(text: &mut String, label: &str, value: u64) -> Result<(), AllocError>
    ensures { OnOk result (string_bytes text.new ≡ string_bytes text.old ++ (label.now ++ decimal value)) }
{
    write!(text, "{label}{value}")
}

/// Writes the line of GICD_CTLR.
pub(crate) fn write_gicd(text: &mut String, guest: usize, ctlr: u32) -> Result<(), AllocError>
    ensures { OnOk result (string_bytes text.new ≡ string_bytes text.old ++ gicd_line guest ctlr) }
{
    write!(text, "gicd {guest}")?;
    put_hex::<8>(text, " ctlr=0x", u64::from(ctlr))?;
    writeln!(text)
}

/// Writes the line of a vCPU's CPU interface.
pub(crate) fn write_cpu(text: &mut String, guest: usize, end: &CpuEnd) -> Result<(), AllocError>
    ensures { OnOk result (string_bytes text.new ≡ string_bytes text.old ++ cpu_line guest end.now) }
{
    let vcpu = end.vcpu;
    write!(text, "cpu {guest} {vcpu}")?;
    put_hex::<8>(text, " vmcr=0x", u64::from(end.vmcr))?;
    put_hex::<8>(text, " ap0=0x", u64::from(end.ap0))?;
    put_hex::<8>(text, " ap1=0x", u64::from(end.ap1))?;
    put_flag(text, " lpis=", end.lpis)?;
    writeln!(text)
}

/// Writes the line of an interrupt.
pub(crate) fn write_irq(text: &mut String, guest: usize, end: &IrqEnd) -> Result<(), AllocError>
    ensures { OnOk result (string_bytes text.new ≡ string_bytes text.old ++ irq_line guest end.now) }
{
    write_irq_setting(text, guest, end)?;
    put_flag(text, " line=", end.line)?;
    put_flag(text, " rise=", end.rise)?;
    put_flag(text, " soft=", end.soft)?;
    put_vcpu(text, " act=", end.act_by)?;
    put_vcpu(text, " to=", end.to)?;
    writeln!(text)
}

/// Writes the part of an interrupt's line that says which it is and how it is configured.
fn write_irq_setting(text: &mut String, guest: usize, end: &IrqEnd) -> Result<(), AllocError>
    ensures { OnOk result (string_bytes text.new ≡ string_bytes text.old ++ irq_setting guest end.now) }
{
    let name = Name(end.key);
    let group = end.group;
    let trigger = Trigger(end.edge);
    write!(text, "irq {guest} {name}")?;
    put_flag(text, " en=", end.enabled)?;
    write!(text, " grp={group}")?;
    put_hex::<2>(text, " prio=0x", u64::from(end.prio))?;
    write!(text, " cfg={trigger}")
}

/// Writes the line of the ITS.
pub(crate) fn write_its(text: &mut String, guest: usize, end: &ItsEnd) -> Result<(), AllocError>
    ensures { OnOk result (string_bytes text.new ≡ string_bytes text.old ++ its_line guest end.now) }
{
    write!(text, "its {guest}")?;
    put_hex::<8>(text, " ctlr=0x", u64::from(end.ctlr))?;
    write_queue(text, end)?;
    put_number(text, " fault=", u64::from(end.fault))?;
    writeln!(text)
}

/// Writes the registers of the ITS's queue.
fn write_queue(text: &mut String, end: &ItsEnd) -> Result<(), AllocError>
    ensures { OnOk result (string_bytes text.new ≡ string_bytes text.old ++ queue_part end.now) }
{
    put_hex::<16>(text, " cbaser=0x", end.cbaser)?;
    put_hex::<16>(text, " cwriter=0x", end.cwriter)?;
    put_hex::<16>(text, " creadr=0x", end.creadr)
}

/// Writes the line of a device.
pub(crate) fn write_dev(text: &mut String, guest: usize, end: &DevEnd) -> Result<(), AllocError>
    ensures { OnOk result (string_bytes text.new ≡ string_bytes text.old ++ dev_line guest end.now) }
{
    let device = end.device;
    write!(text, "dev {guest} {device}")?;
    put_number(text, " bits=", u64::from(end.bits))?;
    writeln!(text)
}

/// Writes the line of an event.
pub(crate) fn write_evt(text: &mut String, guest: usize, end: &EvtEnd) -> Result<(), AllocError>
    ensures { OnOk result (string_bytes text.new ≡ string_bytes text.old ++ evt_line guest end.now) }
{
    let device = end.device;
    write!(text, "evt {guest} {device}")?;
    put_number(text, " ", u64::from(end.event))?;
    put_number(text, " ", u64::from(end.id))?;
    put_number(text, " ", u64::from(end.icid))?;
    writeln!(text)
}

/// Writes the line of a collection.
pub(crate) fn write_col(text: &mut String, guest: usize, end: &ColEnd) -> Result<(), AllocError>
    ensures { OnOk result (string_bytes text.new ≡ string_bytes text.old ++ col_line guest end.now) }
{
    let icid = end.icid;
    write!(text, "col {guest} {icid}")?;
    put_number(text, " ", u64::from(end.vcpu))?;
    writeln!(text)
}
