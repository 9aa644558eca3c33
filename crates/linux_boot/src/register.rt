//! Which register a step reads.
use serde_json::Value;

/// A register, as a step names it: the field, and the name or the offset in it.
type Named = (&'static str, &'static str);

/// ICC_IAR1: what a CPU is to serve next.
const ACKNOWLEDGE: Named = ("icc", "IAR1");

/// What identifies a controller, or says what it has room for, is otherwise by choice; so is where the recording put tables and the queue, and which attributes
/// of memory are stored.
const BY_CHOICE: [Named; 15] = [
    ("icc", "CTLR"), // ICC_CTLR: priority bits, and what else there is
    ("gicd", "0x4"), // GICD_TYPER
    ("gicd", "0x8"), // GICD_IIDR
    ("gicd", "0xffe8"), // GICD_PIDR2
    ("gicr", "0x0"), // GICR_CTLR: CES
    ("gicr", "0x8"), // GICR_TYPER: CommonLPIAff
    ("gicr", "0x14"), // GICR_WAKER
    ("gicr", "0x70"), // GICR_PROPBASER
    ("gicr", "0x78"), // GICR_PENDBASER
    ("gicr", "0xffe8"), // GICR_PIDR2
    ("gits", "0x4"), // GITS_IIDR
    ("gits", "0x8"), // GITS_TYPER
    ("gits", "0x80"), // GITS_CBASER
    ("gits", "0x100"), // GITS_BASER0
    ("gits", "0xffe8"), // GITS_PIDR2
];

/// Whether a step is about a register.
fn is_of(step: &Value, named: Named) -> bool {
    let (field, register) = named;
    match step.get(field) {
        Some(value) => value.as_str() == Some(register),
        None => false,
    }
}

/// Whether a step acknowledges an interrupt.
pub(crate) fn is_acknowledge(step: &Value) -> bool {
    is_of(step, ACKNOWLEDGE)
}

/// Whether a step is about a register that is otherwise by choice.
pub(crate) fn is_by_choice(step: &Value) -> bool {
    BY_CHOICE.iter().any(|named| is_of(step, *named))
}
