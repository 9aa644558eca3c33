//! The line of a fault.

use scn_hint::{Mode, ReadRefusal, hint_of, read};
use serde_json::Value;
use std::alloc::Global;
use std::test::Fail;

/// The line that tells the fault of a text.
pub(crate) fn line_of(alloc: Global, text: &str, mode: Mode) -> Result<String, Fail> {
    let value = Value::from_str(alloc, text)?;
    match read(alloc, &value, mode) {
        Err(ReadRefusal::Bad(fault)) => Ok(format!(in alloc; "{}", hint_of(&value, fault))?),
        _ => Err(Fail::from("no fault")),
    }
}
