//! Tables of texts and their faults.
use scn_read::{Fault, Mode, ReadRefusal, read};
use serde_json::Value;
use std::alloc::Global;
use std::process::Abort;
use std::test::Fail;

/// What a text is: a scenario, or the code and the step of its fault.
pub(crate) type Want = Option<(u8, u32)>;

/// The fault of a text, or none where it is a scenario.
fn fault_of(alloc: Global, text: &str, mode: Mode) -> Result<Option<Fault>, Fail> {
    let value = Value::from_str(alloc, text)?;
    match read(alloc, &value, mode) {
        Ok(_) => Ok(None),
        Err(ReadRefusal::Bad(fault)) => Ok(Some(fault)),
        Err(refusal) => Err(refusal)?,
    }
}

/// Each text of a table, between two others, has its fault in this mode.
pub(crate) fn expect_faults(
    rt: &impl Abort,
    alloc: Global,
    mode: Mode,
    before: &str,
    table: &[(&str, Want)],
    after: &str,
) -> Result<(), Fail> {
    for (middle, want) in table {
        let text = format!(in alloc; "{before}{middle}{after}")?;
        let want = want.map(|(code, step)| Fault { code, step });
        assert_eq!(rt; fault_of(alloc, &text, mode)?, want, "at {text}");
    }
    Ok(())
}
