//! Tables of changes to an image, each with what the changed image is.
use image_read::read_image;
use scn_read::{Fault, ReadRefusal};
use serde_json::Value;
use std::alloc::Global;
use std::process::Abort;
use std::test::Fail;

/// What a text is: an image, or the code and the step of its fault.
pub(crate) type Want = Option<(u8, u32)>;

/// The fault of a text, or none where it is an image.
pub(crate) fn fault_of(alloc: Global, text: &str) -> Result<Option<Fault>, Fail> {
    let value = Value::from_str(alloc, text)?;
    match read_image(alloc, &value) {
        Ok(_) => Ok(None),
        Err(ReadRefusal::Bad(fault)) => Ok(Some(fault)),
        Err(refusal) => Err(refusal)?,
    }
}

/// An image in which the first of a text's places is another text has its fault.
fn expect_fault(
    rt: &impl Abort,
    alloc: Global,
    image: &str,
    row: (&str, &str, Want),
) -> Result<(), Fail> {
    let (old, new, want) = row;
    let halves = image.split_once(old);
    assert!(rt; halves.is_some(), "no {old}");
    let (before, after) = halves.unwrap_or(("", ""));
    let text = format!(in alloc; "{before}{new}{after}")?;
    let want = want.map(|(code, step)| Fault { code, step });
    assert_eq!(rt; fault_of(alloc, &text)?, want, "{old} as {new}");
    Ok(())
}

/// The same of each row of a table: what is changed, into what, and the fault.
pub(crate) fn expect_faults(
    rt: &impl Abort,
    alloc: Global,
    image: &str,
    table: &[(&str, &str, Want)],
) -> Result<(), Fail> {
    for row in table {
        expect_fault(rt, alloc, image, *row)?;
    }
    Ok(())
}
