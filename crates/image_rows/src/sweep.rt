//! The image of an active interrupt with each of its numbers changed, one at a time.
use crate::table::{Want, fault_of};
use scn_read::Fault;
use std::alloc::Global;
use std::process::Abort;
use std::test::Fail;

/// What no run leaves.
const NONE_LEAVES: Want = Some((12, 0));
/// A guest or a vCPU that is not there, in the first and in the second of the steps that are left.
const FIRST_STEP: Want = Some((4, 3));

const SECOND_STEP: Want = Some((4, 4));

/// Each number of the image, behind what stands before it, and what the image is with one more in its place, and with 2^64 - 1.
const NUMBERS: [(&str, u64, Want, Want); 47] = [
    (r#"{"done":"#, 2, None, NONE_LEAVES),
    // PMR, the binary points, CBPR, EOImode, the group enables, EnableLPIs and the active levels.
    (
        r#","guests":[{"col":[],"cpu":[["#,
        240,
        NONE_LEAVES,
        NONE_LEAVES,
    ),
    (",", 2, None, NONE_LEAVES),
    (",", 3, None, NONE_LEAVES),
    (",", 0, None, NONE_LEAVES),
    (",", 0, None, NONE_LEAVES),
    (",", 0, None, NONE_LEAVES),
    (",", 1, NONE_LEAVES, NONE_LEAVES),
    (",", 0, NONE_LEAVES, NONE_LEAVES),
    (",", 0, None, NONE_LEAVES),
    (",", 1048576, None, NONE_LEAVES),
    (
        r#"]],"dev":[],"evt":[],"gicd":"#,
        3,
        NONE_LEAVES,
        NONE_LEAVES,
    ),
    // The preset: its INTID, priority, trigger, group and target.
    (r#","irqs":[["#, 40, None, NONE_LEAVES),
    (",", 160, NONE_LEAVES, NONE_LEAVES),
    (",", 1, NONE_LEAVES, NONE_LEAVES),
    (",", 1, NONE_LEAVES, NONE_LEAVES),
    (",", 0, NONE_LEAVES, NONE_LEAVES),
    // The record: enabled, group, priority, edge, line, rise, soft, active by, affinity and both copies.
    (
        r#",null]],"its":null,"on":true,"ram":[],"rec":[["40","#,
        1,
        NONE_LEAVES,
        NONE_LEAVES,
    ),
    (",", 1, NONE_LEAVES, NONE_LEAVES),
    (",", 160, NONE_LEAVES, NONE_LEAVES),
    (",", 1, NONE_LEAVES, NONE_LEAVES),
    (",", 0, None, NONE_LEAVES),
    (",", 0, None, NONE_LEAVES),
    (",", 0, None, NONE_LEAVES),
    (",", 0, NONE_LEAVES, NONE_LEAVES),
    (",", 0, None, NONE_LEAVES),
    (",", 1, NONE_LEAVES, NONE_LEAVES),
    (",", 1, NONE_LEAVES, NONE_LEAVES),
    // PROPBASER, whose lowest bits are stored, and PENDBASER, whose lowest are not.
    (r#",null]],"redist":[["#, 0, None, NONE_LEAVES),
    (",", 0, NONE_LEAVES, NONE_LEAVES),
    // vCPUs, SPIs, extended SPIs, devices, LPIs and bytes of memory.
    (r#"]],"shape":["#, 1, NONE_LEAVES, NONE_LEAVES),
    (",", 32, NONE_LEAVES, NONE_LEAVES),
    (",", 0, NONE_LEAVES, NONE_LEAVES),
    (",", 1, None, NONE_LEAVES),
    (",", 0, NONE_LEAVES, NONE_LEAVES),
    (",", 0, NONE_LEAVES, NONE_LEAVES),
    (r#"]}],"lrs":"#, 4, None, NONE_LEAVES),
    (r#","on_pe":[["#, 0, NONE_LEAVES, NONE_LEAVES),
    (",", 0, NONE_LEAVES, NONE_LEAVES),
    (r#"]],"pes":"#, 1, NONE_LEAVES, NONE_LEAVES),
    (r#","reads":"#, 1, None, NONE_LEAVES),
    (
        r#","steps":[{"icc":"EOIR1","vcpu":["#,
        0,
        FIRST_STEP,
        FIRST_STEP,
    ),
    (",", 0, FIRST_STEP, FIRST_STEP),
    (r#"],"write":"#, 40, None, None),
    (r#"},{"icc":"IAR1","vcpu":["#, 0, SECOND_STEP, SECOND_STEP),
    (",", 0, SECOND_STEP, SECOND_STEP),
    (r#"]}],"version":"#, 1, NONE_LEAVES, NONE_LEAVES),
];

/// The image with another number at a place; a place past the last changes nothing.
fn changed(alloc: Global, at: usize, number: u64) -> Result<String, Fail> {
    let mut text = format!(in alloc; "")?;
    for (place, row) in NUMBERS.iter().enumerate() {
        let (before, stands, _, _) = *row;
        let shown = if place == at { number } else { stands };
        text = format!(in alloc; "{text}{before}{shown}")?;
    }
    Ok(format!(in alloc; "{text}}}")?)
}

/// The image with this number at a place has its fault.
fn expect_change(
    rt: &impl Abort,
    alloc: Global,
    at: usize,
    number: u64,
    want: Want,
) -> Result<(), Fail> {
    let text = changed(alloc, at, number)?;
    let want = want.map(|(code, step)| Fault { code, step });
    assert_eq!(rt; fault_of(alloc, &text)?, want, "number {at} as {number}");
    Ok(())
}

#[test]
fn reads_it_as_it_is(rt: HostRuntime) -> Result<(), Fail> {
    expect_change(&rt, rt.alloc(), NUMBERS.len(), 0, None)
}

#[test]
fn knows_each_number(rt: HostRuntime) -> Result<(), Fail> {
    for (at, row) in NUMBERS.iter().enumerate() {
        let (_, stands, more, most) = *row;
        expect_change(&rt, rt.alloc(), at, stands.wrapping_add(1), more)?;
        expect_change(&rt, rt.alloc(), at, u64::MAX, most)?;
    }
    Ok(())
}
