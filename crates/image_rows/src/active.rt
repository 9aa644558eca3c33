//! An image in which SPI 40 is active, and two steps are left.
use crate::table::{Want, expect_faults};
use image_read::read_image;
use scn_read::{GuestOp, IccReg, Step};
use serde_json::Value;
use std::test::Fail;

/// A message for 40 was acknowledged; the end of the interrupt and another read are left.
const ACTIVE: &str = concat!(
    r#"{"done":2,"guests":[{"col":[],"cpu":[[240,2,3,0,0,0,1,0,0,1048576]],"#,
    r#""dev":[],"evt":[],"gicd":3,"irqs":[[40,160,1,1,0,null]],"its":null,"#,
    r#""on":true,"ram":[],"rec":[["40",1,1,160,1,0,0,0,0,0,1,1,null]],"#,
    r#""redist":[[0,0]],"shape":[1,32,0,1,0,0]}],"lrs":4,"on_pe":[[0,0]],"#,
    r#""pes":1,"reads":1,"steps":[{"icc":"EOIR1","vcpu":[0,0],"write":40},"#,
    r#"{"icc":"IAR1","vcpu":[0,0]}],"version":1}"#
);

/// What is no image, or what no run leaves.
const WRONG: [(&str, &str, Want); 46] = [
    (r#""version":1"#, r#""version":1"#, None),
    (r#","version":1"#, "", Some((1, 0))),
    (r#""version":1"#, r#""version":1,"more":1"#, Some((1, 0))),
    (r#""version":1"#, r#""version":"1""#, Some((1, 0))),
    (r#""version":1"#, r#""version":1.0"#, Some((1, 0))),
    (r#""version":1"#, r#""version":2"#, Some((12, 0))),
    (r#""version":1"#, r#""version":null"#, Some((12, 0))),
    (r#""done":2"#, r#""done":-1"#, Some((1, 0))),
    (r#""done":2"#, r#""done":"0x2""#, Some((1, 0))),
    (r#""done":2"#, r#""done":0"#, Some((12, 0))),
    (r#""done":2"#, r#""done":99998"#, None),
    (r#""done":2"#, r#""done":99999"#, Some((12, 0))),
    (
        r#""done":2"#,
        r#""done":18446744073709551615"#,
        Some((12, 0)),
    ),
    (r#""reads":1"#, r#""reads":2"#, None),
    (r#""reads":1"#, r#""reads":3"#, Some((12, 0))),
    (r#""on":true"#, r#""on":1"#, Some((1, 0))),
    (r#""on":true"#, r#""on":null"#, Some((12, 0))),
    (r#""lrs":4"#, r#""lrs":17"#, Some((12, 0))),
    (r#""pes":1"#, r#""pes":2"#, Some((12, 0))),
    (r#""on_pe":[[0,0]]"#, r#""on_pe":[null]"#, Some((5, 3))),
    (r#""on_pe":[[0,0]]"#, r#""on_pe":[[0,1]]"#, Some((12, 0))),
    (r#""on_pe":[[0,0]]"#, r#""on_pe":[[0]]"#, Some((12, 0))),
    (r#""gicd":3"#, r#""gicd":1"#, Some((12, 0))),
    (r#""gicd":3"#, r#""gicd":4"#, Some((12, 0))),
    (r#""its":null"#, r#""its":0"#, Some((1, 0))),
    (
        r#""its":null"#,
        r#""its":[0,0,0,0,0,0,74027918874902528,290200700988686336]"#,
        Some((12, 0)),
    ),
    (r#""dev":[]"#, r#""dev":[[8,5]]"#, Some((12, 0))),
    (r#""col":[]"#, r#""col":[[1,0]]"#, Some((12, 0))),
    (r#""ram":[]"#, r#""ram":[[0,1]]"#, Some((12, 0))),
    (r#"1,0,0,1048576"#, r#"1,1,0,1048576"#, Some((12, 0))),
    (r#"[240,2,3"#, r#"[241,2,3"#, Some((12, 0))),
    (r#"[240,2,3"#, r#"[240,1,3"#, Some((12, 0))),
    (r#"[240,2,3"#, r#"[240,2,2"#, Some((12, 0))),
    (r#",1048576"#, r#",4294967296"#, Some((12, 0))),
    (r#",1048576"#, r#",1048576,0"#, Some((12, 0))),
    (r#"[[0,0]],"shape""#, r#"[[1,0]],"shape""#, None),
    (r#"[[0,0]],"shape""#, r#"[[0,1]],"shape""#, Some((12, 0))),
    (r#"[[0,0]],"shape""#, r#"[],"shape""#, Some((12, 0))),
    (r#"[1,32,0,1,0,0]"#, r#"[1,33,0,1,0,0]"#, Some((12, 0))),
    (r#"[1,32,0,1,0,0]"#, r#"[1,32,0,2,0,0]"#, None),
    (r#"[1,32,0,1,0,0]"#, r#"[1,32,0,1,0]"#, Some((12, 0))),
    (r#"[40,160,1,1,0"#, r#"[40,161,1,1,0"#, Some((12, 0))),
    (r#""icc":"IAR1","#, r#""icc":"IAR2","#, Some((3, 4))),
    (
        r#""IAR1","vcpu":[0,0]"#,
        r#""IAR1","vcpu":[0,1]"#,
        Some((4, 4)),
    ),
    (r#""write":40"#, r#""write":"0x28""#, None),
    (r#""write":40"#, r#""wrote":40"#, Some((1, 3))),
];

/// Records.
const RECORDS: [(&str, &str, Want); 26] = [
    (r#"["40",1"#, r#"["40",2"#, Some((12, 0))),
    (r#"["40",1"#, r#"["40",true"#, Some((1, 0))),
    (r#"["40",1"#, r#"["40",null"#, Some((12, 0))),
    (r#"["40",1"#, r#"[40,1"#, Some((1, 0))),
    (r#"["40",1"#, r#"["040",1"#, Some((12, 0))),
    (r#"["40",1"#, r#"["+40",1"#, Some((12, 0))),
    (r#"["40",1"#, r#"["v0:40",1"#, Some((12, 0))),
    (r#"["40",1"#, r#"["v0:",1"#, Some((12, 0))),
    (r#"["40",1"#, r#"["",1"#, Some((12, 0))),
    (r#"["40",1"#, r#"["64",1"#, Some((12, 0))),
    (r#"["40",1"#, r#"["8195",1"#, Some((12, 0))),
    (r#"["40",1"#, r#"["63",1"#, None),
    (r#"["40",1,1"#, r#"["40",1,2"#, Some((12, 0))),
    (r#"["40",1,1,160"#, r#"["40",1,1,256"#, Some((12, 0))),
    (
        r#"0,0,1,1,null]],"redist""#,
        r#"1,0,1,1,null]],"redist""#,
        Some((12, 0)),
    ),
    (
        r#"0,0,1,1,null]],"redist""#,
        r#"null,0,1,1,null]],"redist""#,
        None,
    ),
    (
        r#"0,0,1,1,null]],"redist""#,
        r#"0,null,1,1,null]],"redist""#,
        Some((12, 0)),
    ),
    (
        r#"0,0,1,1,null]],"redist""#,
        r#"0,4294967295,1,1,null]],"redist""#,
        None,
    ),
    (
        r#"0,0,1,1,null]],"redist""#,
        r#"0,4294967296,1,1,null]],"redist""#,
        Some((12, 0)),
    ),
    (
        r#"0,0,1,1,null]],"redist""#,
        r#"0,0,0,1,null]],"redist""#,
        Some((12, 0)),
    ),
    (
        r#"0,0,1,1,null]],"redist""#,
        r#"0,0,1,1,0]],"redist""#,
        None,
    ),
    (
        r#"0,0,1,1,null]],"redist""#,
        r#"0,0,1,1,1]],"redist""#,
        Some((12, 0)),
    ),
    // One that is as the guest opened, a line that is up though none moved it, and others.
    (
        r#"1,1,null]],"redist""#,
        r#"1,1,null],["41",0,0,0,0,0,0,0,null,0,1,1,null]],"redist""#,
        None,
    ),
    (
        r#"1,1,null]],"redist""#,
        r#"1,1,null],["41",0,0,0,0,1,1,0,null,0,1,1,null]],"redist""#,
        None,
    ),
    (
        r#"1,1,null]],"redist""#,
        r#"1,1,null],["39",0,0,0,0,0,0,0,null,0,1,1,null]],"redist""#,
        Some((12, 0)),
    ),
    (
        r#"1,1,null]],"redist""#,
        r#"1,1,null],["40",0,0,0,0,0,0,0,null,0,1,1,null]],"redist""#,
        Some((12, 0)),
    ),
];

#[test]
fn refuses_what_no_run_leaves(rt: HostRuntime) -> Result<(), Fail> {
    expect_faults(&rt, rt.alloc(), ACTIVE, &WRONG)
}

#[test]
fn refuses_what_no_record_is(rt: HostRuntime) -> Result<(), Fail> {
    expect_faults(&rt, rt.alloc(), ACTIVE, &RECORDS)
}

#[test]
fn reads_what_is_left(rt: HostRuntime) -> Result<(), Fail> {
    let value = Value::from_str(rt.alloc(), ACTIVE)?;
    let saved = read_image(rt.alloc(), &value)?;
    assert_eq!(rt; (saved.done, saved.reads), (2, 1));
    assert_eq!(rt; (saved.scenario.pes, saved.scenario.lrs), (1, 4));
    let read = GuestOp::Icc {
        reg: IccReg::Iar1,
        write: None,
    };
    let last = Step::Vcpu {
        guest: 0,
        vcpu: 0,
        op: read,
    };
    assert_eq!(rt; saved.scenario.steps.get(1).copied(), Some(last));
    Ok(())
}
