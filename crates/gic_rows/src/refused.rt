//! Inputs that are refused, each with its message.

use crate::row::check;
use gic_top::BAD_SCENARIO;
use std::test::Fail;
use worked_rows::{Row, enter, icc, mem, message, wire};

/// A guest of one vCPU.
const GUEST: &str = r#""guests":[{"on":true,"irqs":[{"id":40}]}]"#;

#[rattlefmt::skip]
const FAULTS: [Row; 18] = [
    Row {
        shows: "no guests", before: r#""pes":1"#,
        steps: &[], lines: &["bad scenario: code 1 step 0"],
    },
    Row {
        shows: "a step that has none of the forms", before: GUEST,
        steps: &[&[message!(40), r#"{"vcpu":[0,0],"read":"IAR1"}"#]], lines: &["bad scenario: code 1 step 2"],
    },
    Row {
        shows: "seventeen list registers", before: r#""lrs":17,"guests":[{}]"#,
        steps: &[], lines: &["bad scenario: code 2 step 0"],
    },
    Row {
        shows: "more SPIs than there can be", before: r#""guests":[{"spis":992}]"#,
        steps: &[], lines: &["bad scenario: code 2 step 0"],
    },
    Row {
        shows: "thirty-three vCPUs", before: r#""guests":[{"vcpus":33}]"#,
        steps: &[], lines: &["bad scenario: code 2 step 0"],
    },
    Row {
        shows: "a register of the CPU interface that is not there", before: GUEST,
        steps: &[&[message!(40), icc!(0, "IAR2")]], lines: &["bad scenario: code 3 step 2"],
    },
    Row {
        shows: "a preset of an SPI that the guest does not have",
        before: r#""guests":[{"spis":0,"irqs":[{"id":40}]}]"#,
        steps: &[], lines: &["bad scenario: code 4 step 0"],
    },
    Row {
        shows: "a message for an SPI past the 32 of a guest by default", before: r#""guests":[{}]"#,
        steps: &[&[message!(64)]], lines: &["bad scenario: code 4 step 1"],
    },
    Row {
        shows: "a message for an SPI past the last", before: r#""guests":[{"spis":960}]"#,
        steps: &[&[message!(992)]], lines: &["bad scenario: code 4 step 1"],
    },
    Row {
        shows: "a message for an extended SPI past the last", before: r#""guests":[{"espis":32}]"#,
        steps: &[&[message!(4128)]], lines: &["bad scenario: code 4 step 1"],
    },
    Row {
        shows: "a vCPU that is on no PE", before: r#""guests":[{"vcpus":2}]"#,
        steps: &[&[icc!(1, "IAR1")]], lines: &["bad scenario: code 5 step 1"],
    },
    Row {
        shows: "an enter of a PE that has a vCPU", before: GUEST,
        steps: &[&[enter!(0, 0)]], lines: &["bad scenario: code 6 step 1"],
    },
    Row {
        shows: "a wire that opens down goes down", before: r#""guests":[{}]"#,
        steps: &[&[wire!(40, false)]], lines: &["bad scenario: code 8 step 1"],
    },
    Row {
        shows: "a wire that goes up twice", before: GUEST,
        steps: &[&[wire!(40, true), wire!(40, true)]], lines: &["bad scenario: code 8 step 2"],
    },
    Row {
        shows: "a wire that another device moved", before: r#""guests":[{"devices":2}]"#,
        steps: &[&[wire!(40, true), wire!(40, false), r#"{"dev":[0,1],"wire":40,"up":true}"#]],
        lines: &["bad scenario: code 8 step 3"],
    },
    Row {
        shows: "eight bytes of memory at 4", before: r#""guests":[{"ram":8}]"#,
        steps: &[&[mem!(0, "ram", 4, 8)]], lines: &["bad scenario: code 9 step 1"],
    },
    Row {
        shows: "an offset past the distributor", before: GUEST,
        steps: &[&[mem!(0, "gicd", 0x10000, 4)]], lines: &["bad scenario: code 9 step 1"],
    },
    Row {
        shows: "of two faults of one step the lesser code", before: GUEST,
        steps: &[&[icc!(9, "IAR2")]], lines: &["bad scenario: code 3 step 1"],
    },
];

#[test]
fn refuses_faults(rt: HostRuntime) -> Result<(), Fail> {
    check(&rt, rt.alloc(), BAD_SCENARIO, &FAULTS)
}
