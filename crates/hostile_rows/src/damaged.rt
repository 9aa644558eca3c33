//! Scenarios that are damaged in one place, with the status and all that is written of each.

use crate::call::{run_once, words_of};
use crate::inputs::{FIRST, FIRST_TEXT};
use gic_top::{BAD_JSON, BAD_SCENARIO, OK, Shown};
use std::alloc::{AllocError, Global};
use std::test::Fail;

/// What is written of bytes that are no JSON.
const NO_JSON: &str = "bad json\n";

/// An input, the status, and all that is written.
const DAMAGED: [(&[u8], u8, &str); 11] = [
    (b"[]", BAD_SCENARIO, "bad scenario: code 1 step 0\n"),
    (b"\xff", BAD_JSON, NO_JSON),
    (
        br#"{"pes":1,"lrs":0,"guests":[{"vcpus":1,"spis":32,"on":true,"irqs":[{"id":40}]}],"steps":[]}"#,
        BAD_SCENARIO,
        "bad scenario: code 2 step 0\n",
    ),
    (
        br#"{"pes":1,"lrs":4,"guests":[{"vcpus":1,"spis":32,"on":true,"irqs":[{"id":5,"vcpu":0,"edge":false}]}],"steps":[]}"#,
        BAD_SCENARIO,
        "bad scenario: code 2 step 0\n",
    ),
    (
        br#"{"pes":1,"lrs":4,"guests":[{"vcpus":1,"spis":32,"on":true,"irqs":[{"id":40}]}],"steps":[{"vcpu":[0,0],"icc":"IAR1","write":1}]}"#,
        BAD_SCENARIO,
        "bad scenario: code 3 step 1\n",
    ),
    (
        br#"{"pes":1,"lrs":4,"guests":[{"vcpus":1,"spis":32,"on":true,"irqs":[{"id":40}]}],"steps":[{"vcpu":[0,0],"gicd":"0x10000"}]}"#,
        BAD_SCENARIO,
        "bad scenario: code 9 step 1\n",
    ),
    (
        br#"{"pes":1,"lrs":4,"guests":[{"vcpus":1,"spis":32,"on":true,"irqs":[{"id":40}]}],"steps":[{"vcpu":[0,0],"gicd":0,"size":3}]}"#,
        BAD_SCENARIO,
        "bad scenario: code 2 step 1\n",
    ),
    (
        br#"{"pes":1,"lrs":4,"guests":[{"vcpus":1,"spis":32,"ram":8,"on":true,"irqs":[{"id":40}]}],"steps":[{"vcpu":[0,0],"ram":0,"size":1,"write":256}]}"#,
        BAD_SCENARIO,
        "bad scenario: code 2 step 1\n",
    ),
    (
        br#"{"pes":1,"lrs":4,"guests":[{"vcpus":1,"spis":32,"on":true,"irqs":[{"id":40}]}],"steps":[{"dev":[0,0],"message":40,"x":1}]}"#,
        BAD_SCENARIO,
        "bad scenario: code 1 step 1\n",
    ),
    (
        br#"{"pes":1,"lrs":4,"guests":[{"vcpus":1,"spis":32,"on":true,"irqs":[{"id":40}]}],"steps":[{"vcpu":[0,0],"icc":"PMR","write":"0x1FFFFFFFFFFFFFFFF"}]}"#,
        BAD_SCENARIO,
        "bad scenario: code 1 step 1\n",
    ),
    (
        br#"{"pes":1,"lrs":4,"guests":[{"vcpus":1,"spis":32,"on":true,"irqs":[{"id":40}]}],"steps":[{"pe":0,"exit":true},{"pe":0,"exit":true}]}"#,
        BAD_SCENARIO,
        "bad scenario: code 5 step 2\n",
    ),
];

#[test]
fn a_damaged_scenario_is_refused(rt: HostRuntime) -> Result<(), Fail> {
    let words = words_of(rt.alloc(), &["run"])?;
    for (input, status, text) in DAMAGED {
        let told = run_once(&rt, rt.alloc(), words.as_slice(), input)?;
        assert_eq!(rt; told.status, status, "{input:?}");
        assert_eq!(rt; told.text.as_str(), text, "{input:?}");
    }
    Ok(())
}

/// How many lists the reader takes inside of one another: at most one less.
const TOO_DEEP: usize = 128;

/// Lists inside of one another, with so many ends of them.
fn nested(rt: &impl Alloc<A = Global>, ends: usize) -> Result<Vec<u8>, AllocError> {
    let mut input = vec![in rt.alloc(); b'['; TOO_DEEP]?;
    for _ in 0..ends {
        input.push(b']')?;
    }
    Ok(input)
}

#[test]
fn lists_that_nest_too_deep_are_no_json(rt: HostRuntime) -> Result<(), Fail> {
    let words = words_of(rt.alloc(), &["run"])?;
    for ends in [0, TOO_DEEP] {
        let input = nested(&rt, ends)?;
        let told = run_once(&rt, rt.alloc(), words.as_slice(), input.as_slice())?;
        assert_eq!(rt; told.status, BAD_JSON, "{ends} ends");
        assert_eq!(rt; told.text.as_str(), NO_JSON, "{ends} ends");
    }
    Ok(())
}

/// Bytes before a good input, bytes after it, the status, and all that is written: a byte order mark is no space, and space may follow.
const ROUND: [(&[u8], &[u8], u8, &str); 2] = [
    (b"\xef\xbb\xbf", b"", BAD_JSON, NO_JSON),
    (b"", b"\n ", OK, FIRST_TEXT),
];

#[test]
fn what_stands_round_an_input_counts(rt: HostRuntime) -> Result<(), Fail> {
    let words = words_of(rt.alloc(), &["run"])?;
    for (before, after, status, text) in ROUND {
        let mut input = Vec::from_slice(rt.alloc(), before)?;
        input.extend_from_slice(FIRST)?;
        input.extend_from_slice(after)?;
        let told = run_once(&rt, rt.alloc(), words.as_slice(), input.as_slice())?;
        assert_eq!(rt; told.status, status, "after {before:?}");
        assert_eq!(rt; told.text.as_str(), text, "after {before:?}");
        assert_eq!(rt;
            told.shown,
            Shown {
                scheduled: u64::from(status == OK),
                threaded: 0
            }
        );
    }
    Ok(())
}
