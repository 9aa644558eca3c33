//! Words of `threads` that are none, and scenarios that it takes or refuses otherwise than `run`.

use crate::call::{call, call_unread};
use gic_top::{BAD_SCENARIO, NOTHING_SHOWN, OK, OpenGate, USAGE};
use std::test::Fail;

/// Words that are refused.
const USAGES: [&[&str]; 12] = [
    &["threads"],
    &["threads", "1"],
    &["threads", "1", "1", "1"],
    &["threads", "0", "1"],
    &["threads", "9", "1"],
    &["threads", "1", "0"],
    &["threads", "1", "1001"],
    &["threads", "02", "1"],
    &["threads", "1", "01"],
    &["threads", "+1", "1"],
    &["threads", "1", ""],
    &["Threads", "1", "1"],
];

/// The words of a run on one PE, an operation at a time.
const THREADS: [&str; 3] = ["threads", "1", "1"];

/// Inputs, each with the status and all that is written.
const CASES: [(&str, u8, &str); 7] = [
    // The list registers of a PE.
    (
        r#"{"guests":[{"on":true}],"steps":[{"vcpu":[0,0],"icc":"IAR1"},{"pe":0,"lrs":true}]}"#,
        BAD_SCENARIO,
        "bad scenario: code 7 step 2\n",
    ),
    (
        r#"{"guests":[{}],"steps":[{"pe":0,"exit":true}]}"#,
        BAD_SCENARIO,
        "bad scenario: code 7 step 1\n",
    ),
    // A vCPU that is on a PE already, where steps are done in order.
    (
        r#"{"guests":[{}],"steps":[{"pe":0,"enter":[0,0]}]}"#,
        BAD_SCENARIO,
        "bad scenario: code 7 step 1\n",
    ),
    // A vCPU that is not there.
    (
        r#"{"guests":[{}],"steps":[{"pe":0,"enter":[0,1]}]}"#,
        BAD_SCENARIO,
        "bad scenario: code 4 step 1\n",
    ),
    // Which PEs there are is not asked.
    (
        r#"{"guests":[{}],"steps":[{"pe":8,"exit":true}]}"#,
        BAD_SCENARIO,
        "bad scenario: code 7 step 1\n",
    ),
    // A wire still alternates.
    (
        r#"{"guests":[{}],"steps":[{"dev":[0,0],"wire":40,"up":false}]}"#,
        BAD_SCENARIO,
        "bad scenario: code 8 step 1\n",
    ),
    // A vCPU acts that would be on no PE, where steps are done in order.
    (
        r#"{"guests":[{"vcpus":2,"on":true}],"steps":[{"vcpu":[0,1],"icc":"IAR1"}]}"#,
        OK,
        "1 0x00000000000003ff\nend 1 1\n",
    ),
];

#[test]
fn other_words_are_refused(rt: HostRuntime) -> Result<(), Fail> {
    for words in USAGES {
        let (told, faults) = call_unread(&rt, rt.alloc(), words, &OpenGate)?;
        assert_eq!(rt; told.status, USAGE, "{words:?}");
        assert_eq!(rt; told.text.as_str(), "usage\n", "{words:?}");
        assert_eq!(rt; told.shown, NOTHING_SHOWN, "{words:?}");
        assert_eq!(rt; faults, 0, "{words:?}");
    }
    Ok(())
}

#[test]
fn scenarios_without_steps_of_pes(rt: HostRuntime) -> Result<(), Fail> {
    for (input, status, text) in CASES {
        let told = call(&rt, rt.alloc(), &THREADS, input, &OpenGate)?;
        assert_eq!(rt; told.text.as_str(), text, "{input}");
        assert_eq!(rt; told.status, status, "{input}");
    }
    Ok(())
}
