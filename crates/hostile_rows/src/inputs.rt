//! Inputs of each kind, with the status and all that is written of each.

use crate::call::{run_once, words_of};
use gic_top::{BAD_JSON, BAD_SCENARIO, NOTHING_SHOWN, OK, Shown, TOO_LONG};
use std::test::Fail;

/// A message of SPI 40, which a vCPU acknowledges and ends.
pub(crate) const FIRST: &[u8] =
    br#"{"pes":1,"lrs":4,"guests":[{"vcpus":1,"spis":32,"on":true,"irqs":[{"id":40}]}],"steps":[{"dev":[0,0],"message":40},{"vcpu":[0,0],"icc":"IAR1"},{"vcpu":[0,0],"icc":"EOIR1","write":40},{"vcpu":[0,0],"icc":"IAR1"}]}"#;

pub(crate) const FIRST_TEXT: &str = "2 0x0000000000000028\n4 0x00000000000003ff\nend 4 2\n";

/// A vCPU that sends SGI 5 to itself.
pub(crate) const ITSELF: &[u8] =
    br#"{"guests":[{"on":true,"irqs":[{"id":5,"vcpu":0}]}],"steps":[{"vcpu":[0,0],"icc":"SGI1R","write":83886081},{"vcpu":[0,0],"icc":"IAR1"},{"vcpu":[0,0],"icc":"EOIR1","write":5},{"vcpu":[0,0],"icc":"IAR1"}]}"#;

pub(crate) const ITSELF_TEXT: &str = "2 0x0000000000000005\n4 0x00000000000003ff\nend 4 2\n";

/// Inputs of `run`, each with the status and all that is written.
const INPUTS: [(&[u8], u8, &str); 5] = [
    (FIRST, OK, FIRST_TEXT),
    (
        br#"{"guests":[{}],"steps":[{"vcpu":[0,0],"icc":"IAR2"}]}"#,
        BAD_SCENARIO,
        "bad scenario: code 3 step 1\n",
    ),
    (br#"{"pes":1"#, BAD_JSON, "bad json\n"),
    (b"\"\xff\"", BAD_JSON, "bad json\n"),
    (b"", BAD_JSON, "bad json\n"),
];

#[test]
fn answers_inputs(rt: HostRuntime) -> Result<(), Fail> {
    let words = words_of(rt.alloc(), &["run"])?;
    for (input, status, text) in INPUTS {
        let told = run_once(&rt, rt.alloc(), words.as_slice(), input)?;
        assert_eq!(rt; told.status, status, "{input:?}");
        assert_eq!(rt; told.text.as_str(), text, "{input:?}");
        assert_eq!(rt;
            told.shown,
            Shown {
                scheduled: u64::from(status == OK),
                threaded: 0
            },
            "{input:?}"
        );
    }
    Ok(())
}

/// Inputs of `threads`, each with the status and all that is written: without a device it is the same in every run.
const THREADS_INPUTS: [(&[u8], u8, &str); 4] = [
    (ITSELF, OK, ITSELF_TEXT),
    (
        br#"{"guests":[{}],"steps":[{"pe":0,"lrs":true}]}"#,
        BAD_SCENARIO,
        "bad scenario: code 7 step 1\n",
    ),
    (br#"{"pes":1"#, BAD_JSON, "bad json\n"),
    (
        br#"{"guests":[{}],"steps":[{"vcpu":[0,0],"icc":"IAR2"}]}"#,
        BAD_SCENARIO,
        "bad scenario: code 3 step 1\n",
    ),
];

#[test]
fn answers_inputs_of_threads(rt: HostRuntime) -> Result<(), Fail> {
    for words in [["threads", "1", "1"], ["threads", "8", "1000"]] {
        let words = words_of(rt.alloc(), &words)?;
        for (input, status, text) in THREADS_INPUTS {
            let told = run_once(&rt, rt.alloc(), words.as_slice(), input)?;
            assert_eq!(rt; told.status, status, "{input:?}");
            assert_eq!(rt; told.text.as_str(), text, "{input:?}");
            assert_eq!(rt;
                told.shown,
                Shown {
                    scheduled: 0,
                    threaded: u64::from(status == OK)
                }
            );
        }
    }
    Ok(())
}

#[test]
fn an_input_that_breaks_off_is_no_json(rt: HostRuntime) -> Result<(), Fail> {
    let words = words_of(rt.alloc(), &["run"])?;
    for count in 0..FIRST.len() {
        let told = run_once(&rt, rt.alloc(), words.as_slice(), &FIRST[..count])?;
        assert_eq!(rt; told.status, BAD_JSON, "of {count} bytes");
        assert_eq!(rt; told.text.as_str(), "bad json\n", "of {count} bytes");
        assert_eq!(rt; told.shown, NOTHING_SHOWN, "of {count} bytes");
    }
    Ok(())
}

#[test]
fn long_inputs(rt: HostRuntime) -> Result<(), Fail> {
    let words = words_of(rt.alloc(), &["run"])?;
    for (spaces, status, text) in [
        (16_777_216, BAD_JSON, "bad json\n"),
        (16_777_217, TOO_LONG, "too long\n"),
    ] {
        let input = vec![in rt.alloc(); b' '; spaces]?;
        let told = run_once(&rt, rt.alloc(), words.as_slice(), input.as_slice())?;
        assert_eq!(rt; told.status, status);
        assert_eq!(rt; told.text.as_str(), text);
        assert_eq!(rt; told.shown, NOTHING_SHOWN);
    }
    Ok(())
}
