//! Faults outside of the steps.

use crate::line::line_of;
use scn_hint::Mode;
use std::test::Fail;

/// A text, and the line that tells its fault.
const OUTSIDE: [(&str, &str); 26] = [
    (
        r#"{"guests":[{}],"steps":[],"name":1}"#,
        r#"outside of the steps: Shape: unknown field "name""#,
    ),
    (
        r#"{"guests":[{}]}"#,
        r#"outside of the steps: Shape: field "steps" is missing: a list"#,
    ),
    (
        r#"{"guests":[{}],"steps":{}}"#,
        r#"outside of the steps: Shape: field "steps" is not a list"#,
    ),
    (
        r#"{"pes":true,"guests":[{}],"steps":[]}"#,
        r#"outside of the steps: Shape: field "pes" is not a number from 0 to 2^64 - 1, as 40 or "0x28""#,
    ),
    (r#"[]"#, r#"outside of the steps: Shape: no object"#),
    (r#"7"#, r#"outside of the steps: Shape: no object"#),
    (r#"null"#, r#"outside of the steps: Shape: no object"#),
    (
        r#"{"pes":16,"guests":[{}],"steps":[]}"#,
        r#"outside of the steps: Limit: field "pes" is 16: 1 to 8"#,
    ),
    (
        r#"{"guests":[],"steps":[]}"#,
        r#"outside of the steps: Limit: field "guests" has 0 elements: 1 to 4"#,
    ),
    (
        r#"{"guests":[{},{"vcpus":1.0}],"steps":[]}"#,
        r#"guest 1: Shape: field "vcpus" is not a number from 0 to 2^64 - 1, as 40 or "0x28""#,
    ),
    (
        r#"{"guests":[{},null],"steps":[]}"#,
        r#"guest 1: Shape: no object"#,
    ),
    (
        r#"{"guests":[{"on":"true"}],"steps":[]}"#,
        r#"guest 0: Shape: field "on" is "true", not true or false"#,
    ),
    (
        r#"{"guests":[{"spis":33}],"steps":[]}"#,
        r#"guest 0: Limit: field "spis" is 33: 0 to 960, a multiple of 32"#,
    ),
    (
        r#"{"guests":[{},{"spis":100}],"steps":[]}"#,
        r#"guest 1: Limit: field "spis" is 100: 0 to 960, a multiple of 32"#,
    ),
    (
        r#"{"guests":[{"vcpus":40}],"steps":[]}"#,
        r#"guest 0: Limit: field "vcpus" is 40: 1 to 32"#,
    ),
    (
        r#"{"guests":[{"irqs":[40]}],"steps":[]}"#,
        r#"guest 0, preset 0: Shape: no object"#,
    ),
    (
        r#"{"guests":[{"irqs":[{"id":"40","to":0}]}],"steps":[]}"#,
        r#"guest 0, preset 0: Shape: field "id" is "40", not a number from 0 to 2^64 - 1, as 40 or "0x28""#,
    ),
    (
        r#"{"guests":[{"irqs":[{"to":0}]}],"steps":[]}"#,
        r#"guest 0, preset 0: Shape: field "id" is missing: a number from 0 to 2^64 - 1, as 40 or "0x28""#,
    ),
    (
        r#"{"guests":[{"irqs":[{"id":40.0}]}],"steps":[]}"#,
        r#"guest 0, preset 0: Shape: field "id" is not a number from 0 to 2^64 - 1, as 40 or "0x28""#,
    ),
    (
        r#"{"guests":[{"irqs":[{"id":40},{"id":40,"vcpu":0}]}],"steps":[]}"#,
        r#"guest 0, preset 1: Shape: field "vcpu" is for ids below 32"#,
    ),
    (
        r#"{"guests":[{"irqs":[{"id":5,"vcpu":0,"to":0}]}],"steps":[]}"#,
        r#"guest 0, preset 0: Shape: field "to" is for ids from 32 on"#,
    ),
    (
        r#"{"guests":[{"irqs":[{"id":27}]}],"steps":[]}"#,
        r#"guest 0, preset 0: Shape: field "vcpu" is missing: a number from 0 to 2^64 - 1, as 40 or "0x28""#,
    ),
    (
        r#"{"guests":[{"irqs":[{"id":40,"prio":100}]}],"steps":[]}"#,
        r#"guest 0, preset 0: Limit: field "prio" is 100: 0 to 248, a multiple of 8"#,
    ),
    (
        r#"{"guests":[{"irqs":[{"id":5,"vcpu":0,"edge":false}]}],"steps":[]}"#,
        r#"guest 0, preset 0: Limit: field "edge" has to be true of an SGI, ids 0 to 15"#,
    ),
    (
        r#"{"guests":[{"irqs":[{"id":64}]}],"steps":[]}"#,
        r#"guest 0, preset 0: UnknownActor: field "id" is 64, not there: its guest has 32 SPIs from 32 on and 0 from 4096 on"#,
    ),
    (
        r#"{"guests":[{"irqs":[{"id":40,"to":3}]}],"steps":[]}"#,
        r#"guest 0, preset 0: UnknownActor: field "to" is 3, not there: vCPUs, from 0: 1"#,
    ),
];

#[test]
fn a_fault_outside_of_the_steps_is_told_in_a_line(rt: HostRuntime) -> Result<(), Fail> {
    for (text, want) in OUTSIDE {
        let line = line_of(rt.alloc(), text, Mode::Schedule)?;
        assert_eq!(&rt; line.as_str(), want, "of {text}");
    }
    Ok(())
}

/// The characters of a key that is told as far as 80 of them.
const LONG: usize = 1_000_000;

#[test]
fn a_long_key_is_cut(rt: HostRuntime) -> Result<(), Fail> {
    let mut text = String::from_str(rt.alloc(), r#"{"guests":[{}],"steps":[],""#)?;
    for _ in 0..LONG {
        text.push('k')?;
    }
    text.push_str(r#"":1}"#)?;
    let line = line_of(rt.alloc(), text.as_str(), Mode::Schedule)?;
    let key = "kkkkkkkkkkkkkkkkkkkkkkkkkkkkkkkkkkkkkkkkkkkkkkkkkkkkkkkkkkkkkkkkkkkkkkkkkkkkkkkk";
    let want = format!(in rt.alloc(); "outside of the steps: Shape: unknown field {key:?}..")?;
    assert_eq!(&rt; line.as_str(), want.as_str());
    Ok(())
}
