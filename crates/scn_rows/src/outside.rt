//! All that stands outside of the steps: a scenario's own fields, guests and presets.
use crate::table::{Want, expect_faults};
use scn_read::{MAX_STEPS, Mode};
use std::test::Fail;

/// Whole scenarios.
const SCENARIOS: [(&str, Want); 40] = [
    (r#"{"guests":[{}],"steps":[]}"#, None),
    (r#"{"lrs":1,"guests":[{}],"steps":[]}"#, None),
    (r#"{"lrs":16,"guests":[{}],"steps":[]}"#, None),
    (r#"{"lrs":"0xf","guests":[{}],"steps":[]}"#, None),
    (r#"{"lrs":"0xF","guests":[{}],"steps":[]}"#, None),
    (r#"{"pes":8,"guests":[{},{},{},{}],"steps":[]}"#, None),
    (
        r#"{"pes":1,"pes":9,"pes":1,"guests":[{}],"steps":[]}"#,
        None,
    ),
    (r#"[]"#, Some((1, 0))),
    (r#"{}"#, Some((1, 0))),
    (r#"{"steps":[]}"#, Some((1, 0))),
    (r#"{"guests":[{}]}"#, Some((1, 0))),
    (r#"{"guests":[{}],"steps":{}}"#, Some((1, 0))),
    (r#"{"guests":{},"steps":[]}"#, Some((1, 0))),
    (r#"{"guests":[[]],"steps":[]}"#, Some((1, 0))),
    (r#"{"set":1,"guests":[{}],"steps":[]}"#, Some((1, 0))),
    (r#"{"lrs":4.0,"guests":[{}],"steps":[]}"#, Some((1, 0))),
    (r#"{"lrs":4e0,"guests":[{}],"steps":[]}"#, Some((1, 0))),
    (r#"{"lrs":-0,"guests":[{}],"steps":[]}"#, Some((1, 0))),
    (r#"{"lrs":"0X4","guests":[{}],"steps":[]}"#, Some((1, 0))),
    (r#"{"pes":"0x","guests":[{}],"steps":[]}"#, Some((1, 0))),
    (
        r#"{"lrs":"0x00000000000000004","guests":[{}],"steps":[]}"#,
        Some((1, 0)),
    ),
    (
        r#"{"pes":18446744073709551616,"guests":[{}],"steps":[]}"#,
        Some((1, 0)),
    ),
    (r#"{"lrs":17,"guests":[{}],"steps":[]}"#, Some((2, 0))),
    (r#"{"lrs":0,"guests":[{}],"steps":[]}"#, Some((2, 0))),
    (r#"{"pes":0,"guests":[{}],"steps":[]}"#, Some((2, 0))),
    (r#"{"pes":9,"guests":[{}],"steps":[]}"#, Some((2, 0))),
    (
        r#"{"pes":4294967297,"guests":[{}],"steps":[]}"#,
        Some((2, 0)),
    ),
    (r#"{"guests":[],"steps":[]}"#, Some((2, 0))),
    (r#"{"guests":[{},{},{},{},{}],"steps":[]}"#, Some((2, 0))),
    // Of several faults outside of the steps the least, wherever they stand.
    (r#"{"lrs":17,"guests":[{"on":1}],"steps":[]}"#, Some((1, 0))),
    (
        r#"{"lrs":17,"guests":[{"irqs":[{"id":64}]}],"steps":[]}"#,
        Some((2, 0)),
    ),
    (
        r#"{"guests":[{"irqs":[{"id":64}]}],"steps":[],"set":1}"#,
        Some((1, 0)),
    ),
    (
        r#"{"guests":[{"irqs":[{"id":64}]},{"spis":33}],"steps":[]}"#,
        Some((2, 0)),
    ),
    (
        r#"{"guests":[{"spis":33},{"irqs":[7]}],"steps":[]}"#,
        Some((1, 0)),
    ),
    (r#"{"pes":9,"lrs":"","guests":[7]}"#, Some((1, 0))),
    // These come before any fault of a step.
    (
        r#"{"lrs":17,"guests":[{}],"steps":[{"pe":0}]}"#,
        Some((2, 0)),
    ),
    (
        r#"{"guests":[{"irqs":[{"id":64}]}],"steps":[{}]}"#,
        Some((4, 0)),
    ),
    (r#"{"guests":[{}],"steps":[[]]}"#, Some((1, 1))),
    (r#"{"guests":[{}],"steps":[{}]}"#, Some((1, 1))),
    (r#"{"guests":[{}],"steps":[null]}"#, Some((1, 1))),
];
/// Guests, each for the scenario of that guest and no step.
const GUESTS: [(&str, Want); 44] = [
    (
        r#"{"on":true,"vcpus":1,"spis":0,"devices":0,"lpis":0,"ram":0,"irqs":[]}"#,
        None,
    ),
    (
        r#"{"spis":960,"devices":4,"irqs":[{"id":32},{"id":991}]}"#,
        None,
    ),
    (r#"{}"#, None),
    (r#"{"on":false}"#, None),
    (r#"{"vcpus":32}"#, None),
    (r#"{"lpis":1}"#, None),
    (r#"{"lpis":4096}"#, None),
    (r#"{"ram":8}"#, None),
    (r#"{"ram":262144}"#, None),
    (r#"{"espis":1024,"irqs":[{"id":4096},{"id":5119}]}"#, None),
    (
        r#"{"vcpus":32,"irqs":[{"id":31,"vcpu":31},{"id":40,"to":31}]}"#,
        None,
    ),
    (r#"{"on":1}"#, Some((1, 0))),
    (r#"{"irq":[]}"#, Some((1, 0))),
    (r#"{"irqs":{}}"#, Some((1, 0))),
    (r#"{"vcpus":[1]}"#, Some((1, 0))),
    (r#"{"espis":true}"#, Some((1, 0))),
    (r#"{"vcpus":0,"spis":true}"#, Some((1, 0))),
    (r#"{"vcpus":0}"#, Some((2, 0))),
    (r#"{"vcpus":33}"#, Some((2, 0))),
    (r#"{"vcpus":4294967297}"#, Some((2, 0))),
    (r#"{"spis":33}"#, Some((2, 0))),
    (r#"{"spis":992}"#, Some((2, 0))),
    (r#"{"spis":18446744073709551615}"#, Some((2, 0))),
    (r#"{"espis":33}"#, Some((2, 0))),
    (r#"{"espis":1056}"#, Some((2, 0))),
    (r#"{"devices":5}"#, Some((2, 0))),
    (r#"{"lpis":4097}"#, Some((2, 0))),
    (r#"{"ram":4}"#, Some((2, 0))),
    (r#"{"ram":262152}"#, Some((2, 0))),
    (r#"{"spis":0,"irqs":[{"id":40}]}"#, Some((4, 0))),
    (r#"{"espis":0,"irqs":[{"id":4096}]}"#, Some((4, 0))),
    (r#"{"espis":32,"irqs":[{"id":4128}]}"#, Some((4, 0))),
    (r#"{"lpis":16,"irqs":[{"id":8192}]}"#, Some((4, 0))),
    (r#"{"vcpus":2,"irqs":[{"id":31,"vcpu":2}]}"#, Some((4, 0))),
    (r#"{"vcpus":2,"irqs":[{"id":40,"to":2}]}"#, Some((4, 0))),
    // A guest with a number that is out of range is judged by the least of its faults too.
    (r#"{"vcpus":33,"irqs":[{"id":40,"to":40}]}"#, Some((2, 0))),
    (r#"{"spis":992,"irqs":[{"id":1000}]}"#, Some((2, 0))),
    (r#"{"vcpus":33,"irqs":[{"id":"40"}]}"#, Some((1, 0))),
    (r#"{"irqs":[{"id":40},{"id":64}]}"#, Some((4, 0))),
    (r#"{"irqs":[{"id":64},{"id":40,"prio":4}]}"#, Some((2, 0))),
    (r#"{"irqs":[{"id":64},{"id":40,"prio":4},7]}"#, Some((1, 0))),
    (r#"{"irqs":[7,{"id":40,"prio":4},{"id":64}]}"#, Some((1, 0))),
    (r#"{"ram":4,"on":1}"#, Some((1, 0))),
    (r#"null"#, Some((1, 0))),
];
/// Presets, each for a guest by default.
const PRESETS: [(&str, Want); 42] = [
    (r#"{"id":40}"#, None),
    (r#"{"id":40,"prio":160,"edge":true,"group":1,"to":0}"#, None),
    (r#"{"id":40,"prio":0,"group":0}"#, None),
    (r#"{"id":40,"prio":248}"#, None),
    (r#"{"id":40,"edge":false}"#, None),
    (r#"{"id":40,"prio":136},{"id":40,"prio":"0x88"}"#, None),
    (r#"{"id":0,"vcpu":0}"#, None),
    (r#"{"id":15,"vcpu":0,"edge":true,"prio":8,"group":0}"#, None),
    (r#"{"id":16,"vcpu":0,"edge":false}"#, None),
    (r#"{"id":"0x1f","vcpu":"0x0"}"#, None),
    (r#"[]"#, Some((1, 0))),
    (r#"{"prio":160}"#, Some((1, 0))),
    (r#"{"id":"40"}"#, Some((1, 0))),
    (r#"{"id":40,"edge":1}"#, Some((1, 0))),
    (r#"{"id":40,"group":true}"#, Some((1, 0))),
    (r#"{"id":40,"to":null}"#, Some((1, 0))),
    (r#"{"id":40,"prio":"low"}"#, Some((1, 0))),
    (r#"{"id":64,"prio":4,"prios":4}"#, Some((1, 0))),
    // A private interrupt has no `to`, and needs its vCPU; a shared one has no `vcpu`.
    (r#"{"id":31}"#, Some((1, 0))),
    (r#"{"id":31,"to":0}"#, Some((1, 0))),
    (r#"{"id":31,"vcpu":0,"to":0}"#, Some((1, 0))),
    (r#"{"id":31,"vcpu":[0]}"#, Some((1, 0))),
    (r#"{"id":40,"vcpu":0}"#, Some((1, 0))),
    (r#"{"id":32,"vcpu":0}"#, Some((1, 0))),
    (r#"{"id":40,"vcpu":0,"to":0}"#, Some((1, 0))),
    (r#"{"id":40,"prio":4}"#, Some((2, 0))),
    (r#"{"id":40,"prio":256}"#, Some((2, 0))),
    (r#"{"id":40,"prio":18446744073709551608}"#, Some((2, 0))),
    (r#"{"id":40,"group":2}"#, Some((2, 0))),
    (r#"{"id":64,"group":2}"#, Some((2, 0))),
    (r#"{"id":0,"vcpu":0,"edge":false}"#, Some((2, 0))),
    (r#"{"id":15,"vcpu":9,"edge":false}"#, Some((2, 0))),
    (r#"{"id":64}"#, Some((4, 0))),
    (r#"{"id":1023}"#, Some((4, 0))),
    (r#"{"id":4096}"#, Some((4, 0))),
    (r#"{"id":8192}"#, Some((4, 0))),
    (r#"{"id":4294967336}"#, Some((4, 0))),
    (r#"{"id":18446744073709551615}"#, Some((4, 0))),
    (r#"{"id":40,"to":1}"#, Some((4, 0))),
    (r#"{"id":40,"to":4294967296}"#, Some((4, 0))),
    (r#"{"id":31,"vcpu":1}"#, Some((4, 0))),
    (r#"{"id":31,"vcpu":4294967296}"#, Some((4, 0))),
];

#[test]
fn gives_codes_outside(rt: HostRuntime) -> Result<(), Fail> {
    let alloc = rt.alloc();
    for mode in [Mode::Schedule, Mode::Threads] {
        expect_faults(&rt, alloc, mode, "", &SCENARIOS, "")?;
        let before = r#"{"guests":["#;
        expect_faults(&rt, alloc, mode, before, &GUESTS, r#"],"steps":[]}"#)?;
        let before = r#"{"guests":[{"irqs":["#;
        expect_faults(&rt, alloc, mode, before, &PRESETS, r#"]}],"steps":[]}"#)?;
    }
    Ok(())
}

/// As many steps as there may be, the first of which is none, and one more.
#[test]
fn counts_steps(rt: HostRuntime) -> Result<(), Fail> {
    let alloc = rt.alloc();
    let mut before = String::from_str(alloc, r#"{"guests":[{}],"steps":[{}"#)?;
    for _ in 0..MAX_STEPS - 1 {
        before.push_str(",7")?;
    }
    let ends = [("", Some((1, 1))), (",7", Some((2, 0)))];
    expect_faults(&rt, alloc, Mode::Schedule, &before, &ends, "]}")?;
    Ok(())
}
