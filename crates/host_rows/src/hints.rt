//! What people are told of faults, line by line.
use gic_top::host::read_host;
use gic_top::host::scenarios::ReadRefusal;
use scn_hint::host_hint_of;
use serde_json::Value;
use std::alloc::Global;
use std::test::Fail;

/// An input, and the line that tells its fault.
const LINES: [(&str, &str); 12] = [
    (
        r#"{"vcpus":1,"lrs":4,"links":[],"steps":[],"pes":1}"#,
        r#"outside of the steps: Shape: unknown field "pes""#,
    ),
    (
        r#"{"vcpus":1,"lrs":4,"steps":[]}"#,
        r#"outside of the steps: Shape: field "links" is missing: a list"#,
    ),
    (
        r#"[]"#,
        r#"outside of the steps: Shape: field "vcpus" is missing: a number from 0 to 2^64 - 1, as 40 or "0x28""#,
    ),
    (
        r#"{"vcpus":1,"lrs":4,"links":[{"phys":100,"vid":40,"vcpu":0,"prio":0},{"phys":101,"vcpu":0,"prio":0}],"steps":[]}"#,
        r#"link 1: Shape: field "vid" is missing: a number from 0 to 2^64 - 1, as 40 or "0x28""#,
    ),
    (
        r#"{"vcpus":1,"lrs":4,"links":[],"steps":[{"phys":100,"sett":"pend"}]}"#,
        r#"step 1: Shape: unknown field "sett""#,
    ),
    (
        r#"{"vcpus":1,"lrs":4,"links":[],"steps":[{"lrs":true},{"phys":100,"set":1}]}"#,
        r#"step 2: Shape: field "set" is 1, not a text"#,
    ),
    (
        r#"{"vcpus":1,"lrs":4,"links":[],"steps":[{"exit":false}]}"#,
        r#"step 1: Shape: field "exit" is not true"#,
    ),
    (
        r#"{"vcpus":1,"lrs":4,"links":[],"steps":[{}]}"#,
        r#"step 1: Shape"#,
    ),
    (
        r#"{"vcpus":1,"lrs":4,"links":[],"steps":[{"icc":"EOIR1"}]}"#,
        r#"step 1: UnknownRegister"#,
    ),
    (
        r#"{"vcpus":9,"lrs":4,"links":[],"steps":[]}"#,
        r#"outside of the steps: Limit"#,
    ),
    (
        r#"{"vcpus":1,"lrs":4,"links":[{"phys":100,"vid":40,"vcpu":1,"prio":0}],"steps":[]}"#,
        r#"outside of the steps: UnknownActor"#,
    ),
    (
        r#"{"vcpus":1,"lrs":4,"links":[{"phys":100,"vid":40,"vcpu":0,"prio":0},{"phys":101,"vid":40,"vcpu":0,"prio":0}],"steps":[]}"#,
        r#"outside of the steps: LinkTwice"#,
    ),
];

/// The line that tells the fault of an input.
fn line_of(alloc: Global, input: &str) -> Result<String, Fail> {
    let value = Value::from_str(alloc, input)?;
    match read_host(alloc, &value) {
        Err(ReadRefusal::Bad(fault)) => Ok(format!(in alloc; "{}", host_hint_of(&value, fault))?),
        _ => Err(Fail::from("no fault")),
    }
}

#[test]
fn a_fault_is_told_in_a_line(rt: HostRuntime) -> Result<(), Fail> {
    for (input, want) in LINES {
        let line = line_of(rt.alloc(), input)?;
        assert_eq!(&rt; line.as_str(), want, "of {input}");
    }
    Ok(())
}
