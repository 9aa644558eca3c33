//! Runs from their bytes through the whole tool, and what they write.
use crate::tool::run;
use gic_top::{BAD_JSON, BAD_SCENARIO, OK};
use std::test::Fail;

/// What is run, and its text.
type Row = (&'static str, &'static str);

const ROWS: [Row; 9] = [
    (
        r#"{"vcpus":1,"lrs":4,"links":[{"phys":100,"vid":40,"vcpu":0,"prio":160}],"steps":[{"phys":100,"set":"pend"},{"phys":100},{"icc":"IAR1"},{"phys":100,"set":"pend"},{"phys":100},{"icc":"EOIR1","write":40},{"phys":100},{"icc":"IAR1"},{"icc":"EOIR1","write":40},{"phys":100}]}"#,
        "2 phys 100 active\n3 0x0000000000000028\n5 phys 100 both\n7 phys 100 active\n8 0x0000000000000028\n10 phys 100 inactive\nend 10 2\n",
    ),
    (
        r#"{"vcpus":1,"lrs":1,"links":[{"phys":100,"vid":40,"vcpu":0,"prio":160},{"phys":101,"vid":41,"vcpu":0,"prio":160}],"steps":[{"phys":101,"set":"pend"},{"phys":100,"set":"pend"},{"lrs":true}]}"#,
        "3 lrs 0x0000000000000099 0x70a0006400000028\nend 3 0\n",
    ),
    (
        r#"{"vcpus":1,"lrs":1,"links":[{"phys":100,"vid":40,"vcpu":0,"prio":160},{"phys":101,"vid":41,"vcpu":0,"prio":32}],"steps":[{"phys":100,"set":"pend"},{"icc":"IAR1"},{"phys":101,"set":"pend"},{"lrs":true},{"icc":"IAR1"},{"phys":101},{"icc":"EOIR1","write":41},{"phys":101},{"icc":"EOIR1","write":40},{"phys":100}]}"#,
        "2 0x0000000000000028\n4 lrs 0x0000000000005c91 0x0000000000000000\n5 0x0000000000000029\n6 phys 101 active\n8 phys 101 inactive\n10 phys 100 inactive\nend 10 2\n",
    ),
    (
        r#"{"vcpus":1,"lrs":4,"links":[{"phys":100,"vid":40,"vcpu":0,"prio":160}],"steps":[{"phys":100,"set":"disable"},{"phys":100,"set":"pend"},{"phys":100},{"phys":100,"set":"enable"},{"phys":100},{"icc":"IAR1"}]}"#,
        "3 phys 100 pending\n5 phys 100 active\n6 0x0000000000000028\nend 6 1\n",
    ),
    (
        r#"{"vcpus":1,"lrs":4,"links":[{"phys":100,"vid":40,"vcpu":0,"prio":160}],"steps":[{"phys":100,"set":"pend"},{"phys":100,"set":"pend"},{"phys":100},{"phys":100,"set":"clear"},{"phys":100},{"icc":"IAR1"},{"icc":"EOIR1","write":40},{"phys":100},{"icc":"IAR1"}]}"#,
        "3 phys 100 both\n5 phys 100 active\n6 0x0000000000000028\n8 phys 100 inactive\n9 0x00000000000003ff\nend 9 2\n",
    ),
    (
        r#"{"vcpus":2,"lrs":4,"links":[{"phys":100,"vid":40,"vcpu":1,"prio":160}],"steps":[{"phys":100,"set":"pend"},{"icc":"IAR1"},{"exit":true},{"enter":1},{"icc":"IAR1"}]}"#,
        "2 0x00000000000003ff\n5 0x0000000000000028\nend 5 2\n",
    ),
    (
        r#"{"vcpus":1,"lrs":4,"links":[{"phys":100,"vid":40,"vcpu":0,"prio":160}],"steps":[{"icc":"CTLR","write":2},{"phys":100,"set":"pend"},{"icc":"IAR1"},{"icc":"EOIR1","write":40},{"phys":100},{"icc":"DIR","write":40},{"phys":100},{"icc":"CTLR"}]}"#,
        "3 0x0000000000000028\n5 phys 100 active\n7 phys 100 inactive\n8 0x00000000000c0402\nend 8 2\n",
    ),
    // No vCPU is loaded: zeros, and a latch is taken all the same. A number may be a text.
    (
        r#"{"vcpus":1,"lrs":2,"links":[{"phys":"0x64","vid":1019,"vcpu":0,"prio":0}],"steps":[{"exit":true},{"lrs":true},{"phys":100,"set":"pend"},{"phys":100},{"enter":0},{"lrs":true}]}"#,
        "2 lrs 0x0000000000000000 0x0000000000000000 0x0000000000000000\n4 phys 100 active\n6 lrs 0x0000000000000091 0x70000064000003fb 0x0000000000000000\nend 6 0\n",
    ),
    (r#"{"vcpus":1,"lrs":1,"links":[],"steps":[]}"#, "end 0 0\n"),
];

#[test]
fn runs_write_their_texts(rt: HostRuntime) -> Result<(), Fail> {
    for (input, text) in ROWS {
        let (status, wrote) = run(&rt, rt.alloc(), input)?;
        assert_eq!(rt; status, OK, "at {input}");
        assert_eq!(rt; wrote.as_str(), text, "at {input}");
    }
    Ok(())
}

/// What is refused, and the code and the step of its fault.
const REFUSED: [(&str, u8, u32); 8] = [
    (
        r#"{"vcpus":1,"lrs":4,"links":[{"phys":100,"vid":40,"vcpu":0,"prio":160},{"phys":100,"vid":41,"vcpu":0,"prio":160}],"steps":[]}"#,
        11,
        0,
    ),
    (
        r#"{"vcpus":1,"lrs":4,"links":[{"phys":100,"vid":40,"vcpu":0,"prio":160}],"steps":[{"phys":99}]}"#,
        4,
        1,
    ),
    (
        r#"{"vcpus":1,"lrs":4,"links":[{"phys":100,"vid":40,"vcpu":0,"prio":160}],"steps":[{"phys":100,"set":"raise"}]}"#,
        1,
        1,
    ),
    (
        r#"{"vcpus":1,"lrs":4,"links":[],"steps":[{"icc":"SGI1R","write":0}]}"#,
        3,
        1,
    ),
    (
        r#"{"vcpus":1,"lrs":4,"links":[],"steps":[{"exit":true},{"exit":true}]}"#,
        5,
        2,
    ),
    (
        r#"{"vcpus":1,"lrs":4,"links":[],"steps":[{"enter":0}]}"#,
        6,
        1,
    ),
    (r#"{"vcpus":9,"lrs":4,"links":[],"steps":[]}"#, 2, 0),
    // A scenario of `run` has none of the fields.
    (r#"{"guests":[{}],"steps":[]}"#, 1, 0),
];

#[test]
fn faults_are_told(rt: HostRuntime) -> Result<(), Fail> {
    for (input, code, step) in REFUSED {
        let (status, wrote) = run(&rt, rt.alloc(), input)?;
        let want = format!(in rt.alloc(); "bad scenario: code {code} step {step}\n")?;
        assert_eq!(rt; status, BAD_SCENARIO, "at {input}");
        assert_eq!(rt; wrote.as_str(), want.as_str(), "at {input}");
    }
    Ok(())
}

/// What is no JSON.
#[test]
fn no_json_is_told(rt: HostRuntime) -> Result<(), Fail> {
    let (status, wrote) = run(&rt, rt.alloc(), "{")?;
    assert_eq!(rt; status, BAD_JSON);
    assert_eq!(rt; wrote.as_str(), "bad json\n");
    Ok(())
}
