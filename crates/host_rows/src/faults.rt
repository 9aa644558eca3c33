//! Texts that say nothing to run, and their faults.
use gic_top::host::read_host;
use gic_top::host::scenarios::{Fault, ReadRefusal};
use serde_json::Value;
use std::alloc::Global;
use std::test::Fail;

/// What stands around a step, with one link of the physical interrupt 100.
const BEFORE: &str =
    r#"{"vcpus":1,"lrs":4,"links":[{"phys":100,"vid":40,"vcpu":0,"prio":160}],"steps":["#;

const AFTER: &str = "]}";

/// Steps, and the code and the step of their fault, or none.
const STEPS: [(&str, Option<(u8, u32)>); 31] = [
    (r#"{"phys":100}"#, None),
    (r#"{"phys":"0x64"}"#, None),
    (r#"{"phys":99}"#, Some((4, 1))),
    (r#"{"phys":0}"#, Some((4, 1))),
    (r#"{"phys":18446744073709551615}"#, Some((4, 1))),
    (r#"{"phys":4294967396}"#, Some((4, 1))),
    (r#"{"phys":1.0}"#, Some((1, 1))),
    (r#"{"phys":"0X64"}"#, Some((1, 1))),
    (r#"{"phys":"0x00000000000000064"}"#, Some((1, 1))),
    (r#"{"phys":100,"set":"raise"}"#, Some((1, 1))),
    (r#"{"phys":99,"set":"raise"}"#, Some((1, 1))),
    (r#"{"phys":100,"set":1}"#, Some((1, 1))),
    (r#"{"phys":100,"icc":"IAR1"}"#, Some((1, 1))),
    (r#"{"icc":"SGI1R","write":0}"#, Some((3, 1))),
    (r#"{"icc":"SGI1R"}"#, Some((3, 1))),
    (r#"{"icc":"IAR2"}"#, Some((3, 1))),
    (r#"{"icc":"IAR1","write":0}"#, Some((3, 1))),
    (r#"{"icc":"EOIR1"}"#, Some((3, 1))),
    (r#"{"icc":1}"#, Some((1, 1))),
    (r#"{"icc":"IAR2","write":"x"}"#, Some((1, 1))),
    (r#"{"exit":true},{"icc":"IAR1"}"#, Some((5, 2))),
    (r#"{"exit":true},{"icc":"IAR2"}"#, Some((3, 2))),
    (r#"{"exit":true},{"exit":true}"#, Some((5, 2))),
    (r#"{"exit":false}"#, Some((1, 1))),
    (r#"{"lrs":1}"#, Some((1, 1))),
    (r#"{"enter":0}"#, Some((6, 1))),
    (r#"{"enter":1}"#, Some((4, 1))),
    (r#"{"exit":true},{"enter":1}"#, Some((4, 2))),
    (r#"{"exit":true},{"enter":0},{"lrs":true}"#, None),
    (r#"{}"#, Some((1, 1))),
    (r#"1"#, Some((1, 1))),
];

/// Whole texts, and the code of their fault outside of the steps.
const WHOLES: [(&str, u8); 21] = [
    (r#"[]"#, 1),
    (r#"{"vcpus":1,"lrs":1,"links":[]}"#, 1),
    (r#"{"vcpus":1,"lrs":1,"steps":[]}"#, 1),
    (r#"{"lrs":1,"links":[],"steps":[]}"#, 1),
    (r#"{"vcpus":1,"links":[],"steps":[]}"#, 1),
    (r#"{"vcpus":1,"lrs":1,"links":[],"steps":[],"pes":1}"#, 1),
    (r#"{"vcpus":9,"lrs":1,"links":[],"steps":[]}"#, 2),
    (r#"{"vcpus":0,"lrs":1,"links":[],"steps":[{}]}"#, 2),
    (r#"{"vcpus":1,"lrs":17,"links":[],"steps":[]}"#, 2),
    (r#"{"vcpus":1,"lrs":0,"links":[],"steps":[]}"#, 2),
    (
        r#"{"vcpus":1,"lrs":1,"links":[{"phys":31,"vid":40,"vcpu":0,"prio":0}],"steps":[]}"#,
        2,
    ),
    (
        r#"{"vcpus":1,"lrs":1,"links":[{"phys":1020,"vid":40,"vcpu":0,"prio":0}],"steps":[]}"#,
        2,
    ),
    (
        r#"{"vcpus":1,"lrs":1,"links":[{"phys":32,"vid":1020,"vcpu":0,"prio":0}],"steps":[]}"#,
        2,
    ),
    (
        r#"{"vcpus":1,"lrs":1,"links":[{"phys":32,"vid":32,"vcpu":0,"prio":4}],"steps":[]}"#,
        2,
    ),
    (
        r#"{"vcpus":1,"lrs":1,"links":[{"phys":32,"vid":32,"vcpu":1,"prio":256}],"steps":[]}"#,
        2,
    ),
    (
        r#"{"vcpus":1,"lrs":1,"links":[{"phys":32,"vid":32,"vcpu":1,"prio":0}],"steps":[]}"#,
        4,
    ),
    (
        r#"{"vcpus":9,"lrs":1,"links":[{"phys":32,"vid":32,"vcpu":8,"prio":0}],"steps":[]}"#,
        2,
    ),
    (
        r#"{"vcpus":1,"lrs":1,"links":[{"phys":32,"vid":32,"vcpu":0}],"steps":[]}"#,
        1,
    ),
    (
        r#"{"vcpus":1,"lrs":1,"links":[{"phys":32,"vid":32,"vcpu":0,"prio":0},{"phys":32,"vid":33,"vcpu":0,"prio":0}],"steps":[{}]}"#,
        11,
    ),
    (
        r#"{"vcpus":1,"lrs":1,"links":[{"phys":32,"vid":33,"vcpu":0,"prio":0},{"phys":40,"vid":40,"vcpu":0,"prio":0},{"phys":33,"vid":33,"vcpu":0,"prio":8}],"steps":[]}"#,
        11,
    ),
    (
        r#"{"vcpus":1,"lrs":1,"links":[{"phys":32,"vid":32,"vcpu":0,"prio":0},{"phys":32,"vid":32,"vcpu":1,"prio":0}],"steps":[]}"#,
        4,
    ),
];

/// Two vCPUs may have one virtual INTID.
const APART: &str =
    r#"{"vcpus":2,"lrs":1,"links":[{"phys":32,"vid":32,"vcpu":0,"prio":0},{"phys":33,"vid":32,"vcpu":1,"prio":0}],"steps":[]}"#;

/// The fault of a text, or none.
fn fault_of(alloc: Global, text: &str) -> Result<Option<Fault>, Fail> {
    let value = Value::from_str(alloc, text)?;
    match read_host(alloc, &value) {
        Ok(_) => Ok(None),
        Err(ReadRefusal::Bad(fault)) => Ok(Some(fault)),
        Err(refusal) => Err(refusal)?,
    }
}

#[test]
fn steps_have_their_faults(rt: HostRuntime) -> Result<(), Fail> {
    for (steps, want) in STEPS {
        let text = format!(in rt.alloc(); "{BEFORE}{steps}{AFTER}")?;
        let want = want.map(|(code, step)| Fault { code, step });
        assert_eq!(rt; fault_of(rt.alloc(), &text)?, want, "at {text}");
    }
    Ok(())
}

#[test]
fn wholes_have_their_faults(rt: HostRuntime) -> Result<(), Fail> {
    for (text, code) in WHOLES {
        let want = Some(Fault { code, step: 0 });
        assert_eq!(rt; fault_of(rt.alloc(), text)?, want, "at {text}");
    }
    assert_eq!(rt; fault_of(rt.alloc(), APART)?, None);
    Ok(())
}
