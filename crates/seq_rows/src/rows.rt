//! Worked scenarios, by both runs.

use crate::compare::both_texts;
use gic_top::{Mode, read};
use serde_json::Value;
use std::test::Fail;

/// A scenario as JSON, and its text.
#[derive(Clone, Copy)]
struct Row {
    scenario: &'static str,
    text: &'static str,
}

const ROWS: [Row; 2] = [
    Row {
        scenario: r#"{"pes":2,"guests":[{"vcpus":2,"on":true,"irqs":[{"id":40},{"id":41},{"id":42,"prio":32}]}],"steps":[{"dev":[0,0],"message":40},{"vcpu":[0,0],"icc":"IAR1"},{"vcpu":[0,1],"gicd":"0x6140","size":8,"write":1},{"vcpu":[0,0],"icc":"EOIR1","write":40},{"dev":[0,0],"message":40},{"vcpu":[0,1],"icc":"IAR1"}]}"#,
        text: "2 0x0000000000000028\n6 0x0000000000000028\ncpu 0 1 vmcr=0xf04c000a ap0=0x00000000 ap1=0x00100000 lpis=0\nirq 0 40 en=1 grp=1 prio=0xa0 cfg=edge line=0 rise=0 soft=0 act=1 to=1\nend 6 2\n",
    },
    Row {
        scenario: r#"{"pes":2,"guests":[{"vcpus":2,"on":true,"irqs":[{"id":40},{"id":41},{"id":42,"prio":32}]}],"steps":[{"dev":[0,0],"message":40},{"vcpu":[0,0],"icc":"IAR1"},{"vcpu":[0,1],"gicd":"0x6140","size":8,"write":1},{"vcpu":[0,0],"icc":"EOIR1","write":40},{"dev":[0,0],"message":40},{"vcpu":[0,1],"icc":"IAR1"},{"pe":1,"lrs":true}]}"#,
        text: "2 0x0000000000000028\n6 0x0000000000000028\n7 lrs 0x0000000000000091 0x90a0000000000028 0x0000000000000000 0x0000000000000000 0x0000000000000000\ncpu 0 1 vmcr=0xf04c000a ap0=0x00000000 ap1=0x00100000 lpis=0\nirq 0 40 en=1 grp=1 prio=0xa0 cfg=edge line=0 rise=0 soft=0 act=1 to=1\nend 7 2\n",
    },
];

#[test]
fn worked_rows(rt: HostRuntime) -> Result<(), Fail> {
    for row in ROWS {
        let value = Value::from_str(rt.alloc(), row.scenario)?;
        let scenario = match read(rt.alloc(), &value, Mode::Schedule) {
            Ok(scenario) => scenario,
            Err(_) => return Err(Fail::from("not read")),
        };
        let texts = both_texts(&rt, rt.alloc(), &scenario)?;
        assert_eq!(rt; str::from_utf8(texts.ideal.as_slice())?, row.text);
        assert_eq!(rt; str::from_utf8(texts.scheduled.as_slice())?, row.text);
        assert_eq!(rt; texts.shown, 1);
    }
    Ok(())
}
