//! The first example, whose device and vCPU run side by side.

use crate::call::call;
use gic_top::{OK, OpenGate, Shown};
use std::test::Fail;

/// A message of SPI 40, and a vCPU that acknowledges, ends 40, and acknowledges again.
const FIRST: &str =
    r#"{"pes":1,"lrs":4,"guests":[{"vcpus":1,"spis":32,"on":true,"irqs":[{"id":40}]}],"steps":[{"dev":[0,0],"message":40},{"vcpu":[0,0],"icc":"IAR1"},{"vcpu":[0,0],"icc":"EOIR1","write":40},{"vcpu":[0,0],"icc":"IAR1"}]}"#;

/// The message comes before the first acknowledge, between both, or after both.
const TEXTS: [&str; 3] = [
    "2 0x0000000000000028\n4 0x00000000000003ff\nend 4 2\n",
    "2 0x00000000000003ff\n4 0x0000000000000028\ncpu 0 0 vmcr=0xf04c000a ap0=0x00000000 ap1=0x00100000 lpis=0\nirq 0 40 en=1 grp=1 prio=0xa0 cfg=edge line=0 rise=0 soft=0 act=0 to=0\nend 4 2\n",
    "2 0x00000000000003ff\n4 0x00000000000003ff\nirq 0 40 en=1 grp=1 prio=0xa0 cfg=edge line=0 rise=0 soft=1 act=- to=0\nend 4 2\n",
];

/// How often it is run.
const RUNS: u32 = 300;

#[test]
fn a_message_comes_when_it_comes(rt: HostRuntime) -> Result<(), Fail> {
    for _ in 0..RUNS {
        let told = call(&rt, rt.alloc(), &["threads", "1", "1"], FIRST, &OpenGate)?;
        assert_eq!(rt; told.status, OK);
        assert!(rt; TEXTS.contains(&told.text.as_str()), "{}", told.text);
        assert_eq!(rt;
            told.shown,
            Shown {
                scheduled: 0,
                threaded: 1
            }
        );
    }
    Ok(())
}
