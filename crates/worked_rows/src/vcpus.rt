//! Several vCPUs, PEs and guests: SGIs, entries and exits, ends of interrupts by another vCPU.

use crate::interface::{ACTIVE_40, CPU_A0};
use crate::{Row, enter, exit, icc, message};

/// One vCPU and two PEs, with 40 and 41 at priority 0xA0 and 42 at 0x20.
pub const TWO_PES: &str =
    r#""pes":2,"guests":[{"on":true,"irqs":[{"id":40},{"id":41},{"id":42,"prio":32}]}]"#;

/// Two vCPUs, each on a PE, that listen to SGI 5.
const TALKING: &str =
    r#""pes":2,"guests":[{"vcpus":2,"on":true,"irqs":[{"id":5,"vcpu":0},{"id":5,"vcpu":1}]}]"#;

/// vCPU 1 with the level of priority 0xA0 active.
const CPU_1_A0: &str = "cpu 0 1 vmcr=0xf04c000a ap0=0x00000000 ap1=0x00100000 lpis=0";

/// SGIs.
#[rattlefmt::skip]
pub const SGIS: [Row; 4] = [
    Row {
        shows: "an SGI to the other vCPU", before: TALKING,
        steps: &[&[icc!(0, "SGI1R", 0x05000002), icc!(1, "IAR1"), icc!(0, "IAR1")]],
        lines: &[
            "2 0x0000000000000005", "3 0x00000000000003ff", CPU_1_A0,
            "irq 0 v1:5 en=1 grp=1 prio=0xa0 cfg=edge line=0 rise=0 soft=0 act=1 to=1", "end 3 2",
        ],
    },
    Row {
        shows: "an SGI to the sender itself", before: TALKING,
        steps: &[&[icc!(0, "SGI1R", 0x05000001), icc!(0, "IAR1"), icc!(1, "IAR1")]],
        lines: &[
            "2 0x0000000000000005", "3 0x00000000000003ff", CPU_A0,
            "irq 0 v0:5 en=1 grp=1 prio=0xa0 cfg=edge line=0 rise=0 soft=0 act=0 to=0", "end 3 2",
        ],
    },
    Row {
        shows: "an SGI to all vCPUs but the sender", before: TALKING,
        steps: &[&[icc!(0, "SGI1R", 0x0000010005000000), icc!(1, "IAR1"), icc!(0, "IAR1")]],
        lines: &[
            "2 0x0000000000000005", "3 0x00000000000003ff", CPU_1_A0,
            "irq 0 v1:5 en=1 grp=1 prio=0xa0 cfg=edge line=0 rise=0 soft=0 act=1 to=1", "end 3 2",
        ],
    },
    Row {
        shows: "an SGI to vCPU 17, by the range selector, which enters a PE later",
        before: r#""pes":8,"guests":[{"vcpus":20,"on":true,"irqs":[{"id":5,"vcpu":17}]}]"#,
        steps: &[&[icc!(0, "SGI1R", 0x0000100005000002), exit!(1), enter!(1, 17), icc!(17, "IAR1")]],
        lines: &[
            "4 0x0000000000000005", "cpu 0 17 vmcr=0xf04c000a ap0=0x00000000 ap1=0x00100000 lpis=0",
            "irq 0 v17:5 en=1 grp=1 prio=0xa0 cfg=edge line=0 rise=0 soft=0 act=17 to=17", "end 4 1",
        ],
    },
];

/// vCPUs that enter and leave PEs.
#[rattlefmt::skip]
pub const MOVES: [Row; 5] = [
    Row {
        shows: "a pending interrupt goes with its vCPU to another PE", before: TWO_PES,
        steps: &[&[message!(40), exit!(0), enter!(1, 0), icc!(0, "IAR1")]],
        lines: &["4 0x0000000000000028", CPU_A0, ACTIVE_40, "end 4 1"],
    },
    Row {
        shows: "an active interrupt and the running priority go too", before: TWO_PES,
        steps: &[
            &[
                message!(40), icc!(0, "IAR1"), exit!(0), enter!(1, 0), icc!(0, "RPR"), icc!(0, "EOIR1", 40),
                icc!(0, "RPR"),
            ],
        ],
        lines: &["2 0x0000000000000028", "5 0x00000000000000a0", "7 0x00000000000000ff", "end 7 3"],
    },
    Row {
        shows: "an end of interrupt leaves active what another vCPU has active",
        before: r#""pes":2,"guests":[{"vcpus":2,"on":true,"irqs":[{"id":40},{"id":41,"to":1}]}]"#,
        steps: &[
            &[message!(40), icc!(0, "IAR1"), message!(41), icc!(1, "IAR1"), icc!(1, "EOIR1", 40), icc!(1, "RPR")],
        ],
        lines: &[
            "2 0x0000000000000028", "4 0x0000000000000029", "6 0x00000000000000ff", CPU_A0, ACTIVE_40,
            "irq 0 41 en=1 grp=1 prio=0xa0 cfg=edge line=0 rise=0 soft=0 act=1 to=1", "end 6 3",
        ],
    },
    Row {
        shows: "a PE without a vCPU has list registers of zeros",
        before: r#""pes":2,"lrs":2,"guests":[{"on":true}]"#,
        steps: &[&[r#"{"pe":1,"lrs":true}"#]],
        lines: &["1 lrs 0x0000000000000000 0x0000000000000000 0x0000000000000000", "end 1 0"],
    },
    Row {
        shows: "guests do not see each other's interrupts",
        before: r#""pes":2,"guests":[{"on":true,"irqs":[{"id":40}]},{"on":true,"irqs":[{"id":40}]}]"#,
        steps: &[&[r#"{"dev":[1,0],"message":40}"#, icc!(0, "IAR1"), r#"{"vcpu":[1,0],"icc":"IAR1"}"#]],
        lines: &[
            "2 0x00000000000003ff", "3 0x0000000000000028",
            "cpu 1 0 vmcr=0xf04c000a ap0=0x00000000 ap1=0x00100000 lpis=0",
            "irq 1 40 en=1 grp=1 prio=0xa0 cfg=edge line=0 rise=0 soft=0 act=0 to=0", "end 3 2",
        ],
    },
];
