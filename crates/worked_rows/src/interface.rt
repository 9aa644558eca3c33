//! One vCPU on one PE: acknowledge and end, priorities, groups, wires, list registers.

use crate::steps::LRS;
use crate::{Row, icc, message, wire};

/// A guest of one vCPU with 40 and 41 at priority 0xA0 and 42 at 0x20.
pub const BASE: &str = r#""guests":[{"on":true,"irqs":[{"id":40},{"id":41},{"id":42,"prio":32}]}]"#;

/// The guest of `BASE` on a PE with one list register.
pub const ONE_LR: &str =
    r#""lrs":1,"guests":[{"on":true,"irqs":[{"id":40},{"id":41},{"id":42,"prio":32}]}]"#;

/// The guest of `BASE` on a PE with two list registers.
pub const TWO_LRS: &str =
    r#""lrs":2,"guests":[{"on":true,"irqs":[{"id":40},{"id":41},{"id":42,"prio":32}]}]"#;

/// The guest of `BASE` with 40 level-sensitive.
pub const LEVEL: &str =
    r#""guests":[{"on":true,"irqs":[{"id":40,"edge":false},{"id":41},{"id":42,"prio":32}]}]"#;

/// A guest with interrupt 40 alone, each number written out.
pub const FIRST: &str =
    r#""pes":1,"lrs":4,"guests":[{"vcpus":1,"spis":32,"on":true,"irqs":[{"id":40}]}]"#;

/// The vCPU with the level of priority 0xA0 active.
pub const CPU_A0: &str = "cpu 0 0 vmcr=0xf04c000a ap0=0x00000000 ap1=0x00100000 lpis=0";

const PENDING_40: &str = "irq 0 40 en=1 grp=1 prio=0xa0 cfg=edge line=0 rise=0 soft=1 act=- to=0";

/// Interrupt 40 active by vCPU 0.
pub const ACTIVE_40: &str =
    "irq 0 40 en=1 grp=1 prio=0xa0 cfg=edge line=0 rise=0 soft=0 act=0 to=0";

const PENDING_41: &str = "irq 0 41 en=1 grp=1 prio=0xa0 cfg=edge line=0 rise=0 soft=1 act=- to=0";

/// Acknowledges and ends of interrupts.
#[rattlefmt::skip]
pub const ACKNOWLEDGES: [Row; 9] = [
    Row {
        shows: "an interrupt is acknowledged and ended, once", before: FIRST,
        steps: &[&[message!(40), icc!(0, "IAR1"), icc!(0, "EOIR1", 40), icc!(0, "IAR1")]],
        lines: &["2 0x0000000000000028", "4 0x00000000000003ff", "end 4 2"],
    },
    Row {
        shows: "no steps", before: FIRST,
        steps: &[],
        lines: &["end 0 0"],
    },
    Row {
        shows: "two messages before an acknowledge are one interrupt", before: BASE,
        steps: &[&[message!(40), message!(40), icc!(0, "IAR1"), icc!(0, "EOIR1", 40), icc!(0, "IAR1")]],
        lines: &["3 0x0000000000000028", "5 0x00000000000003ff", "end 5 2"],
    },
    Row {
        shows: "two interrupts and one list register", before: ONE_LR,
        steps: &[&[message!(40), message!(41), icc!(0, "IAR1"), icc!(0, "EOIR1", 40), icc!(0, "IAR1")]],
        lines: &[
            "3 0x0000000000000028", "5 0x0000000000000029", CPU_A0,
            "irq 0 41 en=1 grp=1 prio=0xa0 cfg=edge line=0 rise=0 soft=0 act=0 to=0", "end 5 2",
        ],
    },
    Row {
        shows: "an interrupt that is not enabled stays pending", before: FIRST,
        steps: &[&[message!(33), icc!(0, "IAR1")]],
        lines: &[
            "2 0x00000000000003ff", "irq 0 33 en=0 grp=0 prio=0x00 cfg=level line=0 rise=0 soft=1 act=- to=0",
            "end 2 1",
        ],
    },
    Row {
        shows: "of two presets of one interrupt the later counts",
        before: r#""guests":[{"on":true,"irqs":[{"id":40},{"id":40,"prio":16}]}]"#,
        steps: &[&[message!(40), icc!(0, "IAR1"), icc!(0, "RPR")]],
        lines: &[
            "2 0x0000000000000028", "3 0x0000000000000010",
            "cpu 0 0 vmcr=0xf04c000a ap0=0x00000000 ap1=0x00000004 lpis=0",
            "irq 0 40 en=1 grp=1 prio=0x10 cfg=edge line=0 rise=0 soft=0 act=0 to=0", "end 3 2",
        ],
    },
    Row {
        shows: "the greatest SPI", before: r#""guests":[{"on":true,"spis":960,"irqs":[{"id":991}]}]"#,
        steps: &[&[message!(991), icc!(0, "IAR1")]],
        lines: &[
            "2 0x00000000000003df", CPU_A0,
            "irq 0 991 en=1 grp=1 prio=0xa0 cfg=edge line=0 rise=0 soft=0 act=0 to=0", "end 2 1",
        ],
    },
    Row {
        shows: "an end of interrupt in two steps", before: BASE,
        steps: &[
            &[
                icc!(0, "CTLR", 2), icc!(0, "CTLR"), message!(40), icc!(0, "IAR1"), icc!(0, "EOIR1", 40),
                icc!(0, "RPR"), message!(40), icc!(0, "IAR1"), icc!(0, "DIR", 40), icc!(0, "IAR1"),
            ],
        ],
        lines: &[
            "2 0x00000000000c0402", "4 0x0000000000000028", "6 0x00000000000000ff", "8 0x00000000000003ff",
            "10 0x0000000000000028", "cpu 0 0 vmcr=0xf04c020a ap0=0x00000000 ap1=0x00100000 lpis=0", ACTIVE_40,
            "end 10 5",
        ],
    },
    Row {
        shows: "a vCPU that opens off", before: r#""guests":[{}]"#,
        steps: &[&[icc!(0, "SRE"), icc!(0, "BPR1", 0), icc!(0, "BPR1"), icc!(0, "CTLR", 0), icc!(0, "IGRPEN1", 1)]],
        lines: &[
            "1 0x0000000000000007", "3 0x0000000000000003",
            "cpu 0 0 vmcr=0x004c000a ap0=0x00000000 ap1=0x00000000 lpis=0", "end 5 2",
        ],
    },
];

/// Priorities, binary points and groups.
#[rattlefmt::skip]
pub const PRIORITIES: [Row; 6] = [
    Row {
        shows: "a mask at the priority holds an interrupt back, and HPPIR tells it all the same", before: BASE,
        steps: &[
            &[
                icc!(0, "PMR", 0xA0), message!(40), icc!(0, "IAR1"), icc!(0, "HPPIR1"), icc!(0, "PMR", 0xA8),
                icc!(0, "IAR1"),
            ],
        ],
        lines: &[
            "3 0x00000000000003ff", "4 0x0000000000000028", "6 0x0000000000000028",
            "cpu 0 0 vmcr=0xa84c000a ap0=0x00000000 ap1=0x00100000 lpis=0", ACTIVE_40, "end 6 3",
        ],
    },
    Row {
        shows: "the mask keeps five bits", before: BASE,
        steps: &[&[icc!(0, "PMR", 0xFF), icc!(0, "PMR")]],
        lines: &["2 0x00000000000000f8", "cpu 0 0 vmcr=0xf84c000a ap0=0x00000000 ap1=0x00000000 lpis=0", "end 2 1"],
    },
    Row {
        shows: "a more urgent interrupt preempts", before: BASE,
        steps: &[
            &[
                message!(40), icc!(0, "IAR1"), message!(42), icc!(0, "IAR1"), icc!(0, "RPR"), icc!(0, "EOIR1", 42),
                icc!(0, "RPR"),
            ],
        ],
        lines: &[
            "2 0x0000000000000028", "4 0x000000000000002a", "5 0x0000000000000020", "7 0x00000000000000a0", CPU_A0,
            ACTIVE_40, "end 7 4",
        ],
    },
    Row {
        shows: "a binary point keeps two interrupts from preempting each other",
        before: r#""guests":[{"on":true,"irqs":[{"id":40},{"id":43,"prio":136}]}]"#,
        steps: &[
            &[
                icc!(0, "BPR1", 6), message!(40), icc!(0, "IAR1"), icc!(0, "RPR"), message!(43), icc!(0, "IAR1"),
                icc!(0, "HPPIR1"),
            ],
        ],
        lines: &[
            "3 0x0000000000000028", "4 0x0000000000000080", "6 0x00000000000003ff", "7 0x000000000000002b",
            "cpu 0 0 vmcr=0xf058000a ap0=0x00000000 ap1=0x00010000 lpis=0", ACTIVE_40,
            "irq 0 43 en=1 grp=1 prio=0x88 cfg=edge line=0 rise=0 soft=1 act=- to=0", "end 7 4",
        ],
    },
    Row {
        shows: "with CBPR the binary point of group 1 is that of group 0 and one more, 7 at most", before: BASE,
        steps: &[
            &[
                icc!(0, "CTLR", 1), icc!(0, "BPR1"), icc!(0, "BPR0", 7), icc!(0, "BPR1"), icc!(0, "BPR0", 0),
                icc!(0, "BPR0"),
            ],
        ],
        lines: &[
            "2 0x0000000000000003", "4 0x0000000000000007", "6 0x0000000000000002",
            "cpu 0 0 vmcr=0xf04c001a ap0=0x00000000 ap1=0x00000000 lpis=0", "end 6 3",
        ],
    },
    Row {
        shows: "an interrupt of group 0 goes by the registers of group 0",
        before: r#""guests":[{"on":true,"irqs":[{"id":40,"group":0}]}]"#,
        steps: &[
            &[
                icc!(0, "IGRPEN0", 1), message!(40), icc!(0, "IAR1"), icc!(0, "HPPIR1"), icc!(0, "HPPIR0"),
                icc!(0, "IAR0"), icc!(0, "AP0R0"), icc!(0, "EOIR1", 40), icc!(0, "RPR"), icc!(0, "EOIR0", 40),
                icc!(0, "RPR"),
            ],
        ],
        lines: &[
            "3 0x00000000000003ff", "4 0x00000000000003ff", "5 0x0000000000000028", "6 0x0000000000000028",
            "7 0x0000000000100000", "9 0x00000000000000a0", "11 0x00000000000000ff",
            "cpu 0 0 vmcr=0xf04c000b ap0=0x00000000 ap1=0x00000000 lpis=0", "end 11 7",
        ],
    },
];

/// What the list registers of a PE show, where all fits and where not.
#[rattlefmt::skip]
pub const LIST_REGISTERS: [Row; 7] = [
    Row {
        shows: "sixteen list registers", before: r#""lrs":16,"guests":[{}]"#,
        steps: &[],
        lines: &["end 0 0"],
    },
    Row {
        shows: "a pending interrupt in a list register", before: ONE_LR,
        steps: &[&[message!(40), LRS]],
        lines: &["2 lrs 0x0000000000000091 0x50a0000000000028", PENDING_40, "end 2 0"],
    },
    Row {
        shows: "a cut: one of two stands in the only list register", before: ONE_LR,
        steps: &[&[message!(40), message!(41), LRS]],
        lines: &["3 lrs 0x0000000000000099 0x50a0000000000028", PENDING_40, PENDING_41, "end 3 0"],
    },
    Row {
        shows: "trap mode: an active interrupt and a pending one are more than one list register", before: ONE_LR,
        steps: &[
            &[
                message!(40), icc!(0, "IAR1"), message!(42), LRS, icc!(0, "IAR1"), icc!(0, "RPR"),
                icc!(0, "EOIR1", 42), icc!(0, "RPR"),
            ],
        ],
        lines: &[
            "2 0x0000000000000028", "4 lrs 0x0000000000005c91 0x0000000000000000", "5 0x000000000000002a",
            "6 0x0000000000000020", "8 0x00000000000000a0", CPU_A0, ACTIVE_40, "end 8 4",
        ],
    },
    Row {
        shows: "an active interrupt that is pending again", before: ONE_LR,
        steps: &[
            &[
                message!(40), icc!(0, "IAR1"), message!(40), LRS, icc!(0, "IAR1"), icc!(0, "EOIR1", 40),
                icc!(0, "IAR1"),
            ],
        ],
        lines: &[
            "2 0x0000000000000028", "4 lrs 0x0000000000000091 0xd0a0000000000028", "5 0x00000000000003ff",
            "7 0x0000000000000028", CPU_A0, ACTIVE_40, "end 7 3",
        ],
    },
    Row {
        shows: "a cut beside an active interrupt that is pending again", before: TWO_LRS,
        steps: &[&[message!(40), icc!(0, "IAR1"), message!(40), message!(41), message!(42), LRS]],
        lines: &[
            "2 0x0000000000000028", "6 lrs 0x0000000000000099 0x90a0020000000028 0x502000000000002a", CPU_A0,
            "irq 0 40 en=1 grp=1 prio=0xa0 cfg=edge line=0 rise=0 soft=1 act=0 to=0", PENDING_41,
            "irq 0 42 en=1 grp=1 prio=0x20 cfg=edge line=0 rise=0 soft=1 act=- to=0", "end 6 1",
        ],
    },
    Row {
        shows: "a level-sensitive interrupt asks for its end to be seen",
        before: r#""lrs":1,"guests":[{"on":true,"irqs":[{"id":40,"edge":false}]}]"#,
        steps: &[&[wire!(40, true), LRS]],
        lines: &[
            "2 lrs 0x0000000000000091 0x50a0020000000028",
            "irq 0 40 en=1 grp=1 prio=0xa0 cfg=level line=1 rise=1 soft=0 act=- to=0", "end 2 0",
        ],
    },
];

/// Wires of level-sensitive interrupts.
#[rattlefmt::skip]
pub const WIRES: [Row; 2] = [
    Row {
        shows: "a level that stays up is pending again after each end of interrupt", before: LEVEL,
        steps: &[
            &[
                wire!(40, true), icc!(0, "IAR1"), icc!(0, "EOIR1", 40), icc!(0, "IAR1"), icc!(0, "EOIR1", 40),
                wire!(40, false), icc!(0, "IAR1"),
            ],
        ],
        lines: &["2 0x0000000000000028", "4 0x0000000000000028", "7 0x00000000000003ff", "end 7 3"],
    },
    Row {
        shows: "the wire of a PPI", before: r#""guests":[{"on":true,"irqs":[{"id":27,"vcpu":0,"edge":false}]}]"#,
        steps: &[&[wire!(27, true, 0), icc!(0, "IAR1")]],
        lines: &[
            "2 0x000000000000001b", CPU_A0,
            "irq 0 v0:27 en=1 grp=1 prio=0xa0 cfg=level line=1 rise=0 soft=0 act=0 to=0", "end 2 1",
        ],
    },
];
