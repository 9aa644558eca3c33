//! The distributor and the redistributors, by their registers.

use crate::interface::{ACTIVE_40, BASE, CPU_A0};
use crate::{Row, gicr, icc, mem, message, wire};

/// Two vCPUs, each on a PE, with 40 and 41 at priority 0xA0 and 42 at 0x20.
const TWO_VCPUS: &str =
    r#""pes":2,"guests":[{"vcpus":2,"on":true,"irqs":[{"id":40},{"id":41},{"id":42,"prio":32}]}]"#;

/// Two vCPUs, LPIs and memory.
const WITH_LPIS: &str = r#""pes":2,"guests":[{"vcpus":2,"lpis":16,"ram":65536,"on":true}]"#;

/// An SPI of group 1 that is as a guest opens but for its group.
macro_rules! grouped {
    ($id:literal) => {
        concat!(
            "irq 0 ",
            $id,
            " en=0 grp=1 prio=0x00 cfg=level line=0 rise=0 soft=0 act=- to=0"
        )
    };
}

/// An SPI of group 1 and priority 0xA0 that is else as a guest opens.
macro_rules! grouped_at_a0 {
    ($id:literal) => {
        concat!(
            "irq 0 ",
            $id,
            " en=0 grp=1 prio=0xa0 cfg=level line=0 rise=0 soft=0 act=- to=0"
        )
    };
}

/// Registers that change interrupts.
#[rattlefmt::skip]
pub const PARTS: [Row; 14] = [
    Row {
        shows: "another vCPU clears what is pending", before: TWO_VCPUS,
        steps: &[&[message!(40), mem!(1, "gicd", 0x284, 4, 0x100), icc!(0, "IAR1")]],
        lines: &["3 0x00000000000003ff", "end 3 1"],
    },
    Row {
        shows: "ISPENDR tells what is pending, and ICPENDR clears it", before: BASE,
        steps: &[
            &[
                message!(40), mem!(0, "gicd", 0x204, 4), mem!(0, "gicd", 0x284, 4, 0x100),
                mem!(0, "gicd", 0x204, 4), icc!(0, "IAR1"),
            ],
        ],
        lines: &["2 0x0000000000000100", "4 0x0000000000000000", "5 0x00000000000003ff", "end 5 3"],
    },
    Row {
        shows: "an interrupt that ISACTIVER made active waits for ICACTIVER", before: BASE,
        steps: &[
            &[
                mem!(0, "gicd", 0x304, 4, 0x100), message!(40), icc!(0, "IAR1"), mem!(0, "gicd", 0x384, 4, 0x100),
                icc!(0, "IAR1"),
            ],
        ],
        lines: &["3 0x00000000000003ff", "5 0x0000000000000028", CPU_A0, ACTIVE_40, "end 5 2"],
    },
    Row {
        shows: "an interrupt that is disabled while it is active and pending", before: BASE,
        steps: &[
            &[
                message!(40), icc!(0, "IAR1"), message!(40), mem!(0, "gicd", 0x184, 4, 0x100), icc!(0, "EOIR1", 40),
                icc!(0, "IAR1"),
            ],
        ],
        lines: &[
            "2 0x0000000000000028", "6 0x00000000000003ff",
            "irq 0 40 en=0 grp=1 prio=0xa0 cfg=edge line=0 rise=0 soft=1 act=- to=0", "end 6 2",
        ],
    },
    Row {
        shows: "IROUTER moves a pending interrupt to another vCPU", before: TWO_VCPUS,
        steps: &[&[message!(40), mem!(1, "gicd", 0x6140, 8, 1), icc!(0, "IAR1"), icc!(1, "IAR1")]],
        lines: &[
            "3 0x00000000000003ff", "4 0x0000000000000028",
            "cpu 0 1 vmcr=0xf04c000a ap0=0x00000000 ap1=0x00100000 lpis=0",
            "irq 0 40 en=1 grp=1 prio=0xa0 cfg=edge line=0 rise=0 soft=0 act=1 to=1", "end 4 2",
        ],
    },
    Row {
        shows: "SETSPI_NSR at size 2", before: BASE,
        steps: &[&[mem!(0, "gicd", 0x40, 2, 40), icc!(0, "IAR1")]],
        lines: &["2 0x0000000000000028", CPU_A0, ACTIVE_40, "end 2 1"],
    },
    Row {
        shows: "ICPENDR leaves pending what a wire holds up",
        before: r#""guests":[{"on":true,"irqs":[{"id":40,"edge":false}]}]"#,
        steps: &[&[wire!(40, true), mem!(0, "gicd", 0x284, 4, 0x100), mem!(0, "gicd", 0x204, 4), icc!(0, "IAR1")]],
        lines: &[
            "3 0x0000000000000100", "4 0x0000000000000028", CPU_A0,
            "irq 0 40 en=1 grp=1 prio=0xa0 cfg=level line=1 rise=0 soft=0 act=0 to=0", "end 4 2",
        ],
    },
    Row {
        shows: "CLRSPI_NSR clears both causes of an edge-triggered interrupt", before: BASE,
        steps: &[
            &[
                wire!(40, true), message!(40), mem!(0, "gicd", 0x48, 4, 40), mem!(0, "gicd", 0x204, 4),
                icc!(0, "IAR1"),
            ],
        ],
        lines: &[
            "4 0x0000000000000000", "5 0x00000000000003ff",
            "irq 0 40 en=1 grp=1 prio=0xa0 cfg=edge line=1 rise=0 soft=0 act=- to=0", "end 5 2",
        ],
    },
    Row {
        shows: "a group that GICD_CTLR disables is not forwarded", before: BASE,
        steps: &[
            &[
                message!(40), mem!(0, "gicd", 0x0, 4, 1), icc!(0, "IAR1"), icc!(0, "HPPIR1"),
                mem!(0, "gicd", 0x0, 4, 3), icc!(0, "IAR1"),
            ],
        ],
        lines: &[
            "3 0x00000000000003ff", "4 0x00000000000003ff", "6 0x0000000000000028", CPU_A0, ACTIVE_40, "end 6 3",
        ],
    },
    Row {
        shows: "IPRIORITYR takes a byte, and keeps five bits of it", before: BASE,
        steps: &[
            &[
                mem!(0, "gicd", 0x428, 1, 0x47), mem!(0, "gicd", 0x428, 4), message!(40), message!(42),
                icc!(0, "IAR1"),
            ],
        ],
        lines: &[
            "2 0x000000000020a040", "5 0x000000000000002a",
            "cpu 0 0 vmcr=0xf04c000a ap0=0x00000000 ap1=0x00000010 lpis=0",
            "irq 0 40 en=1 grp=1 prio=0x40 cfg=edge line=0 rise=0 soft=1 act=- to=0",
            "irq 0 42 en=1 grp=1 prio=0x20 cfg=edge line=0 rise=0 soft=0 act=0 to=0", "end 5 2",
        ],
    },
    Row {
        shows: "an interrupt that ICFGR makes level-sensitive follows its wire", before: BASE,
        steps: &[
            &[
                wire!(40, true), mem!(0, "gicd", 0xC08, 4, 0), mem!(0, "gicd", 0xC08, 4), icc!(0, "IAR1"),
                icc!(0, "EOIR1", 40), icc!(0, "IAR1"),
            ],
        ],
        lines: &[
            "3 0x0000000000000000", "4 0x0000000000000028", "6 0x0000000000000028", CPU_A0,
            "irq 0 40 en=1 grp=1 prio=0xa0 cfg=level line=1 rise=0 soft=0 act=0 to=0",
            "irq 0 41 en=1 grp=1 prio=0xa0 cfg=level line=0 rise=0 soft=0 act=- to=0",
            "irq 0 42 en=1 grp=1 prio=0x20 cfg=level line=0 rise=0 soft=0 act=- to=0", "end 6 3",
        ],
    },
    Row {
        shows: "an affinity without a vCPU: no target, so nobody reads it and ISACTIVER is ignored",
        before: TWO_VCPUS,
        steps: &[
            &[
                mem!(0, "gicd", 0x6140, 8, 7), message!(40), icc!(0, "IAR1"), icc!(1, "IAR1"),
                mem!(0, "gicd", 0x6140, 8), mem!(0, "gicd", 0x304, 4, 0x100), mem!(0, "gicd", 0x304, 4),
            ],
        ],
        lines: &[
            "3 0x00000000000003ff", "4 0x00000000000003ff", "5 0x0000000000000007", "7 0x0000000000000000",
            "irq 0 40 en=1 grp=1 prio=0xa0 cfg=edge line=0 rise=0 soft=1 act=- to=-", "end 7 4",
        ],
    },
    Row {
        shows: "a half of IROUTER leaves the other", before: TWO_VCPUS,
        steps: &[
            &[
                mem!(0, "gicd", 0x6140, 4, 1), mem!(0, "gicd", 0x6144, 4), mem!(0, "gicd", 0x6140, 8),
                mem!(0, "gicd", 0x6144, 4, 1), mem!(0, "gicd", 0x6140, 8),
            ],
        ],
        lines: &[
            "2 0x0000000000000000", "3 0x0000000000000001", "5 0x0000000100000001",
            "irq 0 40 en=1 grp=1 prio=0xa0 cfg=edge line=0 rise=0 soft=0 act=- to=-", "end 5 3",
        ],
    },
    Row {
        shows: "the private interrupts of another vCPU by its redistributor",
        before: r#""pes":2,"guests":[{"vcpus":2,"on":true}]"#,
        steps: &[
            &[
                gicr!(1, 0x10080, 4, 0x08000020), gicr!(1, 0x10100, 4, 0x08000020), gicr!(1, 0x10200, 4, 0x20),
                icc!(1, "IAR1"), gicr!(1, 0x10300, 4), gicr!(1, 0x10C00, 4), gicr!(1, 0x10C04, 4),
            ],
        ],
        lines: &[
            "4 0x0000000000000005", "5 0x0000000000000020", "6 0x00000000aaaaaaaa", "7 0x0000000000000000",
            "cpu 0 1 vmcr=0xf04c000a ap0=0x00000000 ap1=0x00000001 lpis=0",
            "irq 0 v1:5 en=1 grp=1 prio=0x00 cfg=edge line=0 rise=0 soft=0 act=1 to=1",
            "irq 0 v1:27 en=1 grp=1 prio=0x00 cfg=level line=0 rise=0 soft=0 act=- to=1", "end 7 4",
        ],
    },
];

/// Registers that tell what the controller is.
#[rattlefmt::skip]
pub const VALUES: [Row; 4] = [
    Row {
        shows: "an access that no register takes reads 0", before: BASE,
        steps: &[&[mem!(0, "gicd", 0x2, 4), mem!(0, "gicd", 0x428, 8), mem!(0, "gicd", 0x100, 1)]],
        lines: &["1 0x0000000000000000", "2 0x0000000000000000", "3 0x0000000000000000", "end 3 3"],
    },
    Row {
        shows: "what the redistributor and the ITS are", before: WITH_LPIS,
        steps: &[&[gicr!(1, 0x8, 8), mem!(0, "gits", 0x8, 8)]],
        lines: &["1 0x0000000100000111", "2 0x000000000001ef71", "end 2 2"],
    },
    Row {
        shows: "the redistributor of vCPU 17 of 20",
        before: r#""pes":8,"guests":[{"vcpus":20,"on":true,"irqs":[{"id":5,"vcpu":17}]}]"#,
        steps: &[&[gicr!(17, 0x8, 8)]],
        lines: &["1 0x0000001100001100", "end 1 1"],
    },
    Row {
        shows: "all extended SPIs", before: r#""guests":[{"espis":1024}]"#,
        steps: &[&[mem!(0, "gicd", 0x4, 4)]],
        lines: &["1 0x00000000fe690101", "end 1 1"],
    },
];

/// Extended SPIs.
#[rattlefmt::skip]
pub const EXTENDED_SPIS: [Row; 2] = [
    Row {
        shows: "an SPI comes before an extended one",
        before: r#""guests":[{"espis":32,"on":true,"irqs":[{"id":40},{"id":4100}]}]"#,
        steps: &[
            &[
                message!(4100), message!(40), icc!(0, "IAR1"), icc!(0, "EOIR1", 40), icc!(0, "IAR1"),
                mem!(0, "gicd", 0x4, 4),
            ],
        ],
        lines: &[
            "3 0x0000000000000028", "5 0x0000000000001004", "6 0x0000000006690101", CPU_A0,
            "irq 0 4100 en=1 grp=1 prio=0xa0 cfg=edge line=0 rise=0 soft=0 act=0 to=0", "end 6 3",
        ],
    },
    Row {
        shows: "IROUTER of an extended SPI",
        before: r#""pes":2,"guests":[{"vcpus":2,"espis":32,"on":true,"irqs":[{"id":4100}]}]"#,
        steps: &[&[message!(4100), mem!(0, "gicd", 0x8020, 8, 1), icc!(0, "IAR1"), icc!(1, "IAR1")]],
        lines: &[
            "3 0x00000000000003ff", "4 0x0000000000001004",
            "cpu 0 1 vmcr=0xf04c000a ap0=0x00000000 ap1=0x00100000 lpis=0",
            "irq 0 4100 en=1 grp=1 prio=0xa0 cfg=edge line=0 rise=0 soft=0 act=1 to=1", "end 4 2",
        ],
    },
];

/// A driver's start, and its first interrupt.
/// A guest that starts with everything off.
#[rattlefmt::skip]
pub const START: [Row; 1] = [
    Row {
        shows: "a driver starts a controller that opens off", before: r#""guests":[{}]"#,
        steps: &[
            &[
                mem!(0, "gicd", 0x0, 4, 0), mem!(0, "gicd", 0x84, 4, 0xFFFFFFFF),
                mem!(0, "gicd", 0x428, 4, 0xA0A0A0A0), mem!(0, "gicd", 0x384, 4, 0xFFFFFFFF),
                mem!(0, "gicd", 0x184, 4, 0xFFFFFFFF), mem!(0, "gicd", 0x0, 4, 0x13), mem!(0, "gicd", 0x0, 4),
                mem!(0, "gicd", 0x6140, 8, 0),
            ],
            &[
                icc!(0, "SRE"), icc!(0, "PMR", 0xF0), icc!(0, "BPR1", 0), icc!(0, "BPR1"), icc!(0, "CTLR", 0),
                icc!(0, "IGRPEN1", 1),
            ],
            &[
                mem!(0, "gicd", 0xC08, 4, 0x20000), mem!(0, "gicd", 0x104, 4, 0x100), mem!(0, "gicd", 0x4, 4),
                message!(40), icc!(0, "IAR1"),
            ],
        ],
        lines: &[
            "7 0x0000000000000053", "9 0x0000000000000007", "12 0x0000000000000003", "17 0x0000000006690001",
            "19 0x0000000000000028", "gicd 0 ctlr=0x00000053", CPU_A0, grouped!(32), grouped!(33), grouped!(34),
            grouped!(35), grouped!(36), grouped!(37), grouped!(38), grouped!(39), ACTIVE_40, grouped_at_a0!(41),
            grouped_at_a0!(42), grouped_at_a0!(43), grouped!(44), grouped!(45), grouped!(46), grouped!(47),
            grouped!(48), grouped!(49), grouped!(50), grouped!(51), grouped!(52), grouped!(53), grouped!(54),
            grouped!(55), grouped!(56), grouped!(57), grouped!(58), grouped!(59), grouped!(60), grouped!(61),
            grouped!(62), grouped!(63), "end 19 5",
        ],
    },
];
