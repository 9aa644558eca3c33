//! One scenario on each number of PEs: an SPI that is routed to another vCPU, SGIs, wires, and an LPI with its tables.

use crate::call::call;
use crate::input::{SETUP, push_steps};
use crate::lines::{ending, has_line, read_count, same_steps};
use gic_top::{OK, OpenGate};
use std::alloc::{AllocError, Global};
use std::process::Abort;
use std::test::Fail;

/// A vCPU and its register of the CPU interface, and the value where it writes.
macro_rules! icc {
    ($vcpu:literal, $name:literal) => {
        concat!(r#"{"vcpu":[0,"#, $vcpu, r#"],"icc":""#, $name, r#""}"#)
    };
    ($vcpu:literal, $name:literal, $value:literal) => {
        concat!(
            r#"{"vcpu":[0,"#,
            $vcpu,
            r#"],"icc":""#,
            $name,
            r#"","write":"#,
            $value,
            "}"
        )
    };
}

/// Four vCPUs and two devices. SGI 5 is of vCPU 3 alone, and nothing else is for it.
const GUEST: &str =
    r#"{"pes":4,"lrs":2,"guests":[{"vcpus":4,"devices":2,"lpis":16,"ram":65536,"on":true,"irqs":[{"id":1,"vcpu":0},{"id":1,"vcpu":1},{"id":1,"vcpu":2},{"id":5,"vcpu":3},{"id":20,"vcpu":2,"edge":false},{"id":40},{"id":41},{"id":42,"to":1},{"id":43,"to":2},{"id":44,"to":2,"edge":false},{"id":45,"to":1},{"id":46,"to":1}]}],"steps":["#;

/// Messages, wires that go up, and SGIs between the first three vCPUs; vCPU 0 routes SPI 41 to vCPU 1.
const SENT: [&str; 10] = [
    r#"{"dev":[0,0],"message":40}"#,
    r#"{"dev":[0,0],"message":41}"#,
    r#"{"dev":[0,1],"message":45}"#,
    r#"{"dev":[0,1],"msi":[8,3]}"#,
    r#"{"vcpu":[0,0],"gicd":"0x6148","size":8,"write":1}"#,
    icc!(0, "SGI1R", 0x01000004),
    icc!(1, "SGI1R", 0x01000005),
    icc!(2, "SGI1R", 0x01000002),
    r#"{"dev":[0,0],"wire":44,"up":true}"#,
    r#"{"dev":[0,1],"wire":20,"up":true,"vcpu":2}"#,
];

/// vCPU 3 sends itself SGI 5 twice. It reads at the steps 30, 32, 34, 35 and 37.
const ALONE: [&str; 9] = [
    icc!(3, "SGI1R", 0x05000008),
    icc!(3, "IAR1"),
    icc!(3, "EOIR1", 5),
    icc!(3, "IAR1"),
    icc!(3, "SGI1R", 0x05000008),
    icc!(3, "IAR1"),
    icc!(3, "RPR"),
    icc!(3, "EOIR1", 5),
    icc!(3, "RPR"),
];

/// A vCPU acknowledges, and ends whatever that may have been.
const ROUND_OF_0: [&str; 4] = [
    icc!(0, "IAR1"),
    icc!(0, "EOIR1", 1),
    icc!(0, "EOIR1", 40),
    icc!(0, "EOIR1", 41),
];

const ROUND_OF_1: [&str; 7] = [
    icc!(1, "IAR1"),
    icc!(1, "EOIR1", 1),
    icc!(1, "EOIR1", 41),
    icc!(1, "EOIR1", 42),
    icc!(1, "EOIR1", 45),
    icc!(1, "EOIR1", 46),
    icc!(1, "EOIR1", 8195),
];

const ROUND_OF_2: [&str; 5] = [
    icc!(2, "IAR1"),
    icc!(2, "EOIR1", 1),
    icc!(2, "EOIR1", 20),
    icc!(2, "EOIR1", 43),
    icc!(2, "EOIR1", 44),
];

/// More messages, and the wires go down.
const LATER: [&str; 6] = [
    r#"{"dev":[0,0],"wire":44,"up":false}"#,
    r#"{"dev":[0,1],"wire":20,"up":false,"vcpu":2}"#,
    r#"{"dev":[0,0],"message":42}"#,
    r#"{"dev":[0,0],"message":43}"#,
    r#"{"dev":[0,1],"message":46}"#,
    r#"{"dev":[0,1],"msi":[8,3]}"#,
];

/// All steps: 18, 10, 9, twice 16 of a round each, 6, and once more 16.
const PARTS: [&[&str]; 13] = [
    &SETUP,
    &SENT,
    &ALONE,
    &ROUND_OF_0,
    &ROUND_OF_1,
    &ROUND_OF_2,
    &ROUND_OF_0,
    &ROUND_OF_1,
    &ROUND_OF_2,
    &LATER,
    &ROUND_OF_0,
    &ROUND_OF_1,
    &ROUND_OF_2,
];

/// How many values are read: one of the ITS, five by vCPU 3, and three by each other vCPU.
const READS: usize = 15;

/// The last line: 91 steps.
const LAST: &str = "end 91 15\n";

/// Lines that are there whatever the schedule: what vCPU 0 reads of the queue, what vCPU 3 reads, and how the ITS ends.
const FIXED: [&str; 10] = [
    "18 0x0000000000000080\n",
    "\n30 0x0000000000000005\n",
    "\n32 0x00000000000003ff\n",
    "\n34 0x0000000000000005\n",
    "\n35 0x00000000000000a0\n",
    "\n37 0x00000000000000ff\n",
    "\nits 0 ctlr=0x00000001 cbaser=0x8000000000001000 cwriter=0x0000000000000080 creadr=0x0000000000000080 fault=0\n",
    "\ndev 0 8 bits=7\n",
    "\nevt 0 8 3 8195 1\n",
    "\ncol 0 1 1\n",
];

/// The edge-triggered SPIs, each of which has one message: how a line ends where it is acknowledged, and how its line at the end
/// begins.
const SPIS: [(&str, &str); 6] = [
    (" 0x0000000000000028", "irq 0 40 "),
    (" 0x0000000000000029", "irq 0 41 "),
    (" 0x000000000000002a", "irq 0 42 "),
    (" 0x000000000000002b", "irq 0 43 "),
    (" 0x000000000000002d", "irq 0 45 "),
    (" 0x000000000000002e", "irq 0 46 "),
];

/// The line of a value where LPI 8195 is acknowledged. Two messages are for it.
const LPI: &str = " 0x0000000000002003";

/// The numbers of PEs, and how many operations a vCPU does at most while it is on one.
const PES: [&str; 8] = ["1", "2", "3", "4", "5", "6", "7", "8"];

const PER_TURN: [&str; 4] = ["1", "2", "7", "1000"];

/// How often each pair is run.
const RUNS: u32 = 8;

/// The scenario as JSON.
fn input_of(alloc: Global) -> Result<String, AllocError> {
    let mut input = String::from_str(alloc, GUEST)?;
    for part in PARTS {
        push_steps(&mut input, part)?;
    }
    input.push_str("]}")?;
    Ok(input)
}

/// What is there whatever the schedule.
fn check_fixed(rt: &impl Abort, text: &str) {
    for line in FIXED {
        assert!(rt; text.contains(line), "{line}{text}");
    }
    assert!(rt; !has_line(text, "cpu 0 3 ", ""), "{text}");
    assert!(rt; text.ends_with(LAST), "{text}");
    assert_eq!(rt; read_count(text), READS, "{text}");
}

/// A message is acknowledged at most once, and what was not acknowledged is still there.
fn check_kept(rt: &impl Abort, text: &str) {
    for (acknowledged, line) in SPIS {
        let times = ending(text, acknowledged);
        assert!(rt; times <= 1, "{line}{text}");
        assert_eq!(rt;
            has_line(text, line, " soft=1 "),
            times == 0,
            "{line}{text}"
        );
    }
    assert!(rt; ending(text, LPI) <= 2, "{text}");
}

#[test]
fn each_number_of_pes(rt: HostRuntime) -> Result<(), Fail> {
    let input = input_of(rt.alloc())?;
    let in_order = call(&rt, rt.alloc(), &["run"], input.as_str(), &OpenGate)?;
    assert_eq!(rt; in_order.status, OK, "{}", in_order.text);
    check_fixed(&rt, in_order.text.as_str());
    check_kept(&rt, in_order.text.as_str());
    for pes in PES {
        for per_turn in PER_TURN {
            for _ in 0..RUNS {
                let words = ["threads", pes, per_turn];
                let told = call(&rt, rt.alloc(), &words, input.as_str(), &OpenGate)?;
                let (text, other) = (told.text.as_str(), in_order.text.as_str());
                assert_eq!(rt; told.status, OK);
                assert_eq!(rt; told.shown.threaded, 1);
                assert!(rt; same_steps(text, other, READS), "{text}");
                check_fixed(&rt, text);
                check_kept(&rt, text);
            }
        }
    }
    Ok(())
}
