//! Steps, each after those before it.
use crate::table::{Want, expect_faults};
use scn_read::Mode;
use std::test::Fail;

/// Steps of two vCPUs and one PE.
const ONE_PE: [(&str, Want); 12] = [
    (r#"{"vcpu":[0,0],"icc":"IAR1"}"#, None),
    (r#"{"vcpu":[0,1],"icc":"IAR1"}"#, Some((5, 1))),
    (r#"{"vcpu":[0,1],"gicd":0}"#, Some((5, 1))),
    // Not to be on a PE comes before an address that is too large.
    (r#"{"vcpu":[0,1],"gicd":65536}"#, Some((5, 1))),
    (r#"{"pe":0,"enter":[0,0]}"#, Some((6, 1))),
    (r#"{"pe":0,"enter":[0,1]}"#, Some((6, 1))),
    (r#"{"pe":0,"exit":true},{"pe":0,"exit":true}"#, Some((5, 2))),
    (
        r#"{"pe":0,"exit":true},{"vcpu":[0,0],"icc":"IAR1"}"#,
        Some((5, 2)),
    ),
    (
        r#"{"pe":0,"exit":true},{"pe":0,"lrs":true},{"pe":0,"enter":[0,1]},{"vcpu":[0,1],"icc":"IAR1"}"#,
        None,
    ),
    (
        r#"{"pe":0,"exit":true},{"pe":0,"enter":[0,1]},{"vcpu":[0,0],"icc":"IAR1"}"#,
        Some((5, 3)),
    ),
    (
        r#"{"pe":0,"exit":true},{"pe":0,"enter":[0,1]},{"pe":0,"enter":[0,0]}"#,
        Some((6, 3)),
    ),
    (r#"{"pe":0,"enter":[0,2]}"#, Some((4, 1))),
];
/// Steps of two guests of two vCPUs each, and three PEs: [0,0], [0,1] and [1,0] are on PE 0, 1 and 2.
const THREE_PES: [(&str, Want); 9] = [
    (
        r#"{"vcpu":[0,0],"icc":"IAR1"},{"vcpu":[0,1],"icc":"IAR1"},{"vcpu":[1,0],"icc":"IAR1"}"#,
        None,
    ),
    (r#"{"vcpu":[1,1],"icc":"IAR1"}"#, Some((5, 1))),
    (
        r#"{"pe":1,"exit":true},{"pe":1,"enter":[1,1]},{"vcpu":[1,1],"icc":"IAR1"}"#,
        None,
    ),
    (
        r#"{"pe":1,"exit":true},{"pe":1,"enter":[1,0]}"#,
        Some((6, 2)),
    ),
    (
        r#"{"pe":2,"exit":true},{"pe":0,"exit":true},{"pe":0,"enter":[1,0]},{"pe":2,"enter":[0,0]},{"vcpu":[0,0],"icc":"IAR1"}"#,
        None,
    ),
    (
        r#"{"pe":2,"exit":true},{"vcpu":[1,0],"icc":"IAR1"}"#,
        Some((5, 2)),
    ),
    (r#"{"pe":3,"exit":true}"#, Some((4, 1))),
    (r#"{"pe":3,"enter":[0,0]}"#, Some((4, 1))),
    // The first step with a fault, whatever follows.
    (
        r#"{"vcpu":[0,0],"icc":"IAR1"},{"vcpu":[1,1],"icc":"PMR"},{}"#,
        Some((5, 2)),
    ),
];
/// Moves of wires, by two devices each of two guests.
const WIRES: [(&str, Want); 14] = [
    (r#"{"dev":[0,0],"wire":40,"up":false}"#, Some((8, 1))),
    (
        r#"{"dev":[0,0],"wire":40,"up":true},{"dev":[0,0],"wire":40,"up":true}"#,
        Some((8, 2)),
    ),
    (
        r#"{"dev":[0,0],"wire":40,"up":true},{"dev":[0,0],"wire":40,"up":false},{"dev":[0,0],"wire":40,"up":true}"#,
        None,
    ),
    (
        r#"{"dev":[0,0],"wire":40,"up":true},{"dev":[0,0],"wire":40,"up":false},{"dev":[0,0],"wire":40,"up":false}"#,
        Some((8, 3)),
    ),
    (
        r#"{"dev":[0,0],"wire":40,"up":true},{"dev":[0,1],"wire":40,"up":false}"#,
        Some((8, 2)),
    ),
    (
        r#"{"dev":[0,0],"wire":40,"up":true},{"dev":[0,0],"wire":40,"up":false},{"dev":[0,1],"wire":40,"up":true}"#,
        Some((8, 3)),
    ),
    (
        r#"{"dev":[0,0],"wire":40,"up":true},{"dev":[0,1],"wire":41,"up":true},{"dev":[0,0],"wire":40,"up":false}"#,
        None,
    ),
    (
        r#"{"dev":[0,0],"wire":40,"up":true},{"dev":[1,1],"wire":40,"up":true},{"dev":[1,1],"wire":40,"up":false}"#,
        None,
    ),
    (
        r#"{"dev":[1,0],"wire":40,"up":true},{"dev":[0,1],"wire":40,"up":false}"#,
        Some((8, 2)),
    ),
    (
        r#"{"dev":[0,0],"wire":27,"up":true,"vcpu":0},{"dev":[0,1],"wire":27,"up":true,"vcpu":1}"#,
        None,
    ),
    (
        r#"{"dev":[0,0],"wire":27,"up":true,"vcpu":0},{"dev":[0,1],"wire":27,"up":false,"vcpu":0}"#,
        Some((8, 2)),
    ),
    // A message is no move of a wire.
    (
        r#"{"dev":[0,0],"message":40},{"dev":[0,1],"wire":40,"up":true}"#,
        None,
    ),
    (
        r#"{"dev":[0,0],"wire":40,"up":true},{"dev":[0,1],"message":40}"#,
        None,
    ),
    (
        r#"{"dev":[0,0],"wire":40,"up":true},{"dev":[0,9],"wire":40,"up":true}"#,
        Some((4, 2)),
    ),
];
/// Steps on threads, of two vCPUs and one PE: a vCPU needs none, and the steps of PEs are faults whatever PE they
/// name.
const ON_THREADS: [(&str, Want); 11] = [
    (
        r#"{"vcpu":[0,0],"icc":"IAR1"},{"vcpu":[0,1],"icc":"IAR1"}"#,
        None,
    ),
    (r#"{"vcpu":[0,1],"gicd":65536}"#, Some((9, 1))),
    (r#"{"pe":0,"lrs":true}"#, Some((7, 1))),
    (r#"{"pe":9,"lrs":true}"#, Some((7, 1))),
    (r#"{"pe":0,"exit":true}"#, Some((7, 1))),
    (
        r#"{"vcpu":[0,0],"icc":"IAR1"},{"pe":9,"exit":true}"#,
        Some((7, 2)),
    ),
    (r#"{"pe":0,"enter":[0,0]}"#, Some((7, 1))),
    (r#"{"pe":18446744073709551615,"enter":[0,1]}"#, Some((7, 1))),
    (r#"{"pe":0,"enter":[0,2]}"#, Some((4, 1))),
    (r#"{"pe":9,"enter":[1,0]}"#, Some((4, 1))),
    (r#"{"pe":9,"lrs":false}"#, Some((1, 1))),
];

#[test]
fn gives_codes_of_standing(rt: HostRuntime) -> Result<(), Fail> {
    let alloc = rt.alloc();
    let mode = Mode::Schedule;
    let one = r#"{"guests":[{"vcpus":2}],"steps":["#;
    expect_faults(&rt, alloc, mode, one, &ONE_PE, "]}")?;
    let three = r#"{"pes":3,"guests":[{"vcpus":2},{"vcpus":2}],"steps":["#;
    expect_faults(&rt, alloc, mode, three, &THREE_PES, "]}")?;
    Ok(())
}

#[test]
fn gives_codes_of_wires(rt: HostRuntime) -> Result<(), Fail> {
    let before = r#"{"guests":[{"vcpus":2,"devices":2},{"devices":2}],"steps":["#;
    for mode in [Mode::Schedule, Mode::Threads] {
        expect_faults(&rt, rt.alloc(), mode, before, &WIRES, "]}")?;
    }
    Ok(())
}

#[test]
fn gives_codes_on_threads(rt: HostRuntime) -> Result<(), Fail> {
    let before = r#"{"guests":[{"vcpus":2}],"steps":["#;
    expect_faults(&rt, rt.alloc(), Mode::Threads, before, &ON_THREADS, "]}")?;
    Ok(())
}
