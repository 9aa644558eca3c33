//! Faults of steps.

use crate::line::line_of;
use scn_hint::Mode;
use std::test::Fail;

/// Steps of a guest with 32 SPIs, and the line that tells the fault of one.
const STEPS: [(&str, &str); 40] = [
    (
        r#"{"vcpu":[0,0],"icc":"IAR1","wrte":1}"#,
        r#"step 1: Shape: unknown field "wrte""#,
    ),
    (
        r#"{"vcpu":[0],"gicd":0}"#,
        r#"step 1: Shape: field "vcpu" is not a list of two numbers, as [0,1]"#,
    ),
    (
        r#"{"dev":[0,0],"wire":40}"#,
        r#"step 1: Shape: field "up" is missing: true or false"#,
    ),
    (
        r#"{"pe":0,"exit":false}"#,
        r#"step 1: Shape: field "exit" is not true"#,
    ),
    (
        r#"{"vcpu":[0,0]}"#,
        r#"step 1: Shape: field "vcpu" wants one of "icc", "gicd", "gicr", "gits", "ram""#,
    ),
    (
        r#"{"vcpu":[0,0],"ICC":"PMR"}"#,
        r#"step 1: Shape: field "vcpu" wants one of "icc", "gicd", "gicr", "gits", "ram""#,
    ),
    (
        r#"{"dev":[0,0],"irq":40}"#,
        r#"step 1: Shape: field "dev" wants one of "message", "wire", "msi""#,
    ),
    (
        r#"{"pe":0}"#,
        r#"step 1: Shape: field "pe" wants one of "enter", "exit", "lrs""#,
    ),
    (
        r#"{"step":1}"#,
        r#"step 1: Shape: one of "vcpu", "dev", "pe" is missing"#,
    ),
    (r#"null"#, r#"step 1: Shape: no object"#),
    (
        r#"{"vcpu":[0,0],"message":40}"#,
        r#"step 1: Shape: field "vcpu" does not go with "message", which "dev" does"#,
    ),
    (
        r#"{"vcpu":[0,0],"icc":"PMR","gicd":0}"#,
        r#"step 1: Shape: fields "icc" and "gicd" are two forms of a step"#,
    ),
    (
        r#"{"vcpu":[0,0],"icc":"PMR","write":"40"}"#,
        r#"step 1: Shape: field "write" is "40", not a number from 0 to 2^64 - 1, as 40 or "0x28""#,
    ),
    (
        r#"{"vcpu":[0,0],"icc":"PMR","write":"0XF0"}"#,
        r#"step 1: Shape: field "write" is "0XF0", not a number from 0 to 2^64 - 1, as 40 or "0x28""#,
    ),
    (
        r#"{"vcpu":[0,0],"icc":"PMR","write":18446744073709551616}"#,
        r#"step 1: Shape: field "write" is not a number from 0 to 2^64 - 1, as 40 or "0x28""#,
    ),
    (
        r#"{"vcpu":[0,0],"gicd":4,"size":3}"#,
        r#"step 1: Limit: field "size" is 3: 1, 2, 4 or 8"#,
    ),
    (
        r#"{"vcpu":[0,0],"gicd":4,"write":"0x100000000"}"#,
        r#"step 1: Limit: field "write" is "0x100000000": "size" is 4 bytes"#,
    ),
    (
        r#"{"dev":[0,0],"msi":[4294967296,0]}"#,
        r#"step 1: Limit: field "msi" is [4294967296,0]: both below 2^32"#,
    ),
    (
        r#"{"vcpu":[0,0],"icc":"IAR2"}"#,
        r#"step 1: UnknownRegister: field "icc" is "IAR2", no register: is it "IAR0"?"#,
    ),
    (
        r#"{"vcpu":[0,0],"icc":"iar1"}"#,
        r#"step 1: UnknownRegister: field "icc" is "iar1", no register: is it "IAR1"?"#,
    ),
    (
        r#"{"vcpu":[0,0],"icc":"ICC_IAR1_EL1"}"#,
        r#"step 1: UnknownRegister: field "icc" is "ICC_IAR1_EL1", no register: is it "IAR1"?"#,
    ),
    (
        r#"{"vcpu":[0,0],"icc":"X"}"#,
        r#"step 1: UnknownRegister: field "icc" is "X", no register"#,
    ),
    (
        r#"{"vcpu":[0,0],"icc":"EOIR1"}"#,
        r#"step 1: UnknownRegister: field "icc" is "EOIR1", which cannot be read"#,
    ),
    (
        r#"{"vcpu":[0,0],"icc":"IAR1","write":1}"#,
        r#"step 1: UnknownRegister: field "icc" is "IAR1", which cannot be written"#,
    ),
    (
        r#"{"vcpu":[0,7],"icc":"IAR1"}"#,
        r#"step 1: UnknownActor: field "vcpu" is [0,7], not there: vCPUs, from 0: 1"#,
    ),
    (
        r#"{"vcpu":[3,0],"icc":"IAR1"}"#,
        r#"step 1: UnknownActor: field "vcpu" is [3,0], not there: guests, from 0: 1"#,
    ),
    (
        r#"{"vcpu":[0,0],"gicr":8,"of":2}"#,
        r#"step 1: UnknownActor: field "of" is 2, not there: vCPUs, from 0: 1"#,
    ),
    (
        r#"{"dev":[0,9],"message":40}"#,
        r#"step 1: UnknownActor: field "dev" is [0,9], not there: devices, from 0: 1"#,
    ),
    (
        r#"{"dev":[0,0],"message":64}"#,
        r#"step 1: UnknownActor: field "message" is 64, not there: its guest has 32 SPIs from 32 on and 0 from 4096 on"#,
    ),
    (
        r#"{"dev":[0,0],"wire":27,"up":true}"#,
        r#"step 1: UnknownActor: field "wire" is 27, not there: its guest has 32 SPIs from 32 on and 0 from 4096 on, and a PPI, 16 to 31, wants "vcpu""#,
    ),
    (
        r#"{"dev":[0,0],"msi":[0,0]}"#,
        r#"step 1: UnknownActor: field "msi" is [0,0], not there: its guest has no LPIs"#,
    ),
    (
        r#"{"pe":5,"exit":true}"#,
        r#"step 1: UnknownActor: field "pe" is 5, not there: PEs, from 0: 1"#,
    ),
    (
        r#"{"pe":0,"enter":[0,4]}"#,
        r#"step 1: UnknownActor: field "enter" is [0,4], not there: vCPUs, from 0: 1"#,
    ),
    (
        r#"{"pe":0,"exit":true},{"vcpu":[0,0],"icc":"IAR1"}"#,
        r#"step 2: NotLoaded: field "vcpu" is [0,0], a vCPU that is on no PE"#,
    ),
    (
        r#"{"pe":0,"exit":true},{"pe":0,"exit":true}"#,
        r#"step 2: NotLoaded: field "pe" is 0, a PE that has no vCPU"#,
    ),
    (
        r#"{"pe":0,"enter":[0,0]}"#,
        r#"step 1: PeBusy: field "enter" is [0,0]: that vCPU is on a PE, or the PE has one"#,
    ),
    (
        r#"{"dev":[0,0],"wire":40,"up":false}"#,
        r#"step 1: WireLevel: field "wire" is 40: that wire has this level, or another device's"#,
    ),
    (
        r#"{"vcpu":[0,0],"gicd":"0x10000"}"#,
        r#"step 1: Address: field "gicd" is "0x10000": below 0x10000"#,
    ),
    (
        r#"{"vcpu":[0,0],"gits":131072}"#,
        r#"step 1: Address: field "gits" is 131072: below 0x20000"#,
    ),
    (
        r#"{"vcpu":[0,0],"ram":8}"#,
        r#"step 1: Address: field "ram" is 8: aligned to its size, in 0 bytes of memory"#,
    ),
];

#[test]
fn a_fault_of_a_step_is_told_in_a_line(rt: HostRuntime) -> Result<(), Fail> {
    for (steps, want) in STEPS {
        let text = format!(in rt.alloc(); "{{\"guests\":[{{}}],\"steps\":[{steps}]}}")?;
        let line = line_of(rt.alloc(), text.as_str(), Mode::Schedule)?;
        assert_eq!(&rt; line.as_str(), want, "of {steps}");
    }
    Ok(())
}

#[test]
fn threads_have_no_steps_of_pes(rt: HostRuntime) -> Result<(), Fail> {
    let text = r#"{"guests":[{}],"steps":[{"pe":0,"lrs":true}]}"#;
    let line = line_of(rt.alloc(), text, Mode::Threads)?;
    assert_eq!(&rt;
        line.as_str(),
        r#"step 1: PeStep: field "lrs" is not for threads, which place vCPUs"#
    );
    Ok(())
}
