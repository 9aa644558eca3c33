//! Steps, each by itself.
use crate::table::{Want, expect_faults};
use scn_read::Mode;
use std::test::Fail;

/// A guest of two vCPUs, both kinds of SPIs, LPIs and memory, whose vCPUs both stand on a PE.
const BEFORE: &str =
    r#"{"pes":2,"guests":[{"vcpus":2,"devices":2,"espis":32,"lpis":16,"ram":64}],"steps":["#;

/// Steps of a vCPU that read or write a register of its CPU interface.
const REGISTER_STEPS: [(&str, Want); 22] = [
    (r#"{"vcpu":[0,0],"icc":"IAR0"}"#, None),
    (r#"{"vcpu":["0x0","0x1"],"icc":"IAR0"}"#, None),
    (
        r#"{"vcpu":[0,0],"icc":"EOIR1","write":18446744073709551615}"#,
        None,
    ),
    (r#"{"vcpu":[0,0],"icc":"SGI1R","write":"0x05000002"}"#, None),
    (r#"{"icc":"IAR1"}"#, Some((1, 1))),
    (r#"{"vcpu":[0,0]}"#, Some((1, 1))),
    (r#"{"vcpu":[0,0],"icc":1}"#, Some((1, 1))),
    (r#"{"vcpu":0,"icc":"IAR1"}"#, Some((1, 1))),
    (r#"{"vcpu":[0],"icc":"IAR1"}"#, Some((1, 1))),
    (r#"{"vcpu":[0,0,0],"icc":"IAR1"}"#, Some((1, 1))),
    (r#"{"vcpu":[0,0],"icc":"PMR","size":4}"#, Some((1, 1))),
    (r#"{"vcpu":[0,0],"icc":"PMR","write":-1}"#, Some((1, 1))),
    (r#"{"vcpu":[0,0],"icc":"PMR","write":null}"#, Some((1, 1))),
    (
        r#"{"vcpu":[0,0],"icc":"EOIR1","write":18446744073709551616}"#,
        Some((1, 1)),
    ),
    // A shape fault hides the others of its step, and a register that is not there an actor's.
    (r#"{"vcpu":[9,0],"icc":"IAR2","up":1}"#, Some((1, 1))),
    (r#"{"vcpu":[9,0],"icc":"IAR2"}"#, Some((3, 1))),
    (r#"{"vcpu":[0,0],"icc":"IAR2"}"#, Some((3, 1))),
    (r#"{"vcpu":[0,9],"icc":"SGI1R"}"#, Some((3, 1))),
    (r#"{"vcpu":[0,0],"icc":"iar1"}"#, Some((3, 1))),
    (r#"{"vcpu":[0,2],"icc":"IAR1"}"#, Some((4, 1))),
    (r#"{"vcpu":[4294967296,0],"icc":"IAR1"}"#, Some((4, 1))),
    (r#"{"vcpu":[0,4294967296],"icc":"IAR1"}"#, Some((4, 1))),
];
/// Steps of a vCPU that read or write a frame.
const ACCESS_STEPS: [(&str, Want); 49] = [
    (r#"{"vcpu":[0,0],"gicd":2}"#, None),
    (r#"{"vcpu":[0,0],"gicd":"0x428","size":8}"#, None),
    (r#"{"vcpu":[0,0],"gicd":"0x100","size":1}"#, None),
    (r#"{"vcpu":[0,0],"gicd":65535,"write":4294967295}"#, None),
    (r#"{"vcpu":[0,0],"gicd":"0x40","size":2,"write":40}"#, None),
    (r#"{"vcpu":[0,0],"gicr":"0x1FFFF","of":1}"#, None),
    (
        r#"{"vcpu":[0,1],"gicr":8,"of":0,"size":8,"write":18446744073709551615}"#,
        None,
    ),
    (r#"{"vcpu":[0,0],"gits":"0x1ffff"}"#, None),
    (r#"{"vcpu":[0,0],"gits":128,"size":8}"#, None),
    (r#"{"vcpu":[0,0],"ram":60}"#, None),
    (r#"{"vcpu":[0,0],"ram":56,"size":8}"#, None),
    (r#"{"vcpu":[0,0],"ram":63,"size":1,"write":255}"#, None),
    (r#"{"vcpu":[0,0],"ram":62,"size":2,"write":65535}"#, None),
    (r#"{"vcpu":[0,0],"gicd":0,"of":0}"#, Some((1, 1))),
    (r#"{"vcpu":[0,0],"gicr":0}"#, Some((1, 1))),
    (r#"{"vcpu":[0,0],"gicr":0,"of":[1]}"#, Some((1, 1))),
    (r#"{"vcpu":[0,0],"gicd":"2"}"#, Some((1, 1))),
    (r#"{"vcpu":[0,0],"gicd":0,"size":true}"#, Some((1, 1))),
    (r#"{"vcpu":[0,0],"ram":0,"write":"x"}"#, Some((1, 1))),
    (r#"{"vcpu":0,"ram":0}"#, Some((1, 1))),
    (r#"{"dev":[0,0],"gicd":0}"#, Some((1, 1))),
    // Two fields that each name a form are a fault of shape.
    (r#"{"vcpu":[0,0],"gicd":0,"gits":0}"#, Some((1, 1))),
    (r#"{"vcpu":[0,0],"ram":0,"icc":"IAR1"}"#, Some((1, 1))),
    (r#"{"vcpu":[0,0],"gicd":0,"size":3}"#, Some((2, 1))),
    (r#"{"vcpu":[0,0],"gicd":0,"size":0}"#, Some((2, 1))),
    (r#"{"vcpu":[0,0],"gicd":0,"size":16}"#, Some((2, 1))),
    (r#"{"vcpu":[0,0],"gicd":0,"size":4294967297}"#, Some((2, 1))),
    (
        r#"{"vcpu":[0,0],"gicd":0,"write":4294967296}"#,
        Some((2, 1)),
    ),
    (
        r#"{"vcpu":[0,0],"ram":0,"size":1,"write":256}"#,
        Some((2, 1)),
    ),
    (
        r#"{"vcpu":[0,0],"gits":0,"size":2,"write":65536}"#,
        Some((2, 1)),
    ),
    (
        r#"{"vcpu":[9,9],"gicr":0,"of":9,"size":2,"write":65536}"#,
        Some((2, 1)),
    ),
    (r#"{"vcpu":[0,2],"gicd":0}"#, Some((4, 1))),
    (r#"{"vcpu":[1,0],"ram":4,"size":8}"#, Some((4, 1))),
    (r#"{"vcpu":[0,0],"gicr":0,"of":2}"#, Some((4, 1))),
    (r#"{"vcpu":[0,0],"gicr":0,"of":4294967296}"#, Some((4, 1))),
    (r#"{"vcpu":[0,0],"gicr":131072,"of":2}"#, Some((4, 1))),
    (r#"{"vcpu":[0,0],"gicd":65536}"#, Some((9, 1))),
    (r#"{"vcpu":[0,0],"gicd":4294967296}"#, Some((9, 1))),
    (
        r#"{"vcpu":[0,0],"gicd":18446744073709551615}"#,
        Some((9, 1)),
    ),
    (r#"{"vcpu":[0,0],"gicr":131072,"of":0}"#, Some((9, 1))),
    (r#"{"vcpu":[0,0],"gits":131072}"#, Some((9, 1))),
    (r#"{"vcpu":[0,0],"gits":4294967296}"#, Some((9, 1))),
    (r#"{"vcpu":[0,0],"ram":4,"size":8}"#, Some((9, 1))),
    (r#"{"vcpu":[0,0],"ram":2}"#, Some((9, 1))),
    (r#"{"vcpu":[0,0],"ram":1,"size":2}"#, Some((9, 1))),
    (r#"{"vcpu":[0,0],"ram":64}"#, Some((9, 1))),
    (r#"{"vcpu":[0,0],"ram":64,"size":1}"#, Some((9, 1))),
    (r#"{"vcpu":[0,0],"ram":4294967296}"#, Some((9, 1))),
    (
        r#"{"vcpu":[0,0],"ram":18446744073709551608,"size":8}"#,
        Some((9, 1)),
    ),
];
/// Steps of a device.
const DEVICE_STEPS: [(&str, Want); 50] = [
    (
        r#"{"dev":[0,0],"message":32},{"dev":[0,0],"message":63}"#,
        None,
    ),
    (r#"{"dev":[0,1],"message":"0x28"}"#, None),
    (
        r#"{"dev":[0,0],"message":4096},{"dev":[0,0],"message":4127}"#,
        None,
    ),
    (r#"{"dev":[0,0],"wire":40,"up":true}"#, None),
    (r#"{"dev":[0,0],"wire":4127,"up":true}"#, None),
    (r#"{"dev":[0,0],"wire":16,"up":true,"vcpu":1}"#, None),
    (r#"{"dev":[0,0],"wire":31,"up":true,"vcpu":0}"#, None),
    (r#"{"dev":[0,0],"msi":[8,3]}"#, None),
    (r#"{"dev":[0,0],"msi":[4294967295,4294967295]}"#, None),
    (r#"{"dev":[0,0]}"#, Some((1, 1))),
    (r#"{"message":40}"#, Some((1, 1))),
    (r#"{"dev":[0],"message":40}"#, Some((1, 1))),
    (r#"{"dev":[0,0,0],"message":40}"#, Some((1, 1))),
    (r#"{"dev":0,"message":40}"#, Some((1, 1))),
    (r#"{"dev":[0,0],"message":40.0}"#, Some((1, 1))),
    (r#"{"dev":[0,0],"message":"0X28"}"#, Some((1, 1))),
    (r#"{"dev":[0,0],"message":40,"up":true}"#, Some((1, 1))),
    (r#"{"vcpu":[0,0],"message":40}"#, Some((1, 1))),
    (r#"{"dev":[0,9],"message":"40"}"#, Some((1, 1))),
    (r#"{"dev":[0,0],"wire":40}"#, Some((1, 1))),
    (r#"{"dev":[0,0],"wire":40,"up":1}"#, Some((1, 1))),
    (r#"{"dev":[0,0],"wire":[40],"up":true}"#, Some((1, 1))),
    (
        r#"{"dev":[0,0],"wire":27,"up":true,"vcpu":[0,0]}"#,
        Some((1, 1)),
    ),
    (
        r#"{"dev":[0,0],"wire":27,"up":true,"vcpu":null}"#,
        Some((1, 1)),
    ),
    (
        r#"{"dev":[0,0],"wire":40,"up":true,"message":40}"#,
        Some((1, 1)),
    ),
    (r#"{"dev":[0,0],"msi":[8]}"#, Some((1, 1))),
    (r#"{"dev":[0,0],"msi":8}"#, Some((1, 1))),
    (r#"{"dev":[0,0],"msi":[8,3],"up":true}"#, Some((1, 1))),
    (r#"{"dev":[0,0],"msi":[4294967296,3]}"#, Some((2, 1))),
    (r#"{"dev":[9,0],"msi":[8,4294967296]}"#, Some((2, 1))),
    (r#"{"dev":[0,2],"message":40}"#, Some((4, 1))),
    (r#"{"dev":[1,0],"message":40}"#, Some((4, 1))),
    (r#"{"dev":[4294967296,0],"message":40}"#, Some((4, 1))),
    (r#"{"dev":[0,4294967296],"message":40}"#, Some((4, 1))),
    (r#"{"dev":[0,0],"message":31}"#, Some((4, 1))),
    (r#"{"dev":[0,0],"message":64}"#, Some((4, 1))),
    (r#"{"dev":[0,0],"message":4128}"#, Some((4, 1))),
    (r#"{"dev":[0,0],"message":8192}"#, Some((4, 1))),
    (r#"{"dev":[0,0],"message":4294967336}"#, Some((4, 1))),
    (
        r#"{"dev":[0,0],"message":18446744073709551615}"#,
        Some((4, 1)),
    ),
    (r#"{"dev":[0,2],"wire":40,"up":true}"#, Some((4, 1))),
    (r#"{"dev":[0,0],"wire":31,"up":true}"#, Some((4, 1))),
    (r#"{"dev":[0,0],"wire":8192,"up":true}"#, Some((4, 1))),
    (r#"{"dev":[0,0],"wire":4294967336,"up":true}"#, Some((4, 1))),
    (
        r#"{"dev":[0,0],"wire":15,"up":true,"vcpu":0}"#,
        Some((4, 1)),
    ),
    (
        r#"{"dev":[0,0],"wire":40,"up":true,"vcpu":0}"#,
        Some((4, 1)),
    ),
    (
        r#"{"dev":[0,0],"wire":27,"up":true,"vcpu":2}"#,
        Some((4, 1)),
    ),
    (
        r#"{"dev":[0,0],"wire":4294967323,"up":true,"vcpu":0}"#,
        Some((4, 1)),
    ),
    (r#"{"dev":[0,2],"msi":[8,3]}"#, Some((4, 1))),
    (r#"{"dev":[1,0],"msi":[8,3]}"#, Some((4, 1))),
];
/// Steps of a PE, with those that have no form.
const PE_STEPS: [(&str, Want); 24] = [
    (r#"{"pe":0,"lrs":true}"#, None),
    (r#"{"pe":"0x1","lrs":true}"#, None),
    (r#"{"pe":0,"exit":true}"#, None),
    (r#"7"#, Some((1, 1))),
    (r#"{}"#, Some((1, 1))),
    (r#"{"pe":0}"#, Some((1, 1))),
    (r#"{"pe":0,"lrs":false}"#, Some((1, 1))),
    (r#"{"pe":0,"lrs":1}"#, Some((1, 1))),
    (r#"{"pe":0,"exit":false}"#, Some((1, 1))),
    (r#"{"pe":0,"exit":"true"}"#, Some((1, 1))),
    (r#"{"pe":0,"lrs":true,"exit":true}"#, Some((1, 1))),
    (r#"{"pe":[0],"lrs":true}"#, Some((1, 1))),
    (r#"{"pe":0,"lrs":true,"icc":"IAR1"}"#, Some((1, 1))),
    (r#"{"lrs":true}"#, Some((1, 1))),
    (r#"{"pe":0,"enter":[0]}"#, Some((1, 1))),
    (r#"{"pe":0,"enter":true}"#, Some((1, 1))),
    (r#"{"enter":[0,0]}"#, Some((1, 1))),
    (r#"{"pe":0,"enter":[0,0],"vcpu":[0,0]}"#, Some((1, 1))),
    (r#"{"pe":2,"lrs":true}"#, Some((4, 1))),
    (r#"{"pe":18446744073709551615,"lrs":true}"#, Some((4, 1))),
    (r#"{"pe":2,"exit":true}"#, Some((4, 1))),
    (r#"{"pe":2,"enter":[0,0]}"#, Some((4, 1))),
    (r#"{"pe":0,"enter":[0,2]}"#, Some((4, 1))),
    (r#"{"pe":4294967296,"enter":[0,4294967296]}"#, Some((4, 1))),
];
/// The registers, each with whether it is read and whether it is written.
const REGISTERS: [(&str, bool, bool); 18] = [
    ("IAR0", true, false),
    ("IAR1", true, false),
    ("HPPIR0", true, false),
    ("HPPIR1", true, false),
    ("EOIR0", false, true),
    ("EOIR1", false, true),
    ("DIR", false, true),
    ("RPR", true, false),
    ("PMR", true, true),
    ("BPR0", true, true),
    ("BPR1", true, true),
    ("CTLR", true, true),
    ("IGRPEN0", true, true),
    ("IGRPEN1", true, true),
    ("AP0R0", true, true),
    ("AP1R0", true, true),
    ("SGI1R", false, true),
    ("SRE", true, true),
];
/// Guests without LPIs and without memory: no MSI, and no address.
const BARE_STEPS: [(&str, Want); 3] = [
    (r#"{"dev":[0,0],"msi":[8,3]}"#, Some((4, 1))),
    (r#"{"vcpu":[0,0],"ram":0,"size":1}"#, Some((9, 1))),
    (r#"{"vcpu":[0,0],"gits":0}"#, None),
];

#[test]
fn gives_codes_of_steps(rt: HostRuntime) -> Result<(), Fail> {
    let alloc = rt.alloc();
    let mode = Mode::Schedule;
    expect_faults(&rt, alloc, mode, BEFORE, &REGISTER_STEPS, "]}")?;
    expect_faults(&rt, alloc, mode, BEFORE, &ACCESS_STEPS, "]}")?;
    expect_faults(&rt, alloc, mode, BEFORE, &DEVICE_STEPS, "]}")?;
    expect_faults(&rt, alloc, mode, BEFORE, &PE_STEPS, "]}")?;
    let before = r#"{"guests":[{}],"steps":["#;
    expect_faults(&rt, alloc, mode, before, &BARE_STEPS, "]}")?;
    // No step but those of PEs is another one on threads.
    expect_faults(&rt, alloc, Mode::Threads, BEFORE, &REGISTER_STEPS, "]}")?;
    expect_faults(&rt, alloc, Mode::Threads, BEFORE, &ACCESS_STEPS, "]}")?;
    expect_faults(&rt, alloc, Mode::Threads, BEFORE, &DEVICE_STEPS, "]}")?;
    Ok(())
}

#[test]
fn gives_codes_of_registers(rt: HostRuntime) -> Result<(), Fail> {
    let alloc = rt.alloc();
    let before = r#"{"guests":[{}],"steps":[{"vcpu":[0,0],"icc":""#;
    for (name, is_read, is_written) in REGISTERS {
        let read = [(name, if is_read { None } else { Some((3, 1)) })];
        expect_faults(&rt, alloc, Mode::Schedule, before, &read, r#""}]}"#)?;
        let written = [(name, if is_written { None } else { Some((3, 1)) })];
        let after = r#"","write":40}]}"#;
        expect_faults(&rt, alloc, Mode::Schedule, before, &written, after)?;
    }
    Ok(())
}
