//! The input of a run: its steps, of which the first set up an LPI.

use std::alloc::AllocError;

/// vCPU 0 writes eight bytes of memory.
macro_rules! store {
    ($address:literal, $value:literal) => {
        concat!(
            r#"{"vcpu":[0,0],"ram":"#,
            $address,
            r#","size":8,"write":"#,
            $value,
            "}"
        )
    };
}

/// vCPU 0 sets up LPI 8195: its configuration, the tables of vCPU 1, and a queue with the commands that map event 3 of DeviceID 8
/// to it. At step 18 it reads how far the queue is.
pub(crate) const SETUP: [&str; 18] = [
    r#"{"vcpu":[0,0],"ram":"0x3003","size":1,"write":"0xA1"}"#,
    r#"{"vcpu":[0,0],"gicr":"0x70","of":1,"size":8,"write":"0x300D"}"#,
    r#"{"vcpu":[0,0],"gicr":"0x78","of":1,"size":8,"write":"0x4000000000010000"}"#,
    r#"{"vcpu":[0,0],"gicr":"0x0","of":1,"size":4,"write":1}"#,
    r#"{"vcpu":[0,0],"gits":"0x80","size":8,"write":"0x8000000000001000"}"#,
    r#"{"vcpu":[0,0],"gits":"0x0","size":4,"write":1}"#,
    store!(0x1000, 0x0000000800000008),
    store!(0x1008, 6),
    store!(0x1010, 0x8000000000002000),
    store!(0x1020, 9),
    store!(0x1030, 0x8000000000010001),
    store!(0x1040, 0x000000080000000A),
    store!(0x1048, 0x0000200300000003),
    store!(0x1050, 1),
    store!(0x1060, 5),
    store!(0x1070, 0x10000),
    r#"{"vcpu":[0,0],"gits":"0x88","size":8,"write":"0x80"}"#,
    r#"{"vcpu":[0,0],"gits":"0x90","size":8}"#,
];

/// Adds a step to an input that ends within its list of steps.
pub(crate) fn push_step(input: &mut String, step: &str) -> Result<(), AllocError> {
    if !input.as_str().ends_with('[') {
        input.push(',')?;
    }
    input.push_str(step)
}

/// Adds steps, one after the other.
pub(crate) fn push_steps(input: &mut String, steps: &[&str]) -> Result<(), AllocError> {
    for step in steps {
        push_step(input, step)?;
    }
    Ok(())
}
