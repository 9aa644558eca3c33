//! Steps of a scenario as JSON. Those of a vCPU and of a device are of guest 0.

/// A vCPU, its register of the CPU interface, and the value where it writes.
#[macro_export]
macro_rules! icc {
    ($vcpu:literal, $name:literal) => {
        concat!(r#"{"vcpu":[0,"#, $vcpu, r#"],"icc":""#, $name, r#""}"#)
    };
    ($vcpu:literal, $name:literal, $value:literal) => {
        concat!(
            r#"{"vcpu":[0,"#,
            $vcpu,
            r#"],"icc":""#,
            $name,
            r#"","write":"#,
            $value,
            "}"
        )
    };
}

/// A vCPU, its frame (`gicd`, `gits`, `ram`), an offset and a size, and the value where it writes.
#[macro_export]
macro_rules! mem {
    ($vcpu:literal, $frame:literal, $offset:literal, $size:literal) => {
        concat!(
            r#"{"vcpu":[0,"#,
            $vcpu,
            r#"],""#,
            $frame,
            r#"":"#,
            $offset,
            r#","size":"#,
            $size,
            "}"
        )
    };
    ($vcpu:literal, $frame:literal, $offset:literal, $size:literal, $value:literal) => {
        concat!(
            r#"{"vcpu":[0,"#,
            $vcpu,
            r#"],""#,
            $frame,
            r#"":"#,
            $offset,
            r#","size":"#,
            $size,
            r#","write":"#,
            $value,
            "}"
        )
    };
}

/// vCPU 0 at the redistributor of a vCPU: an offset and a size, and the value where it writes.
#[macro_export]
macro_rules! gicr {
    ($of:literal, $offset:literal, $size:literal) => {
        concat!(
            r#"{"vcpu":[0,0],"gicr":"#,
            $offset,
            r#","of":"#,
            $of,
            r#","size":"#,
            $size,
            "}"
        )
    };
    ($of:literal, $offset:literal, $size:literal, $value:literal) => {
        concat!(
            r#"{"vcpu":[0,0],"gicr":"#,
            $offset,
            r#","of":"#,
            $of,
            r#","size":"#,
            $size,
            r#","write":"#,
            $value,
            "}"
        )
    };
}

/// Device 0 writes SETSPI for an interrupt.
#[macro_export]
macro_rules! message {
    ($id:literal) => {
        concat!(r#"{"dev":[0,0],"message":"#, $id, "}")
    };
}

/// Device 0 moves the wire of an SPI, or that of a vCPU's PPI.
#[macro_export]
macro_rules! wire {
    ($id:literal, $up:literal) => {
        concat!(r#"{"dev":[0,0],"wire":"#, $id, r#","up":"#, $up, "}")
    };
    ($id:literal, $up:literal, $vcpu:literal) => {
        concat!(
            r#"{"dev":[0,0],"wire":"#,
            $id,
            r#","up":"#,
            $up,
            r#","vcpu":"#,
            $vcpu,
            "}"
        )
    };
}

/// A vCPU of guest 0 enters a PE.
#[macro_export]
macro_rules! enter {
    ($pe:literal, $vcpu:literal) => {
        concat!(r#"{"pe":"#, $pe, r#","enter":[0,"#, $vcpu, "]}")
    };
}

/// The vCPU on a PE leaves it.
#[macro_export]
macro_rules! exit {
    ($pe:literal) => {
        concat!(r#"{"pe":"#, $pe, r#","exit":true}"#)
    };
}

/// PE 0 shows its list registers.
pub const LRS: &str = r#"{"pe":0,"lrs":true}"#;

/// Device 0 sends event 3 of DeviceID 8 to the ITS.
pub const MSI: &str = r#"{"dev":[0,0],"msi":[8,3]}"#;
