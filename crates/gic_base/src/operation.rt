//! What vCPUs, devices and PEs do.
use crate::icc::IccReg;
use crate::interrupt::Key;

/// The registers that have a part for each interrupt (IHI 0069, "The Distributor register map").
#[derive(Clone, Copy, Debug, PartialEq, Eq, Hash)]
pub enum Kind {
    /// IGROUPR
    Group,
    /// ISENABLER
    SetEnable,
    /// ICENABLER
    ClearEnable,
    /// ISPENDR
    SetPending,
    /// ICPENDR
    ClearPending,
    /// ISACTIVER
    SetActive,
    /// ICACTIVER
    ClearActive,
    /// IPRIORITYR
    Priority,
    /// ICFGR
    Config,
    /// IROUTER
    Routing,
}

/// What a guest's load or store goes to.
#[derive(Clone, Copy, Debug, PartialEq, Eq, Hash)]
pub enum Frame {
    /// The distributor, GICD.
    Dist,
    /// The redistributor of a vCPU, GICR: its RD frame, and its SGI frame from 0x10000.
    Redist { vcpu: u32 },
    /// The interrupt translation service, GITS.
    Its,
    /// The guest's memory.
    Ram,
}

/// What a vCPU does.
#[derive(Clone, Copy, Debug, PartialEq, Eq, Hash)]
pub enum GuestOp {
    /// A read of a CPU interface register, or a write of the value.
    Icc {
        reg: IccReg,
        write: Option<u64>,
    },
    /// A load of 1, 2, 4 or 8 bytes at a byte offset, or a store of the value.
    Mem {
        frame: Frame,
        offset: u32,
        size: u32,
        write: Option<u64>,
    },
}

/// What a device does.
#[derive(Clone, Copy, Debug, PartialEq, Eq, Hash)]
pub enum DeviceOp {
    /// It writes the INTID of an SPI to GICD_SETSPI_NSR.
    Message { spi: u32 },
    /// It moves the wire of an SPI or a PPI.
    Wire { key: Key, up: bool },
    /// It writes an EventID to GITS_TRANSLATER, under its DeviceID.
    Msi { device: u32, event: u32 },
}

/// What is done to a simulated PE.
#[derive(Clone, Copy, Debug, PartialEq, Eq, Hash)]
pub enum PeOp {
    /// A vCPU is entered on it.
    Enter { guest: u32, vcpu: u32 },
    /// Its vCPU leaves it.
    Exit,
    /// Its vCPU leaves and enters again, and its list registers are shown.
    Lrs,
}

/// Who acts: a vCPU or a device of a guest, each by its number from 0.
#[derive(Clone, Copy, Debug, PartialEq, Eq, PartialOrd, Ord, Hash)]
pub enum Actor {
    Vcpu { guest: u32, vcpu: u32 },
    Device { guest: u32, device: u32 },
}
