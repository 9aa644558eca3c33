//! What a guest has of each kind, and the limits of it.
ghost use Rattle.std.specs.Prelude.{◌↔◌, IsTrue};

/// The most vCPUs that a guest has, and the first number that no vCPU has.
pub const MAX_VCPUS: u32 = 32;
/// The most shared peripheral interrupts that a guest has.
pub const MAX_SPIS: u32 = 960;
/// Shared peripheral interrupts come in blocks of this many, as GICD_TYPER counts them.
pub const SPI_STEP: u32 = 32;
/// The most extended shared peripheral interrupts that a guest has, which come in such blocks too.
pub const MAX_ESPIS: u32 = 1024;
/// The most devices that a guest has.
pub const MAX_DEVICES: u32 = 4;
/// The most LPIs that a guest has.
pub const MAX_LPIS: u32 = 4096;
/// The most bytes of memory that a guest has: room for the largest command queue, the tables of LPIs and more.
pub const MAX_RAM: u32 = 16_777_216;
/// A guest's memory is a multiple of this many bytes.
pub const RAM_STEP: u32 = 8;

/// What a guest has of each kind.
#[derive(Clone, Copy, Debug, PartialEq, Eq, Hash)]
pub struct GuestShape {
    /// vCPUs, 1 to 32.
    pub vcpus: u32,
    /// SPIs, 0 to 960, a multiple of 32: the INTIDs 32 to 31 + spis.
    pub spis: u32,
    /// Extended SPIs, 0 to 1024, a multiple of 32: the INTIDs 4096 to 4095 + espis.
    pub espis: u32,
    /// Devices, 0 to 4.
    pub devices: u32,
    /// LPIs, 0 to 4096: the INTIDs 8192 to 8191 + lpis.
    pub lpis: u32,
    /// Bytes of memory, 0 to 16,777,216, a multiple of 8.
    pub ram: u32,
}

impl GuestShape {
    ghost use Rattle.gic_base.specs.Shape.{IsShape};

    /// Whether each number is in its range. Every call that takes a shape requires it.
    pub fn is_in_range(&self) -> bool
        ensures { IsTrue result ↔ IsShape self.now }
    {
        (1..=MAX_VCPUS).contains(&self.vcpus)
            && self.spis <= MAX_SPIS
            && self.spis % SPI_STEP == 0
            && self.espis <= MAX_ESPIS
            && self.espis % SPI_STEP == 0
            && self.devices <= MAX_DEVICES
            && self.lpis <= MAX_LPIS
            && self.ram <= MAX_RAM
            && self.ram % RAM_STEP == 0
    }
}
