//! The registers that tell where the guest has the command queue of the ITS and the tables of LPIs: they read back as the guest wrote them. Beneath, each
//! stands for a place in the GIC's own memory.
ghost use Rattle.std.specs.Prelude.{◌≡◌, ◌<◌, ◌^◌};
ghost use Rattle.guest_memory.specs.Bases.{kept_of, read_of, address_of, place_of, placed_of, placed_op as placed_by, frame_of, offset_of, vcpu_of, base_in, with_base, no_bases};

use ideal_guest::{Field, Frame, GuestOp};

/// The most vCPUs that a guest has.
pub const VCPUS: usize = 32;

/// Size in GITS_CBASER: bits [7:0].
const SIZE: Field = Field { place: 0, width: 8 };
/// Shareability and Physical_Address in GITS_CBASER: bits [51:10].
const QUEUE_ADDRESS: Field = Field {
    place: 10,
    width: 42,
};
/// OuterCache in GITS_CBASER: bits [55:53].
const QUEUE_OUTER_CACHE: Field = Field {
    place: 53,
    width: 3,
};
/// InnerCache in GITS_CBASER: bits [61:59].
const QUEUE_INNER_CACHE: Field = Field {
    place: 59,
    width: 3,
};
/// Valid in GITS_CBASER.
const VALID: Field = Field {
    place: 63,
    width: 1,
};
/// IDbits in GICR_PROPBASER: bits [4:0].
const ID_BITS: Field = Field { place: 0, width: 5 };
/// InnerCache, Shareability and Physical_Address in GICR_PROPBASER: bits [51:7].
const PROPERTIES_ADDRESS: Field = Field {
    place: 7,
    width: 45,
};
/// OuterCache in GICR_PROPBASER and GICR_PENDBASER: bits [58:56].
const OUTER_CACHE: Field = Field {
    place: 56,
    width: 3,
};
/// InnerCache and Shareability in GICR_PENDBASER: bits [11:7].
const PENDING_ATTRIBUTES: Field = Field { place: 7, width: 5 };
/// Physical_Address in GICR_PENDBASER: bits [51:16].
const PENDING_ADDRESS: Field = Field {
    place: 16,
    width: 36,
};
/// PTZ in GICR_PENDBASER.
const TABLE_ZERO: Field = Field {
    place: 62,
    width: 1,
};
/// The address in GITS_CBASER and GICR_PROPBASER: bits [51:12].
const ADDRESS: Field = Field {
    place: 12,
    width: 40,
};

/// The bytes of the GIC's own memory.
pub const MEMORY_BYTES: u32 = 0x40_0000;
/// Where the queue stands there.
const QUEUE_PLACE: u32 = 0x10_0000;
/// Where the pending table of the first vCPU stands there.
const PENDING_PLACE: u32 = 0x20_0000;
/// Where its configuration table does.
const PROPERTIES_PLACE: u32 = 0x20_1000;
/// Where those of the next vCPU stand, from there on.
const VCPU_BYTES: u32 = 0x1_0000;

/// The bytes of a register that tells where the guest has something.
const BASE_BYTES: u32 = 8;
/// The offset of GITS_CBASER.
const CBASER: u32 = 0x80;
/// The offset of GICR_PROPBASER.
const PROPBASER: u32 = 0x70;
/// The offset of GICR_PENDBASER.
const PENDBASER: u32 = 0x78;

/// A register that tells where the guest has something.
#[derive(Clone, Copy, Debug, PartialEq, Eq)]
pub enum Base {
    /// The command queue: GITS_CBASER.
    Queue,
    /// The configuration table of LPIs: GICR_PROPBASER of a vCPU.
    Properties { vcpu: u32 },
    /// The pending table of LPIs: GICR_PENDBASER of a vCPU.
    Pending { vcpu: u32 },
}

impl Base {
    /// What the register keeps of a value.
    pub fn kept(self, value: u64) -> u64
        ensures { result ≡ kept_of self value }
    {
        match self {
            Base::Queue => {
                let caches = QUEUE_OUTER_CACHE.in_place(value) + QUEUE_INNER_CACHE.in_place(value);
                SIZE.in_place(value)
                    + QUEUE_ADDRESS.in_place(value)
                    + caches
                    + VALID.in_place(value)
            }
            Base::Properties { .. } => {
                ID_BITS.in_place(value)
                    + PROPERTIES_ADDRESS.in_place(value)
                    + OUTER_CACHE.in_place(value)
            }
            Base::Pending { .. } => {
                PENDING_ATTRIBUTES.in_place(value)
                    + PENDING_ADDRESS.in_place(value)
                    + OUTER_CACHE.in_place(value)
                    + TABLE_ZERO.in_place(value)
            }
        }
    }

    /// What it reads of what it keeps.
    pub fn read(self, kept: u64) -> u64
        ensures { result ≡ read_of self kept }
    {
        match self {
            Base::Pending { .. } => kept % (1 << TABLE_ZERO.place),
            Base::Queue | Base::Properties { .. } => kept,
        }
    }

    /// The guest's address in what it keeps.
    pub fn address(self, kept: u64) -> u64
        ensures value { result ≡ address_of self kept }
        ensures bound { result < 2 ^ 52 }
    {
        match self {
            Base::Pending { .. } => PENDING_ADDRESS.in_place(kept),
            Base::Queue | Base::Properties { .. } => ADDRESS.in_place(kept),
        }
    }

    /// The place that it stands for.
    fn place(self) -> u32
        requires { vcpu_of self < 32 }
        ensures { result ≡ place_of self }
    {
        match self {
            Base::Queue => QUEUE_PLACE,
            Base::Pending { vcpu } => PENDING_PLACE + VCPU_BYTES * vcpu,
            Base::Properties { vcpu } => PROPERTIES_PLACE + VCPU_BYTES * vcpu,
        }
    }

    /// What the ideal controller's register is written for what it keeps.
    fn placed(self, kept: u64) -> u64
        requires { vcpu_of self < 32 }
        ensures { result ≡ placed_of self kept }
    {
        let place = u64::from(self.place());
        match self {
            Base::Queue => SIZE.in_place(kept) + place + VALID.in_place(kept),
            Base::Properties { .. } => ID_BITS.in_place(kept) + place,
            Base::Pending { .. } => place + TABLE_ZERO.in_place(kept),
        }
    }

    /// Where the register is.
    fn frame(self) -> Frame
        ensures { result ≡ frame_of self }
    {
        match self {
            Base::Queue => Frame::Its,
            Base::Properties { vcpu } | Base::Pending { vcpu } => Frame::Redist { vcpu },
        }
    }

    /// Its offset there.
    fn offset(self) -> u32
        ensures { result ≡ offset_of self }
    {
        match self {
            Base::Queue => CBASER,
            Base::Properties { .. } => PROPBASER,
            Base::Pending { .. } => PENDBASER,
        }
    }

    /// The operation that writes the ideal controller's register the place that stands for what it keeps.
    pub fn placed_op(self, kept: u64) -> GuestOp
        requires { vcpu_of self < 32 }
        ensures { result ≡ placed_by self kept }
    {
        GuestOp::Mem {
            frame: self.frame(),
            offset: self.offset(),
            size: BASE_BYTES,
            write: Some(self.placed(kept)),
        }
    }
}

/// What the registers keep.
#[derive(Clone, Copy, Debug, PartialEq, Eq)]
pub struct Bases {
    /// GITS_CBASER.
    pub queue: u64,
    /// GICR_PROPBASER of each vCPU.
    pub properties: [u64; VCPUS],
    /// GICR_PENDBASER of each vCPU.
    pub pending: [u64; VCPUS],
}

impl Bases {
    /// After reset they are 0.
    pub fn new() -> Bases
        ensures { result ≡ no_bases }
    {
        Bases {
            queue: 0,
            properties: [0; VCPUS],
            pending: [0; VCPUS],
        }
    }

    /// What a register keeps.
    pub fn get(&self, base: Base) -> u64
        requires { vcpu_of base < 32 }
        ensures { result ≡ base_in self.now base }
    {
        match base {
            Base::Queue => self.queue,
            Base::Properties { vcpu } => self.properties[vcpu as usize],
            Base::Pending { vcpu } => self.pending[vcpu as usize],
        }
    }

    /// A register keeps this from now on.
    pub fn set(&mut self, base: Base, kept: u64)
        requires { vcpu_of base < 32 }
        ensures { self.new ≡ with_base self.old base kept }
    {
        match base {
            Base::Queue => self.queue = kept,
            Base::Properties { vcpu } => self.properties[vcpu as usize] = kept,
            Base::Pending { vcpu } => self.pending[vcpu as usize] = kept,
        }
    }
}
