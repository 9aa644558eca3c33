//! What a machine has, and where its frames are in the guest's physical addresses.
ghost use Rattle.std.specs.Prelude.{◌≡◌, ◌≤◌, ◌<◌, ◌+◌, ◌^◌, IfSome};
ghost use Rattle.ideal_guest.specs.Words.{IsShape};
ghost use Rattle.gic_vm.specs.Layout.{is_placed as is_placed_at, are_apart, is_layout, dist_region, redist_region, its_region, offset_in, redist_at as redist_found, frame_at as frame_found, IsPlace};
ghost use Rattle.gic_vm.specs.State.{shape_of};

use guest_memory::MEMORY_BYTES;
use ideal_guest::{Frame, GuestShape};

/// The bytes of the distributor's frame.
const DISTRIBUTOR_BYTES: u64 = 0x1_0000;
/// The bytes of a redistributor's two frames.
const REDISTRIBUTOR_BYTES: u64 = 0x2_0000;
/// The bytes of the two frames of the ITS.
const ITS_BYTES: u64 = 0x2_0000;
/// Frames begin at multiples of this.
const PAGE_BYTES: u64 = 0x1_0000;
/// The first number that is no physical address.
const ADDRESSES: u64 = 1 << 52;

/// Where the frames are, by their first guest physical address, a multiple of 64 KiB.
#[derive(Clone, Copy, Debug, PartialEq, Eq, Hash)]
pub struct Layout {
    /// The distributor's 64 KiB.
    pub dist: u64,
    /// The redistributors, 128 KiB for each vCPU, side by side in the order of the vCPUs.
    pub redist: u64,
    /// The 128 KiB of the ITS.
    pub its: u64,
}

/// What a machine has.
#[derive(Clone, Copy, Debug, PartialEq, Eq, Hash)]
pub struct MachineSpec {
    /// vCPUs, 1 to 32.
    pub vcpus: u32,
    /// SPIs, 0 to 960, a multiple of 32: the INTIDs 32 to 31 + spis.
    pub spis: u32,
    /// Extended SPIs, 0 to 1024, a multiple of 32: the INTIDs 4096 to 4095 + espis.
    pub espis: u32,
    /// LPIs: none, or a power of two from 4 to 4096, as GICD_TYPER.num_LPIs tells it: the INTIDs 8192 to 8191 + lpis.
    pub lpis: u32,
    /// Where the frames are.
    pub layout: Layout,
}

impl MachineSpec {
    /// What the machine's guest has.
    pub(crate) fn shape(&self) -> GuestShape
        ensures { result ≡ shape_of self.now }
    {
        GuestShape {
            vcpus: self.vcpus,
            spis: self.spis,
            espis: self.espis,
            devices: 0,
            lpis: self.lpis,
            ram: if self.lpis == 0 { 0 } else { MEMORY_BYTES },
        }
    }
}

/// Some bytes from a guest physical address on.
#[derive(Clone, Copy, Debug, PartialEq, Eq, Hash)]
struct Region {
    base: u64,
    bytes: u64,
}

impl Region {
    /// Whether it begins at a multiple of 64 KiB and ends within the physical addresses.
    fn is_placed(self) -> bool
        requires { self.bytes ≤ 2 ^ 52 }
        ensures { result ≡ is_placed_at self }
    {
        self.base % PAGE_BYTES == 0 && self.base <= ADDRESSES - self.bytes
    }

    /// Whether it has no byte in common with another.
    fn is_apart_from(self, other: Region) -> bool
        requires within { self.base + self.bytes ≤ 2 ^ 52 }
        requires other_within { other.base + other.bytes ≤ 2 ^ 52 }
        ensures { result ≡ are_apart self other }
    {
        self.base + self.bytes <= other.base || other.base + other.bytes <= self.base
    }

    /// The offset of an address. None where the address is not there.
    fn offset_of(self, address: u64) -> Option<u64>
        ensures { result ≡ offset_in self address }
    {
        let offset = address.checked_sub(self.base)?;
        (offset < self.bytes).then_some(offset)
    }
}

/// The redistributor with the offset there, by an offset from the first one on.
fn redist_at(offset: u64) -> (Frame, u32)
    requires { offset < 2 ^ 32 }
    ensures { result ≡ redist_found offset }
{
    let vcpu = (offset / REDISTRIBUTOR_BYTES) as u32;
    (
        Frame::Redist { vcpu },
        (offset % REDISTRIBUTOR_BYTES) as u32,
    )
}

impl Layout {
    fn dist_region(&self) -> Region
        ensures { result ≡ dist_region self.now }
    {
        Region {
            base: self.dist,
            bytes: DISTRIBUTOR_BYTES,
        }
    }

    fn redist_region(&self, shape: &GuestShape) -> Region
        requires { IsShape shape.now }
        ensures { result ≡ redist_region shape.now self.now }
    {
        Region {
            base: self.redist,
            bytes: REDISTRIBUTOR_BYTES * u64::from(shape.vcpus),
        }
    }

    fn its_region(&self) -> Region
        ensures { result ≡ its_region self.now }
    {
        Region {
            base: self.its,
            bytes: ITS_BYTES,
        }
    }

    /// Whether the frames of a guest are placed, and no two have a byte in common.
    pub(crate) fn is_good(&self, shape: &GuestShape) -> bool
        requires { IsShape shape.now }
        ensures { result ≡ is_layout shape.now self.now }
    {
        let dist = self.dist_region();
        let redist = self.redist_region(shape);
        let its = self.its_region();
        dist.is_placed()
            && redist.is_placed()
            && its.is_placed()
            && dist.is_apart_from(redist)
            && dist.is_apart_from(its)
            && redist.is_apart_from(its)
    }

    /// The frame that a guest physical address is in, with the offset there, for a guest of this shape. None exactly outside of the frames. A VMM on
    /// threads finds so what a trapped access is of.
    #[tactic(auto, using(crate::proofs::LayoutLemmas::frame_there))]
    pub fn frame_at(&self, shape: &GuestShape, address: u64) -> Option<(Frame, u32)>
        requires { IsShape shape.now }
        ensures value { result ≡ frame_found shape.now self.now address }
        ensures there { IfSome result (IsPlace shape.now) }
    {
        if let Some(offset) = self.dist_region().offset_of(address) {
            return Some((Frame::Dist, offset as u32));
        }
        if let Some(offset) = self.redist_region(shape).offset_of(address) {
            return Some(redist_at(offset));
        }
        let offset = self.its_region().offset_of(address)?;
        Some((Frame::Its, offset as u32))
    }
}
