//! The interrupts of a guest, and their numbering.
ghost use Rattle.std.specs.Prelude.{◌≡◌, ◌<◌, ℕ, IsTrue, IfSome, IfNone, nat_lt};
ghost use Rattle.gic_base.specs.Shape.{IsShape};
ghost use Rattle.gic_base.specs.Interrupt.{key_of as key_named, intid_of, is_sgi as is_of_sgi, is_within as is_one_of, is_of_vcpu, has_interrupt, interrupt_count as count_of, place_of as place_in, key_at as key_in, PlacesAreOrdered};

use crate::shape::GuestShape;

/// How many SGIs a vCPU has: the INTIDs 0 to 15.
pub const SGI_COUNT: u32 = 16;
/// How many private interrupts a vCPU has: the SGIs 0 to 15 and the PPIs 16 to 31.
pub const PRIVATE_COUNT: u32 = 32;
/// The INTID of the first shared peripheral interrupt.
pub const FIRST_SPI: u32 = 32;
/// The INTID of the first extended shared peripheral interrupt.
pub const FIRST_ESPI: u32 = 4096;
/// The INTID of the first LPI.
pub const FIRST_LPI: u32 = 8192;

/// One interrupt of a guest (IHI 0069, "INTIDs"). The order is: private ones by vCPU and INTID, then
/// SPIs, then LPIs.
#[derive(Clone, Copy, Debug, PartialEq, Eq, PartialOrd, Ord, Hash)]
pub enum Key {
    /// An SGI (INTID 0 to 15) or a PPI (16 to 31) of one vCPU.
    Private { vcpu: u32, id: u32 },
    /// A shared peripheral interrupt, by its INTID from 32, or an extended one, by its INTID from 4096.
    Spi(u32),
    /// A locality-specific peripheral interrupt, by its INTID from 8192.
    Lpi(u32),
}

impl Key {
    /// The INTID, which a CPU interface reads.
    pub fn intid(self) -> u32
        ensures { result ≡ intid_of self }
    {
        match self {
            Key::Private { id, .. } | Key::Spi(id) | Key::Lpi(id) => id,
        }
    }

    /// Whether this is an SGI, which is always edge-triggered.
    pub fn is_sgi(self) -> bool
        ensures { result ≡ is_of_sgi self }
    {
        match self {
            Key::Private { id, .. } => id < SGI_COUNT,
            Key::Spi(_) | Key::Lpi(_) => false,
        }
    }
}

/// Whether a number is one of so many from a first one on.
fn is_within(first: u32, count: u32, n: u32) -> bool
    ensures { result ≡ is_one_of first count n }
{
    n >= first && n - first < count
}

/// The interrupt that an INTID names at a vCPU. None exactly where the guest has no such interrupt:
/// for an INTID below 32 also where it has no such vCPU, which a shared interrupt does not look at.
pub fn key_of(id: u32, vcpu: u32, shape: &GuestShape) -> Option<Key>
    requires { IsShape shape.now }
    ensures value { result ≡ key_named id vcpu shape.now }
    ensures found { IfSome result (λ key. IsTrue (has_interrupt shape.now key)) }
    ensures none { IfNone result ((key : Key) → IsTrue (has_interrupt shape.now key) → IsTrue (is_of_vcpu vcpu key) → intid_of key ≡ id → ⊥) }
{
    let shape = *shape;
    if id < PRIVATE_COUNT {
        return (vcpu < shape.vcpus).then_some(Key::Private { vcpu, id });
    }
    if is_within(FIRST_SPI, shape.spis, id) || is_within(FIRST_ESPI, shape.espis, id) {
        return Some(Key::Spi(id));
    }
    is_within(FIRST_LPI, shape.lpis, id).then_some(Key::Lpi(id))
}

/// How many interrupts a guest has, each vCPU's private ones counted.
pub fn interrupt_count(shape: &GuestShape) -> usize
    requires { IsShape shape.now }
    ensures value { result ≡ count_of shape.now }
    ensures small { result < 8192 }
{
    (PRIVATE_COUNT * shape.vcpus + shape.spis + shape.espis + shape.lpis) as usize
}

/// The place of an interrupt among all of the guest's, in key order from 0.
pub fn place_of(key: Key, shape: &GuestShape) -> usize
    requires shape { IsShape shape.now }
    requires there { IsTrue (has_interrupt shape.now key) }
    ensures value { result ≡ place_in shape.now key }
    ensures within { result < count_of shape.now }
    ensures inverse { key_in shape.now result ≡ key }
{
    let private = PRIVATE_COUNT * shape.vcpus;
    let place = match key {
        Key::Private { vcpu, id } => PRIVATE_COUNT * vcpu + id,
        Key::Spi(id) if id < FIRST_ESPI => private + (id - FIRST_SPI),
        Key::Spi(id) => private + shape.spis + (id - FIRST_ESPI),
        Key::Lpi(id) => private + shape.spis + shape.espis + (id - FIRST_LPI),
    };
    place as usize
}

/// The interrupt at a place in key order.
pub fn key_at(place: usize, shape: &GuestShape) -> Key
    requires shape { IsShape shape.now }
    requires within { place < count_of shape.now }
    ensures value { result ≡ key_in shape.now place }
    ensures there { IsTrue (has_interrupt shape.now result) }
    ensures inverse { place_in shape.now result ≡ place }
{
    let place = place as u32;
    let private = PRIVATE_COUNT * shape.vcpus;
    let espis_from = private + shape.spis;
    let lpis_from = espis_from + shape.espis;
    if place < private {
        return Key::Private {
            vcpu: place / PRIVATE_COUNT,
            id: place % PRIVATE_COUNT,
        };
    }
    if place < espis_from {
        return Key::Spi(place - private + FIRST_SPI);
    }
    if place < lpis_from {
        return Key::Spi(place - espis_from + FIRST_ESPI);
    }
    Key::Lpi(place - lpis_from + FIRST_LPI)
}

/// A law of every shape in range: places follow the order of the keys.
pub fn places_are_ordered()
    ensures { PlacesAreOrdered ⟦<Key as Ord>⟧.cmp }
{}
