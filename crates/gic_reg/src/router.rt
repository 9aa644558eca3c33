//! The affinity in an IROUTER (IHI 0069, GICD_IROUTER<n>).
ghost use Rattle.std.specs.Prelude.{◌≡◌};
ghost use Rattle.gic_reg.specs.Router.{router_of, affinity_in as affinity_within};

use gic_frame::Field;

/// Aff2, Aff1 and Aff0 in the register, and in an affinity: bits [23:0].
const LOWER_AFFINITIES: Field = Field {
    place: 0,
    width: 24,
};
/// Aff3 in an affinity: bits [31:24].
const AFF3: Field = Field {
    place: 24,
    width: 8,
};
/// Aff3 in the register: bits [39:32].
const ROUTER_AFF3: Field = Field {
    place: 32,
    width: 8,
};

/// What an IROUTER reads that stores an affinity.
pub fn router_with(affinity: u32) -> u64
    ensures value { result ≡ router_of affinity }
    ensures back { affinity_within result ≡ affinity }
{
    let affinity = u64::from(affinity);
    LOWER_AFFINITIES.of(affinity) + ROUTER_AFF3.put(AFF3.of(affinity))
}

/// The affinity that an IROUTER stores after a write: all but Aff3, Aff2, Aff1 and Aff0 is ignored.
pub fn affinity_in(value: u64) -> u32
    ensures { result ≡ affinity_within value }
{
    (LOWER_AFFINITIES.of(value) + AFF3.put(ROUTER_AFF3.of(value))) as u32
}
