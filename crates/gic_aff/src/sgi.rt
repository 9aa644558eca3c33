//! The write of ICC_SGI1R (IHI 0069, ICC_SGI1R_EL1).
ghost use Rattle.std.specs.Prelude.{◌≡◌, ◌&&◌, ◌<◌, ℕ, nat_lt};
ghost use Rattle.floor_words.specs.Words.{IsShape, has_bit as bit_is_set};
ghost use Rattle.gic_aff.specs.Sgi.{intid_of, is_to_aff0, is_listed as is_listed_in, is_target as is_target_of, targets_of};

use floor_words::{Field, GuestShape, has_bit};

/// TargetList has this many bits, from bit 0 on: one for each vCPU of a range.
const TARGETS: u32 = 16;
/// Aff1: bits [23:16].
const AFF1: Field = Field {
    place: 16,
    width: 8,
};
/// INTID: bits [27:24].
const INTID: Field = Field {
    place: 24,
    width: 4,
};
/// Aff2: bits [39:32].
const AFF2: Field = Field {
    place: 32,
    width: 8,
};
/// IRM.
const IRM: u32 = 40;
/// RS: bits [47:44].
const RS: Field = Field {
    place: 44,
    width: 4,
};
/// Aff3: bits [55:48].
const AFF3: Field = Field {
    place: 48,
    width: 8,
};

/// A set of vCPUs: bit k stands for vCPU k.
#[derive(Clone, Copy, Debug, PartialEq, Eq, Hash)]
pub struct Targets(pub u32);

/// The INTID of the SGI that a write sends, 0 to 15.
pub fn sgi_intid(value: u64) -> u32
    ensures value { result ≡ intid_of value }
    ensures is_sgi { result < 16 }
{
    INTID.of(value) as u32
}

/// Aff1, Aff2 and Aff3 are 0, as each vCPU's affinity has them.
fn goes_to_aff0(value: u64) -> bool
    ensures { result ≡ is_to_aff0 value }
{
    AFF1.of(value) == 0 && AFF2.of(value) == 0 && AFF3.of(value) == 0
}

/// RS names the vCPU's range of 16, and TargetList the vCPU in it.
fn is_listed(value: u64, vcpu: u32) -> bool
    ensures { result ≡ is_listed_in value vcpu }
{
    RS.of(value) == u64::from(vcpu / TARGETS) && has_bit(value, vcpu % TARGETS)
}

fn is_target(value: u64, sender: u32, vcpu: u32) -> bool
    ensures { result ≡ is_target_of value sender vcpu }
{
    if has_bit(value, IRM) {
        vcpu != sender
    } else {
        goes_to_aff0(value) && is_listed(value, vcpu)
    }
}

/// The vCPUs of the guest to which a write by the vCPU `sender` sends the SGI. With IRM 1 these are all but the
/// sender; else, where Aff1, Aff2 and Aff3 are 0, each vCPU 16 * RS + t for a bit t of TargetList that is 1.
pub fn sgi_targets(value: u64, sender: u32, shape: &GuestShape) -> Targets
    requires { IsShape shape.now }
    ensures value { result ≡ targets_of value sender shape.now }
    ensures members { (vcpu : ℕ) → bit_is_set result.0 vcpu ≡ (nat_lt vcpu shape.now.vcpus && is_target_of value sender vcpu) }
{
    let mut targets = 0;
    for vcpu in 0..shape.vcpus {
        if is_target(value, sender, vcpu) {
            targets += 1 << vcpu;
        }
    }
    Targets(targets)
}
