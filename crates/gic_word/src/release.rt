//! The bits of what a vCPU gives back as it releases an interrupt.
ghost use Rattle.std.specs.Prelude.{◌≡◌, ◌<◌};
ghost use Rattle.gic_base.specs.Shape.{max_vcpus};
ghost use Rattle.gic_word.specs.ReleaseBits.{cause_bits_of, active_bits_of};

use crate::places::{ACTIVE_BY, RISE_BIT, SOFT_BIT};
use gic_bits::put_bit;

/// The bits of the latched causes that come back: a fetch-or of them gives these causes to an interrupt.
pub fn cause_mask(rise: bool, soft: bool) -> u64
    ensures { result ≡ cause_bits_of rise soft }
{
    put_bit(soft, SOFT_BIT) + put_bit(rise, RISE_BIT)
}

/// The bits of a vCPU's number, below [`gic_base::MAX_VCPUS`]: a fetch-or of them makes an interrupt that is
/// active by none active by this vCPU.
pub fn active_mask(vcpu: u32) -> u64
    requires { vcpu < max_vcpus }
    ensures { result ≡ active_bits_of vcpu }
{
    ACTIVE_BY.put(u64::from(vcpu) + 1)
}
