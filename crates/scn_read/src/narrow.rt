//! Numbers in 32 bits.
ghost use Rattle.std.specs.Prelude.{◌≡◌};
ghost use Rattle.scn_read.specs.Narrow.{narrowed as narrowed_of};

/// A number in 32 bits: the greatest one stands for all that are greater. No guest, vCPU, device, PE or interrupt has
/// such a number, and no frame such an offset.
pub(crate) fn narrowed(number: u64) -> u32
    ensures { result ≡ narrowed_of number }
{
    number.min(u64::from(u32::MAX)) as u32
}
