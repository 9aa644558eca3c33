//! The registers that identify a frame, the same in each.
ghost use Rattle.std.specs.Prelude.{◌≡◌};
ghost use Rattle.gic_frame.specs.Identity.{iidr, pidr2};

/// IIDR: no implementer, revision or product (own choice).
pub const IIDR: u32 = 0;
/// PIDR2: ArchRev [7:4] is 3, GICv3 (IHI 0069, GICD_PIDR2).
pub const PIDR2: u32 = 0x30;

/// A law of the identification registers: each reads what it is defined to.
pub fn identity_is_fixed()
    ensures iidr { IIDR ≡ iidr }
    ensures pidr2 { PIDR2 ≡ pidr2 }
{}
