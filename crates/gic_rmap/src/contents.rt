//! What a redistributor's registers hold.
ghost use Rattle.std.specs.Prelude.{◌≡◌, ◌<◌};
ghost use Rattle.gic_frame.specs.Words.{IsShape};
ghost use Rattle.gic_rmap.specs.Contents.{enable_lpis_after as lpis_enabled_after, ctlr_of, typer_of, propbaser_after as propbaser_stored, pendbaser_after as pendbaser_stored, pendbaser_read as pendbaser_shown};

use gic_frame::{Field, GuestShape, has_bit, put_bit};

/// GICR_CTLR.EnableLPIs.
const ENABLE_LPIS: u32 = 0;
/// GICR_TYPER.PLPIS.
const PLPIS: u32 = 0;
/// GICR_TYPER.Last.
const LAST: u32 = 4;
/// GICR_TYPER.Processor_Number: bits [23:8].
const PROCESSOR_NUMBER: Field = Field {
    place: 8,
    width: 16,
};
/// GICR_TYPER.Affinity_Value: bits [63:32].
const AFFINITY_VALUE: Field = Field {
    place: 32,
    width: 32,
};
/// GICR_PROPBASER.IDbits: bits [4:0].
const PROPBASER_ID_BITS: Field = Field { place: 0, width: 5 };
/// GICR_PROPBASER.Physical_Address: bits [51:12].
const PROPBASER_ADDRESS: Field = Field {
    place: 12,
    width: 40,
};
/// GICR_PENDBASER.Physical_Address: bits [51:16].
const PENDBASER_ADDRESS: Field = Field {
    place: 16,
    width: 36,
};
/// GICR_PENDBASER.PTZ: bit 62.
const PENDBASER_PTZ: Field = Field {
    place: 62,
    width: 1,
};

/// Whether EnableLPIs is 1 after a write of GICR_CTLR. It goes from 0 to 1 alone, and in a guest without LPIs it
/// stays as it is.
pub fn enable_lpis_after(shape: &GuestShape, enabled: bool, value: u32) -> bool
    ensures { result ≡ lpis_enabled_after shape.now enabled value }
{
    enabled || (shape.lpis != 0 && has_bit(u64::from(value), ENABLE_LPIS))
}

/// What GICR_CTLR reads: EnableLPIs, and 0 in a guest without LPIs.
pub fn ctlr(shape: &GuestShape, enabled: bool) -> u32
    ensures { result ≡ ctlr_of shape.now enabled }
{
    put_bit(shape.lpis != 0 && enabled, ENABLE_LPIS) as u32
}

/// GICR_TYPER of a vCPU of a guest.
pub fn typer(shape: &GuestShape, vcpu: u32) -> u64
    requires shape { IsShape shape.now }
    requires vcpu { vcpu < shape.now.vcpus }
    ensures { result ≡ typer_of shape.now vcpu }
{
    let is_last = vcpu + 1 == shape.vcpus;
    let number = u64::from(vcpu);
    put_bit(shape.lpis != 0, PLPIS)
        + put_bit(is_last, LAST)
        + PROCESSOR_NUMBER.put(number)
        + AFFINITY_VALUE.put(number)
}

/// What GICR_PROPBASER stores, and reads, after a write of the whole register. `enabled` is EnableLPIs: once it is 1
/// the write is ignored. No other bit than IDbits [4:0] and the address [51:12] is kept.
pub fn propbaser_after(enabled: bool, stored: u64, value: u64) -> u64
    ensures { result ≡ propbaser_stored enabled stored value }
{
    if enabled {
        return stored;
    }
    PROPBASER_ID_BITS.in_place(value) + PROPBASER_ADDRESS.in_place(value)
}

/// What GICR_PENDBASER stores after a write of the whole register. `enabled` is EnableLPIs: once it is 1 the write is
/// ignored. No other bit than the address [51:16] and PTZ, bit 62, is kept.
pub fn pendbaser_after(enabled: bool, stored: u64, value: u64) -> u64
    ensures { result ≡ pendbaser_stored enabled stored value }
{
    if enabled {
        return stored;
    }
    PENDBASER_ADDRESS.in_place(value) + PENDBASER_PTZ.in_place(value)
}

/// What GICR_PENDBASER reads of what it stores: the address; PTZ reads 0.
pub fn pendbaser_read(stored: u64) -> u64
    ensures { result ≡ pendbaser_shown stored }
{
    PENDBASER_ADDRESS.in_place(stored)
}
