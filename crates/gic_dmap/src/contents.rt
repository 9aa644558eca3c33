//! What the distributor's registers hold.
ghost use Rattle.std.specs.Prelude.{◌≡◌, ◌<◌};
ghost use Rattle.gic_frame.specs.Words.{IsShape};
ghost use Rattle.gic_dmap.specs.Contents.{typer_of, enables_in as enables_kept, ctlr_of, message_intid as intid_of};

use gic_frame::{Field, GuestShape, SPI_STEP, has_bit, put_bit};

/// GICD_TYPER.ITLinesNumber: bits [4:0].
const IT_LINES_NUMBER: Field = Field { place: 0, width: 5 };
/// GICD_TYPER.ESPI.
const ESPI: u32 = 8;
/// GICD_TYPER.MBIS.
const MBIS: u32 = 16;
/// GICD_TYPER.LPIS.
const LPIS: u32 = 17;
/// GICD_TYPER.IDbits: bits [23:19].
const ID_BITS: Field = Field {
    place: 19,
    width: 5,
};
/// One less than the bits of an INTID.
const INTID_BITS: u64 = 13;
/// GICD_TYPER.No1N.
const NO_1_OF_N: u32 = 25;
/// GICD_TYPER.RSS.
const RSS: u32 = 26;
/// GICD_TYPER.ESPI_range: bits [31:27].
const ESPI_RANGE: Field = Field {
    place: 27,
    width: 5,
};
/// GICD_CTLR.EnableGrp0.
const ENABLE_GRP0: u32 = 0;
/// GICD_CTLR.EnableGrp1.
const ENABLE_GRP1: u32 = 1;
/// GICD_CTLR.ARE.
const ARE: u32 = 4;
/// GICD_CTLR.DS.
const DS: u32 = 6;
/// GICD_CTLR.RWP.
const RWP: u32 = 31;
/// The INTID in GICD_SETSPI_NSR and GICD_CLRSPI_NSR: bits [12:0].
const INTID: Field = Field {
    place: 0,
    width: 13,
};

/// GICD_TYPER of a guest.
pub fn typer(shape: &GuestShape) -> u32
    requires { IsShape shape.now }
    ensures { result ≡ typer_of shape.now }
{
    let lines = IT_LINES_NUMBER.put(u64::from(shape.spis / SPI_STEP));
    let range = ESPI_RANGE.put(u64::from((shape.espis / SPI_STEP).saturating_sub(1)));
    let kinds = put_bit(shape.espis != 0, ESPI) + put_bit(shape.lpis != 0, LPIS);
    let fixed = put_bit(true, MBIS) + put_bit(true, NO_1_OF_N) + put_bit(true, RSS);
    (lines + kinds + fixed + ID_BITS.put(INTID_BITS) + range) as u32
}

/// The two group enables of GICD_CTLR, all that it keeps.
#[derive(Clone, Copy, Debug, PartialEq, Eq, Hash)]
pub struct Enables {
    /// EnableGrp0
    pub group0: bool,
    /// EnableGrp1
    pub group1: bool,
}

/// What a write of GICD_CTLR keeps.
pub fn enables_in(value: u32) -> Enables
    ensures { result ≡ enables_kept value }
{
    let value = u64::from(value);
    Enables {
        group0: has_bit(value, ENABLE_GRP0),
        group1: has_bit(value, ENABLE_GRP1),
    }
}

/// What GICD_CTLR reads. `is_spreading` says whether a write is still copying the group enables to the interrupts'
/// records (RWP).
pub fn ctlr(enables: Enables, is_spreading: bool) -> u32
    ensures value { result ≡ ctlr_of enables is_spreading }
    ensures back { enables_kept result ≡ enables }
{
    let enabled = put_bit(enables.group0, ENABLE_GRP0) + put_bit(enables.group1, ENABLE_GRP1);
    (enabled + put_bit(true, ARE) + put_bit(true, DS) + put_bit(is_spreading, RWP)) as u32
}

/// The INTID that a write of GICD_SETSPI_NSR or GICD_CLRSPI_NSR names, below 8192. Nothing happens where the guest
/// has no SPI of this INTID.
pub fn message_intid(value: u32) -> u32
    ensures value { result ≡ intid_of value }
    ensures small { result < 8192 }
{
    INTID.of(u64::from(value)) as u32
}
