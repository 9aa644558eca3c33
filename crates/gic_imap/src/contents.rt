//! What an ITS's registers hold.
ghost use Rattle.std.specs.Prelude.{◌≡◌, ◌≤◌, ◌<◌};
ghost use Rattle.gic_imap.specs.Contents.{enabled_in as enabled_kept, ctlr_of, typer_of, queue_bytes as bytes_of, cbaser_after as cbaser_stored, cwriter_after as cwriter_stored, retries as is_retry, creadr_of, baser_bits, baser_after as baser_stored, baser_of, queue_offset as offset_of};

use gic_frame::{Field, GuestShape, has_bit, put_bit};

/// GITS_CTLR.Enabled.
const ENABLED: u32 = 0;
/// GITS_CTLR.Quiescent.
const QUIESCENT: u32 = 31;
/// GITS_TYPER.Physical.
const PHYSICAL: u32 = 0;
/// GITS_TYPER.ITT_entry_size: bits [7:4].
const ITT_ENTRY_SIZE: Field = Field { place: 4, width: 4 };
/// GITS_TYPER.ID_bits: bits [12:8].
const ID_BITS: Field = Field { place: 8, width: 5 };
/// GITS_TYPER.Devbits: bits [17:13].
const DEV_BITS: Field = Field {
    place: 13,
    width: 5,
};
/// One less than the bytes of an entry of a table.
const ENTRY_BYTES: u64 = 7;
/// One less than the bits of an EventID and of a DeviceID.
const INDEX_BITS: u64 = 15;

/// Size in GITS_CBASER and GITS_BASER: bits [7:0].
const SIZE: Field = Field { place: 0, width: 8 };
/// Valid in GITS_CBASER and GITS_BASER: bit 63.
const VALID: Field = Field {
    place: 63,
    width: 1,
};
/// GITS_CBASER.Physical_Address: bits [51:12].
const CBASER_ADDRESS: Field = Field {
    place: 12,
    width: 40,
};
/// The bytes of a page of the queue.
const PAGE_BYTES: u32 = 4096;
/// GITS_CWRITER.Retry.
const RETRY: u32 = 0;
/// GITS_CREADR.Stalled.
const STALLED: u32 = 0;
/// Offset in GITS_CWRITER and GITS_CREADR: bits [19:5].
const OFFSET: Field = Field {
    place: 5,
    width: 15,
};

/// GITS_BASER.Page_Size: bits [9:8].
const PAGE_SIZE: Field = Field { place: 8, width: 2 };
/// GITS_BASER.Shareability: bits [11:10].
const SHAREABILITY: Field = Field {
    place: 10,
    width: 2,
};
/// GITS_BASER.Physical_Address: bits [47:12].
const BASER_ADDRESS: Field = Field {
    place: 12,
    width: 36,
};
/// GITS_BASER.Entry_Size: bits [52:48].
const ENTRY_SIZE: Field = Field {
    place: 48,
    width: 5,
};
/// GITS_BASER.OuterCache: bits [55:53].
const OUTER_CACHE: Field = Field {
    place: 53,
    width: 3,
};
/// GITS_BASER.Type: bits [58:56].
const TYPE: Field = Field {
    place: 56,
    width: 3,
};
/// GITS_BASER.InnerCache: bits [61:59].
const INNER_CACHE: Field = Field {
    place: 59,
    width: 3,
};

/// The table that a GITS_BASER names.
#[derive(Clone, Copy, Debug, PartialEq, Eq, Hash)]
pub enum Table {
    /// That of devices, in GITS_BASER0: Type 1.
    Devices,
    /// That of collections, in GITS_BASER1: Type 4.
    Collections,
}

/// What a write of GITS_CTLR keeps: Enabled.
pub fn enabled_in(value: u32) -> bool
    ensures { result ≡ enabled_kept value }
{
    has_bit(u64::from(value), ENABLED)
}

/// What GITS_CTLR reads: Enabled, and Quiescent exactly where it is not.
pub fn ctlr(enabled: bool) -> u32
    ensures value { result ≡ ctlr_of enabled }
    ensures back { enabled_kept result ≡ enabled }
{
    (put_bit(enabled, ENABLED) + put_bit(!enabled, QUIESCENT)) as u32
}

/// GITS_TYPER of a guest; 0 in a guest without LPIs, which has no ITS.
pub fn typer(shape: &GuestShape) -> u64
    ensures { result ≡ typer_of shape.now }
{
    if shape.lpis == 0 {
        return 0;
    }
    put_bit(true, PHYSICAL)
        + ITT_ENTRY_SIZE.put(ENTRY_BYTES)
        + ID_BITS.put(INDEX_BITS)
        + DEV_BITS.put(INDEX_BITS)
}

/// What GITS_CBASER stores, and reads, after a write of the whole register. `enabled` is Enabled of GITS_CTLR: while
/// it is 1 the write is ignored. No other bit than Size [7:0], the address [51:12] and Valid is kept.
pub fn cbaser_after(enabled: bool, stored: u64, value: u64) -> u64
    ensures { result ≡ cbaser_stored enabled stored value }
{
    if enabled {
        return stored;
    }
    SIZE.in_place(value) + CBASER_ADDRESS.in_place(value) + VALID.in_place(value)
}

/// The bytes of the queue that GITS_CBASER names, also while its Valid is 0: 4096 to 1048576, a multiple of 4096.
pub fn queue_bytes(cbaser: u64) -> u32
    ensures value { result ≡ bytes_of cbaser }
    ensures some { 4096 ≤ result }
    ensures most { result ≤ 1048576 }
{
    PAGE_BYTES * (SIZE.of(cbaser) as u32 + 1)
}

/// The offset in a value of GITS_CWRITER or GITS_CREADR, in bytes from the start of the queue: a multiple of 32 below
/// 1048576.
pub fn offset_in(value: u64) -> u64
    ensures value { result ≡ offset_of value }
    ensures bound { result < 1048576 }
{
    OFFSET.in_place(value)
}

/// What GITS_CWRITER stores, and reads, after a write of the whole register: the offset, or what it stored before where
/// the offset is not below the bytes of the queue that GITS_CBASER names.
pub fn cwriter_after(cbaser: u64, stored: u64, value: u64) -> u64
    ensures { result ≡ cwriter_stored cbaser stored value }
{
    let offset = offset_in(value);
    if offset < u64::from(queue_bytes(cbaser)) {
        offset
    } else {
        stored
    }
}

/// Whether a write of GITS_CWRITER ends a stall: its Retry is 1, and its offset is below the queue's bytes.
pub fn retries(cbaser: u64, value: u64) -> bool
    ensures { result ≡ is_retry cbaser value }
{
    offset_in(value) < u64::from(queue_bytes(cbaser)) && has_bit(value, RETRY)
}

/// What GITS_CREADR reads: Stalled, and the offset of the next command, a multiple of 32 below 1048576.
pub fn creadr(is_stalled: bool, offset: u32) -> u64
    ensures { result ≡ creadr_of is_stalled offset }
{
    put_bit(is_stalled, STALLED) + offset_in(u64::from(offset))
}

/// The fields of a GITS_BASER that are stored, of a value.
fn baser_fields(value: u64) -> u64
    ensures { result ≡ baser_bits value }
{
    let sizes = SIZE.in_place(value) + PAGE_SIZE.in_place(value);
    let caches = OUTER_CACHE.in_place(value) + INNER_CACHE.in_place(value);
    let table = SHAREABILITY.in_place(value) + BASER_ADDRESS.in_place(value);
    sizes + table + caches + VALID.in_place(value)
}

/// What a GITS_BASER stores after a write of the whole register. `enabled` is Enabled of GITS_CTLR: while it is 1 the
/// write is ignored. Type and Entry_Size are fixed, and not stored.
pub fn baser_after(enabled: bool, stored: u64, value: u64) -> u64
    ensures { result ≡ baser_stored enabled stored value }
{
    if enabled { stored } else { baser_fields(value) }
}

/// What a GITS_BASER reads of what it stores, with its Type and its Entry_Size.
pub fn baser(table: Table, stored: u64) -> u64
    ensures { result ≡ baser_of table stored }
{
    let number = match table {
        Table::Devices => 1,
        Table::Collections => 4,
    };
    baser_fields(stored) + ENTRY_SIZE.put(ENTRY_BYTES) + TYPE.put(number)
}
