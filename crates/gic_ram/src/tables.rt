//! Where the tables of LPIs have an LPI's configuration byte and pending bit, and what the byte says.
ghost use Rattle.std.specs.Prelude.{◌≡◌, ◌≤◌, ◌<◌, ◌%◌};
ghost use Rattle.gic_ram.specs.Tables.{first_lpi, last_lpi, is_enabled, priority_of, config_address as config_place, pending_address as pending_place};

use floor_words::{FIRST_LPI, Field, has_bit};

/// The enable bit of a configuration byte.
const CONFIG_ENABLE: u32 = 0;
/// The bits of a configuration byte's priority that count: [7:3] of the field [7:2].
const CONFIG_PRIORITY: Field = Field { place: 3, width: 5 };
/// The address in GICR_PROPBASER: bits [51:12].
const PROPBASER_ADDRESS: Field = Field {
    place: 12,
    width: 40,
};
/// The address in GICR_PENDBASER: bits [51:16].
const PENDBASER_ADDRESS: Field = Field {
    place: 16,
    width: 36,
};

/// How many pending bits a byte has.
const BYTE_BITS: u32 = 8;

/// Whether an LPI with this configuration byte is enabled, and its priority, a multiple of 8 (IHI 0069,
/// "LPI Configuration tables").
pub fn config_of(byte: u8) -> (bool, u8)
    ensures enabled { result.0 ≡ is_enabled byte }
    ensures priority { result.1 ≡ priority_of byte }
    ensures multiple { result.1 % 8 ≡ 0 }
{
    let byte = u64::from(byte);
    let priority = CONFIG_PRIORITY.in_place(byte);
    (has_bit(byte, CONFIG_ENABLE), priority as u8)
}

/// The byte address of an LPI's configuration byte, from GICR_PROPBASER and the INTID, 8192 to 65535. The
/// register's other bits do not matter; IDbits has no effect (own choice).
pub fn config_address(propbaser: u64, id: u32) -> u64
    requires first { first_lpi ≤ id }
    requires last { id ≤ last_lpi }
    ensures { result ≡ config_place propbaser id }
{
    PROPBASER_ADDRESS.in_place(propbaser) + u64::from(id - FIRST_LPI)
}

/// The byte address of an LPI's pending bit and the bit in that byte, from GICR_PENDBASER and the INTID, 8192
/// to 65535 (IHI 0069, "LPI Pending tables"). The register's other bits do not matter.
pub fn pending_address(pendbaser: u64, id: u32) -> (u64, u32)
    requires first { first_lpi ≤ id }
    requires last { id ≤ last_lpi }
    ensures value { result ≡ pending_place pendbaser id }
    ensures bit { result.1 < 8 }
{
    let table = PENDBASER_ADDRESS.in_place(pendbaser);
    (table + u64::from(id / BYTE_BITS), id % BYTE_BITS)
}
