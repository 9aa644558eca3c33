//! Accesses of a memory of words, and the tables of LPIs in it.
use gic_ram::{Part, config_address, config_of, extract, insert, pending_address, split};

const RAM: u32 = 65536;

/// Address, size, and the word, lowest bit and bits of the part, or none.
const ACCESSES: [(u64, u32, Option<(u32, u32, u32)>); 12] = [
    (0x3003, 1, Some((0x600, 24, 8))),
    (0x1000, 8, Some((0x200, 0, 64))),
    (0x1048, 8, Some((0x209, 0, 64))),
    (0x1044, 4, Some((0x208, 32, 32))),
    (0x1046, 2, Some((0x208, 48, 16))),
    (0xffff, 1, Some((0x1fff, 56, 8))),
    (0xfff8, 8, Some((0x1fff, 0, 64))),
    (0x1001, 2, None),
    (0x1002, 4, None),
    (0x1004, 8, None),
    (0x1_0000, 1, None),
    (0xffff_ffff_ffff_fff8, 8, None),
];

#[test]
fn accesses(rt: HostRuntime) {
    for (address, size, place) in ACCESSES {
        let part = place.map(|(index, shift, bits)| Part { index, shift, bits });
        assert_eq!(rt; split(address, size, RAM), part);
    }
}

#[test]
fn a_byte_and_a_word(rt: HostRuntime) {
    let byte = Part {
        index: 0x600,
        shift: 24,
        bits: 8,
    };
    let written = insert(0x1122_3344_5566_7788, &byte, 0xa1);
    assert_eq!(rt; written, 0x1122_3344_a166_7788);
    assert_eq!(rt; extract(written, &byte), 0xa1);
    let whole = Part {
        index: 0,
        shift: 0,
        bits: 64,
    };
    assert_eq!(rt; insert(written, &whole, u64::MAX), u64::MAX);
    assert_eq!(rt; extract(written, &whole), written);
}

/// A configuration byte, whether it enables and the priority.
const BYTES: [(u8, bool, u8); 6] = [
    (0xa1, true, 0xa0),
    (0xa3, true, 0xa0),
    (0x41, true, 0x40),
    (0xa2, false, 0xa0),
    (0xff, true, 0xf8),
    (0x04, false, 0x00),
];

#[test]
fn configuration_bytes(rt: HostRuntime) {
    for (byte, enabled, priority) in BYTES {
        assert_eq!(rt; config_of(byte), (enabled, priority));
    }
}

#[test]
fn addresses_of_lpi_8195(rt: HostRuntime) {
    assert_eq!(rt; config_address(0x300d, 8195), 0x3003);
    assert_eq!(rt; pending_address(0x4000_0000_0001_0000, 8195), (0x10400, 3));
}
