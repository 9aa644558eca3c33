//! Bits and fields of a word.
use gic_frame::{Field, has_bit, put_bit};

/// A field of a list register, Priority: bits [55:48].
const PRIORITY: Field = Field {
    place: 48,
    width: 8,
};
/// All bits of a word.
const WHOLE: Field = Field {
    place: 0,
    width: 64,
};

#[test]
fn a_list_register(rt: HostRuntime) {
    let word = 0x50a0_0200_0000_0028;
    assert_eq!(rt; PRIORITY.of(word), 0xa0);
    assert_eq!(rt; PRIORITY.put(0xa0), 0x00a0_0000_0000_0000);
    assert_eq!(rt; PRIORITY.in_place(word), 0x00a0_0000_0000_0000);
    assert_eq!(rt; WHOLE.of(word), word);
    assert_eq!(rt; has_bit(word, 60), true);
    assert_eq!(rt; has_bit(word, 61), false);
    assert_eq!(rt; put_bit(true, 62), 0x4000_0000_0000_0000);
}
