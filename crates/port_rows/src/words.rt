//! The numbering of words, and what words say.
use port_core::{Line, pack_line, unpack_line};
use port_seq::{
    CtlrWord, Enables, GuestShape, Key, VcpuWord, WordId, index_bit, index_bits, index_words,
    key_of_bit, place_of_word, word_at, word_count,
};

/// 64 private interrupts, 32 SPIs, 32 extended SPIs and 40 LPIs make 168 in all; a vCPU's index has 136 bits in three words, so its
/// block has eight words. With 2 words of the queue and of GICD_CTLR and 1 + 4 + 6 plain words, the blocks begin at 184, and the 64
/// translation lines at 200, each on eight places.
const SHAPE: GuestShape = GuestShape {
    vcpus: 2,
    spis: 32,
    espis: 32,
    devices: 1,
    lpis: 40,
    ram: 8,
};

/// Words and their places.
const PLACES: [(WordId, usize); 16] = [
    (WordId::Irq(Key::Private { vcpu: 0, id: 0 }), 0),
    (WordId::Irq(Key::Private { vcpu: 1, id: 31 }), 63),
    (WordId::Irq(Key::Spi(32)), 64),
    (WordId::Irq(Key::Spi(4096)), 96),
    (WordId::Irq(Key::Lpi(8192)), 128),
    (WordId::Queue, 168),
    (WordId::Ctlr, 169),
    (WordId::Plain(0), 170),
    (WordId::Plain(10), 180),
    (WordId::Vcpu(0), 184),
    (WordId::Index { vcpu: 0, word: 2 }, 187),
    (WordId::Vcpu(1), 192),
    (WordId::Index { vcpu: 1, word: 0 }, 193),
    (WordId::Line(0), 200),
    (WordId::Line(1), 208),
    (WordId::Line(63), 704),
];

/// Interrupts that vCPU 1 can get, and their bits.
const BITS: [(Key, u32); 5] = [
    (Key::Private { vcpu: 1, id: 27 }, 27),
    (Key::Spi(40), 40),
    (Key::Spi(4100), 68),
    (Key::Lpi(8192), 96),
    (Key::Lpi(8231), 135),
];

#[test]
fn places_of_words(rt: HostRuntime) {
    assert!(rt; SHAPE.is_in_range());
    let words = word_count(&SHAPE);
    assert_eq!(rt; words, 712);
    for (word, place) in PLACES {
        assert!(rt; place < words);
        assert_eq!(rt; word_at(place, &SHAPE), Some(word));
    }
    assert_eq!(rt; place_of_word(WordId::Vcpu(1), &SHAPE), 192);
    assert_eq!(rt; place_of_word(WordId::Queue, &SHAPE), 168);
}

#[test]
fn places_of_no_word(rt: HostRuntime) {
    assert!(rt; SHAPE.is_in_range());
    let words = word_count(&SHAPE);
    for place in [181, 183, 188, 191, 196, 201, 207, 711] {
        assert!(rt; place < words);
        assert_eq!(rt; word_at(place, &SHAPE), None);
    }
}

#[test]
fn bits_of_interrupts(rt: HostRuntime) {
    assert!(rt; SHAPE.is_in_range());
    assert_eq!(rt; (index_bits(&SHAPE), index_words(&SHAPE)), (136, 3));
    for (key, bit) in BITS {
        assert_eq!(rt; key_of_bit(bit, 1, &SHAPE), key);
    }
    assert_eq!(rt; index_bit(Key::Spi(4100), &SHAPE), 68);
}

#[test]
fn words_of_a_vcpu(rt: HostRuntime) {
    for (lpis, kick, word) in [
        (false, false, 0),
        (true, false, 1),
        (false, true, 2),
        (true, true, 3),
    ] {
        assert_eq!(rt; VcpuWord { lpis, kick }.pack(), word);
        assert_eq!(rt; VcpuWord::of(word), VcpuWord { lpis, kick });
    }
}

#[test]
fn words_of_gicd_ctlr(rt: HostRuntime) {
    for (group0, group1, mark, word) in [
        (false, false, None, 0),
        (true, true, None, 3),
        (false, true, Some(0), 0b000_110),
        (true, false, Some(5), 0b101_101),
    ] {
        let ctlr = CtlrWord {
            enables: Enables { group0, group1 },
            mark,
        };
        assert_eq!(rt; ctlr.pack(), word);
        assert_eq!(rt; CtlrWord::of(word), ctlr);
    }
}

#[test]
fn words_of_a_line(rt: HostRuntime) {
    let empty = Line {
        pair: None,
        lpi: 8192,
        inside: 0,
    };
    let filled = Line {
        pair: Some((8, 3)),
        lpi: 8195,
        inside: 0b101,
    };
    let closed = Line {
        inside: 0b101,
        ..empty
    };
    for (line, word) in [(empty, 0), (filled, 0x20_000C_0075), (closed, 0b101)] {
        assert_eq!(rt; unpack_line(word), Some(line));
        assert_eq!(rt; Line::of(word), line);
    }
    assert_eq!(rt; pack_line(&empty), 0);
    assert_eq!(rt; pack_line(&filled), 0x20_000C_0075);
    for word in [3 << 5, 1 << 18, 1 << 50, (1 << 50) + (1 << 4)] {
        assert_eq!(rt; unpack_line(word), None);
    }
}
