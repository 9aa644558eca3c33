//! Where a command's fields stand (IHI 0069, "ITS commands").
ghost use Rattle.std.specs.Prelude.{◌≡◌, ◌≤◌, ◌<◌, ◌+◌, ◌*◌, ◌^◌, length, slice_index};
ghost use Rattle.floor_words.specs.Words.{field_at};

use floor_words::Field;

/// A field of a command.
#[derive(Clone, Copy)]
pub struct CommandField {
    /// The number of its doubleword.
    pub word: usize,
    /// Where it stands in the doubleword.
    pub bits: Field,
}

/// The command's number: DW0 [7:0].
pub const NUMBER: CommandField = CommandField {
    word: 0,
    bits: Field { place: 0, width: 8 },
};
/// DeviceID: DW0 [63:32].
pub const DEVICE: CommandField = CommandField {
    word: 0,
    bits: Field {
        place: 32,
        width: 32,
    },
};
/// EventID: DW1 [31:0].
pub const EVENT: CommandField = CommandField {
    word: 1,
    bits: Field {
        place: 0,
        width: 32,
    },
};
/// pINTID: DW1 [63:32].
pub const PINTID: CommandField = CommandField {
    word: 1,
    bits: Field {
        place: 32,
        width: 32,
    },
};
/// Size, the number of EventID bits minus 1: DW1 [4:0].
pub const SIZE: CommandField = CommandField {
    word: 1,
    bits: Field { place: 0, width: 5 },
};
/// ITT_addr: DW2 [51:8].
pub const ITT_ADDR: CommandField = CommandField {
    word: 2,
    bits: Field {
        place: 8,
        width: 44,
    },
};
/// ICID: DW2 [15:0].
pub const ICID: CommandField = CommandField {
    word: 2,
    bits: Field {
        place: 0,
        width: 16,
    },
};
/// RDbase: DW2 [50:16] (the upper end is an own choice).
pub const RDBASE: CommandField = CommandField {
    word: 2,
    bits: Field {
        place: 16,
        width: 35,
    },
};
/// V: DW2 bit 63.
pub const VALID: CommandField = CommandField {
    word: 2,
    bits: Field {
        place: 63,
        width: 1,
    },
};
/// The second RDbase: DW3 [50:16] (the upper end is an own choice).
pub const SECOND: CommandField = CommandField {
    word: 3,
    bits: Field {
        place: 16,
        width: 35,
    },
};

impl CommandField {
    /// The field's value in a command.
    pub fn of(self, words: &[u64; 4]) -> u64
        requires word { self.word < 4 }
        requires some { 1 ≤ self.bits.width }
        requires within { self.bits.place + self.bits.width ≤ 64 }
        ensures value { result ≡ field_at (slice_index words.now self.word) self.bits.place self.bits.width }
        ensures bound { result < 2 ^ self.bits.width }
    {
        self.bits.of(words[self.word])
    }

    /// The doubleword with this value, which fits, in the field and 0 in all other bits.
    pub fn put(self, value: u64) -> u64
        requires some { 1 ≤ self.bits.width }
        requires within { self.bits.place + self.bits.width ≤ 64 }
        requires fits { value < 2 ^ self.bits.width }
        ensures { result ≡ value * 2 ^ self.bits.place }
    {
        self.bits.put(value)
    }
}
