//! The translation lines of the ITS.
ghost use Rattle.std.specs.Prelude.{◌≡◌, ◌<◌, ◌≤◌, ◌^◌, IsSome, IfSome, IsTrue, ◌↔◌};
ghost use Rattle.core_words.specs.Forms.{IsLine, is_line_word, line_of, packed_line, pair_number, is_empty_line};

use ideal_guest::{Field, has_bit, put_bit};

/// What stands for no LPI; the LPIs come from here on, and a line's word has an LPI less this.
const NO_LPI: u32 = 8192;
/// The devices that are in the line, a bit each.
const INSIDE: Field = Field { place: 0, width: 4 };
/// The line has a message.
const PAIR: u32 = 4;
/// The LPI less 8192.
const LPI: Field = Field {
    place: 5,
    width: 13,
};
/// The EventID, where PAIR is 1.
const EVENT: Field = Field {
    place: 18,
    width: 16,
};
/// The DeviceID, where PAIR is 1.
const DEVICE: Field = Field {
    place: 34,
    width: 16,
};
/// How many bits the word of a line has at most.
const LINE_BITS: u32 = 50;

/// What a translation line says: which LPI a message of a device becomes, and which devices are about to raise it.
#[derive(Clone, Copy, Debug, PartialEq, Eq, Hash)]
pub struct Line {
    /// The DeviceID and the EventID of the message, below 65536 each, if the line has one.
    pub pair: Option<(u32, u32)>,
    /// The LPI that the message becomes, 8192 to 16383; 8192 where there is no message.
    pub lpi: u32,
    /// The devices that are in the line, a bit each: at most four.
    pub inside: u32,
}

/// The line that a device is in, with what it found there when it entered: the DeviceID and the EventID of the message,
/// and the LPI.
#[derive(Clone, Copy, Debug, PartialEq, Eq, Hash)]
pub struct Entered {
    pub line: u32,
    pub pair: (u32, u32),
    pub lpi: u32,
}

impl Line {
    /// No message and no device.
    pub const EMPTY: Line = Line {
        pair: None,
        lpi: NO_LPI,
        inside: 0,
    };

    /// Whether the line has neither a message nor a device.
    pub fn is_empty(&self) -> bool
        ensures { result ≡ is_empty_line self.now }
    {
        self.pair.is_none() && self.inside == 0
    }

    /// What the word of a line says.
    pub fn of(word: u64) -> Line
        ensures value { result ≡ line_of word }
    {
        let pair = (DEVICE.of(word) as u32, EVENT.of(word) as u32);
        Line {
            pair: has_bit(word, PAIR).then_some(pair),
            lpi: NO_LPI + LPI.of(word) as u32,
            inside: INSIDE.of(word) as u32,
        }
    }
}

/// The bits of a message.
fn pair_bits(pair: Option<(u32, u32)>) -> u64
    requires device { IfSome pair (λ pair. pair.0 < 65536) }
    requires event { IfSome pair (λ pair. pair.1 < 65536) }
    ensures { result ≡ pair_number pair }
{
    match pair {
        Some((device, event)) => {
            put_bit(true, PAIR) + EVENT.put(u64::from(event)) + DEVICE.put(u64::from(device))
        }
        None => 0,
    }
}

/// The word of a line.
pub fn pack_line(line: &Line) -> u64
    requires { IsLine line.now }
    ensures value { result ≡ packed_line line.now }
    ensures back { line_of result ≡ line.now }
    ensures well_formed { IsTrue (is_line_word result) }
{
    INSIDE.put(u64::from(line.inside))
        + LPI.put(u64::from(line.lpi - NO_LPI))
        + pair_bits(line.pair)
}

/// What the word of a line says. None exactly where the word is not well formed: a bit is 1 that belongs to no field, or
/// one of a message or of an LPI where there is no message.
pub fn unpack_line(word: u64) -> Option<Line>
    ensures exactly { IsSome result ↔ IsTrue (is_line_word word) }
    ensures value { IfSome result (λ line. line ≡ line_of word) }
    ensures packable { IfSome result IsLine }
    ensures back { IfSome result (λ line. packed_line line ≡ word) }
{
    let end = if has_bit(word, PAIR) { LINE_BITS } else { PAIR };
    if word >> end != 0 {
        return None;
    }
    Some(Line::of(word))
}
