//! The lines of a register map.
ghost use Rattle.std.specs.Prelude.{◌≡◌, ◌<◌, ◌≤◌, ◌*◌, ◌^◌, IsTrue, IfSome};
ghost use Rattle.gic_frame.specs.Bank.{width_of, contains};
ghost use Rattle.gic_frame.specs.Line.{bank_of, found_in, line_at, found_at};

use crate::bank::{Access, Bank, Half};
use crate::part::{BYTE_BITS, access_of, part_bits, parts_in};
use floor_words::Kind;

/// One line of a register map.
#[derive(Clone, Copy, Debug, PartialEq, Eq, Hash)]
pub enum Line<R> {
    /// A register: its byte offset, the accesses that it takes, and which it is.
    Register(u32, Access, R),
    /// The registers of a kind that have a part for each of some interrupts: the byte offset of the first register,
    /// the kind, the INTID of the first interrupt, and how many interrupts there are. How many registers these
    /// fill, and which accesses they take, follows from the kind.
    Interrupts(u32, Kind, u16, u16),
}

/// What an access is to, by the line of a register map.
#[derive(Clone, Copy, Debug, PartialEq, Eq, Hash)]
pub enum Found<R> {
    /// A register, or a half of it.
    InRegister {
        reg: R,
        half: Half,
    },
    /// The parts of `count` interrupts from the INTID `first` on, from the lowest bit on. Where `half` is not
    /// the whole, it is that half of the part of `first` alone, an IROUTER, and `count` is 0.
    InParts {
        kind: Kind,
        first: u32,
        count: u32,
        half: Half,
    },
}

impl<R> Line<R> {
    /// The registers of the line.
    pub fn bank(&self) -> Bank
        ensures value { result ≡ bank_of self.now }
        ensures bytes { result.count * width_of result.access < 2 ^ 20 }
    {
        match *self {
            Line::Register(start, access, _) => Bank {
                start,
                count: 1,
                access,
            },
            Line::Interrupts(start, kind, _, count) => {
                let access = access_of(kind);
                let bytes = u32::from(count) * part_bits(kind) / BYTE_BITS;
                Bank {
                    start,
                    count: bytes / access.width(),
                    access,
                }
            }
        }
    }
}

impl<R: Copy> Line<R> {
    /// What an access of `size` bytes is to, `byte` bytes after the start of the line's first register.
    fn found(&self, byte: u32, size: u32, half: Half) -> Found<R>
        requires within { byte < 2 ^ 20 }
        requires small { size ≤ 8 }
        ensures { result ≡ found_in self.now byte size half }
    {
        match *self {
            Line::Register(_, _, reg) => Found::InRegister { reg, half },
            Line::Interrupts(_, kind, first, _) => Found::InParts {
                kind,
                first: u32::from(first) + parts_in(kind, byte),
                count: parts_in(kind, size),
                half,
            },
        }
    }
}

/// The first line that has a register at a byte offset. None exactly where none has.
fn line_with<R: Copy>(lines: &[Line<R>], offset: u32) -> Option<Line<R>>
    ensures value { result ≡ line_at lines.now offset }
    ensures there { IfSome result (λ line. IsTrue (contains (bank_of line) offset)) }
{
    lines
        .iter()
        .copied()
        .find(|line| line.bank().contains(offset))
}

/// What an access of `size` bytes at a byte offset is to, in a register map. None exactly where no line has a
/// register at the offset, or it takes no such access, or the offset is not a multiple of the size.
pub fn find<R: Copy>(lines: &[Line<R>], offset: u32, size: u32) -> Option<Found<R>>
    ensures { result ≡ found_at lines.now offset size }
{
    let line = line_with(lines, offset)?;
    let bank = line.bank();
    let half = bank.half(offset, size)?;
    Some(line.found(offset - bank.start, size, half))
}
