//! The register map of a redistributor.
ghost use Rattle.std.specs.Prelude.{◌≡◌, IsTrue};
ghost use Rattle.gic_frame.specs.Line.{is_in_order};
ghost use Rattle.gic_rmap.specs.Map.{lines, decoded, NamesIntids};
ghost use Rattle.gic_rmap.specs.Law.{PartsAreInPlace};

use gic_frame::{Access, Found, Half, Kind, Line, find};

/// A register of a redistributor that has no part for each interrupt.
#[derive(Clone, Copy, Debug, PartialEq, Eq, Hash)]
pub enum Reg {
    /// GICR_CTLR
    Ctlr,
    /// GICR_IIDR
    Iidr,
    /// GICR_TYPER
    Typer,
    /// GICR_PROPBASER
    Propbaser,
    /// GICR_PENDBASER
    Pendbaser,
    /// GICR_PIDR2
    Pidr2,
}

/// What an access is to.
#[derive(Clone, Copy, Debug, PartialEq, Eq, Hash)]
pub enum RegRef {
    /// The parts of `count` private interrupts from the INTID `first`, from the lowest bit on.
    Bits { kind: Kind, first: u32, count: u32 },
    /// A register, or a half of it.
    Plain { reg: Reg, half: Half },
    /// Nothing: it reads 0 and ignores writes.
    Reserved,
}

/// The map, by rising offsets: the RD frame, and the SGI frame from 0x10000.
const LINES: [Line<Reg>; 15] = [
    Line::Register(0x0000, Access::Word, Reg::Ctlr),
    Line::Register(0x0004, Access::Word, Reg::Iidr),
    Line::Register(0x0008, Access::Doubleword, Reg::Typer),
    Line::Register(0x0070, Access::Doubleword, Reg::Propbaser),
    Line::Register(0x0078, Access::Doubleword, Reg::Pendbaser),
    Line::Register(0xFFE8, Access::Word, Reg::Pidr2),
    Line::Interrupts(0x10080, Kind::Group, 0, 32),
    Line::Interrupts(0x10100, Kind::SetEnable, 0, 32),
    Line::Interrupts(0x10180, Kind::ClearEnable, 0, 32),
    Line::Interrupts(0x10200, Kind::SetPending, 0, 32),
    Line::Interrupts(0x10280, Kind::ClearPending, 0, 32),
    Line::Interrupts(0x10300, Kind::SetActive, 0, 32),
    Line::Interrupts(0x10380, Kind::ClearActive, 0, 32),
    Line::Interrupts(0x10400, Kind::Priority, 0, 32),
    Line::Interrupts(0x10C00, Kind::Config, 0, 32),
];

/// What an access of `size` bytes at a byte offset in a redistributor's two frames is to. Reserved exactly
/// where the map has no register at the offset, or none that takes such an access, or where the offset is not
/// a multiple of the size.
pub fn decode(offset: u32, size: u32) -> RegRef
    ensures value { result ≡ decoded offset size }
    ensures intids { NamesIntids result }
{
    match find(&LINES, offset, size) {
        Some(Found::InRegister { reg, half }) => RegRef::Plain { reg, half },
        Some(
            Found::InParts {
                kind,
                first,
                count,
                ..
            },
        ) => RegRef::Bits { kind, first, count },
        None => RegRef::Reserved,
    }
}

/// A law of the map: its lines are in the order of their offsets, within the frames and without overlap, and
/// each register is at a multiple of its width.
pub fn lines_are_in_order()
    ensures { IsTrue (is_in_order 0 0x20000 lines) }
{}

/// A law of the map: the part of each private INTID is where the architecture has it, in the registers of each kind.
pub fn parts_are_in_place()
    ensures { PartsAreInPlace }
{}
