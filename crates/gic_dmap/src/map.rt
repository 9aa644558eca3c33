//! The register map of the distributor.
ghost use Rattle.std.specs.Prelude.{◌≡◌, IsTrue};
ghost use Rattle.gic_frame.specs.Line.{is_in_order};
ghost use Rattle.gic_dmap.specs.Map.{lines, decoded, NamesIntids};
ghost use Rattle.gic_dmap.specs.Law.{PartsAreInPlace};

use gic_frame::{Access, Found, Half, Kind, Line, find};

/// A register of the distributor that has no part for each interrupt, or a half of one that has.
#[derive(Clone, Copy, Debug, PartialEq, Eq, Hash)]
pub enum Reg {
    /// GICD_CTLR
    Ctlr,
    /// GICD_TYPER
    Typer,
    /// GICD_IIDR
    Iidr,
    /// GICD_SETSPI_NSR
    SetSpi,
    /// GICD_CLRSPI_NSR
    ClrSpi,
    /// GICD_IROUTER of the SPI with this INTID, 32 to 1019 or 4096 to 5119, by halves.
    Router { id: u32 },
    /// GICD_PIDR2
    Pidr2,
}

/// What an access is to.
#[derive(Clone, Copy, Debug, PartialEq, Eq, Hash)]
pub enum RegRef {
    /// The parts of `count` interrupts from the INTID `first`, from the lowest bit on. A guest may have none or
    /// only some of these.
    Bits { kind: Kind, first: u32, count: u32 },
    /// A register, or a half of it.
    Plain { reg: Reg, half: Half },
    /// Nothing: it reads 0 and ignores writes.
    Reserved,
}

/// The map, by rising offsets. The registers of extended SPIs begin with the INTID 4096.
const LINES: [Line<Reg>; 26] = [
    Line::Register(0x0000, Access::Word, Reg::Ctlr),
    Line::Register(0x0004, Access::Word, Reg::Typer),
    Line::Register(0x0008, Access::Word, Reg::Iidr),
    Line::Register(0x0040, Access::WordOrLowHalf, Reg::SetSpi),
    Line::Register(0x0048, Access::WordOrLowHalf, Reg::ClrSpi),
    Line::Interrupts(0x0080, Kind::Group, 0, 1024),
    Line::Interrupts(0x0100, Kind::SetEnable, 0, 1024),
    Line::Interrupts(0x0180, Kind::ClearEnable, 0, 1024),
    Line::Interrupts(0x0200, Kind::SetPending, 0, 1024),
    Line::Interrupts(0x0280, Kind::ClearPending, 0, 1024),
    Line::Interrupts(0x0300, Kind::SetActive, 0, 1024),
    Line::Interrupts(0x0380, Kind::ClearActive, 0, 1024),
    Line::Interrupts(0x0400, Kind::Priority, 0, 1024),
    Line::Interrupts(0x0C00, Kind::Config, 0, 1024),
    Line::Interrupts(0x1000, Kind::Group, 4096, 1024),
    Line::Interrupts(0x1200, Kind::SetEnable, 4096, 1024),
    Line::Interrupts(0x1400, Kind::ClearEnable, 4096, 1024),
    Line::Interrupts(0x1600, Kind::SetPending, 4096, 1024),
    Line::Interrupts(0x1800, Kind::ClearPending, 4096, 1024),
    Line::Interrupts(0x1A00, Kind::SetActive, 4096, 1024),
    Line::Interrupts(0x1C00, Kind::ClearActive, 4096, 1024),
    Line::Interrupts(0x2000, Kind::Priority, 4096, 1024),
    Line::Interrupts(0x3000, Kind::Config, 4096, 1024),
    Line::Interrupts(0x6100, Kind::Routing, 32, 988),
    Line::Interrupts(0x8000, Kind::Routing, 4096, 1024),
    Line::Register(0xFFE8, Access::Word, Reg::Pidr2),
];

/// What an access of `size` bytes at a byte offset in the distributor's frame is to. Reserved exactly where
/// the map has no register at the offset, or none that takes such an access, or where the offset is not a
/// multiple of the size.
pub fn decode(offset: u32, size: u32) -> RegRef
    ensures value { result ≡ decoded offset size }
    ensures intids { NamesIntids result }
{
    match find(&LINES, offset, size) {
        Some(Found::InRegister { reg, half }) => RegRef::Plain { reg, half },
        Some(
            Found::InParts {
                kind,
                first,
                count,
                half,
            },
        ) => match half {
            Half::Whole => RegRef::Bits { kind, first, count },
            Half::Low | Half::High => RegRef::Plain {
                reg: Reg::Router { id: first },
                half,
            },
        },
        None => RegRef::Reserved,
    }
}

/// A law of the map: its lines are in the order of their offsets, within the frame and without overlap, and
/// each register is at a multiple of its width.
pub fn lines_are_in_order()
    ensures { IsTrue (is_in_order 0 0x10000 lines) }
{}

/// A law of the map: the part of each INTID is where the architecture has it, in the registers of each kind.
pub fn parts_are_in_place()
    ensures { PartsAreInPlace }
{}
