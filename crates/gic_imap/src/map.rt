//! The register map of an ITS.
ghost use Rattle.std.specs.Prelude.{◌≡◌, IsTrue};
ghost use Rattle.gic_frame.specs.Line.{is_in_order};
ghost use Rattle.gic_imap.specs.Map.{lines, decoded};

use gic_frame::{Access, Found, Half, Line, find};

/// A register of an ITS.
#[derive(Clone, Copy, Debug, PartialEq, Eq, Hash)]
pub enum Reg {
    /// GITS_CTLR
    Ctlr,
    /// GITS_IIDR
    Iidr,
    /// GITS_TYPER
    Typer,
    /// GITS_CBASER
    Cbaser,
    /// GITS_CWRITER
    Cwriter,
    /// GITS_CREADR
    Creadr,
    /// GITS_BASER0, the devices
    Baser0,
    /// GITS_BASER1, the collections
    Baser1,
    /// GITS_PIDR2
    Pidr2,
}

/// What an access is to.
#[derive(Clone, Copy, Debug, PartialEq, Eq, Hash)]
pub enum RegRef {
    /// A register, or a half of it.
    Plain { reg: Reg, half: Half },
    /// Nothing: it reads 0 and ignores writes.
    Reserved,
}

/// The map, by rising offsets.
const LINES: [Line<Reg>; 9] = [
    Line::Register(0x0000, Access::Word, Reg::Ctlr),
    Line::Register(0x0004, Access::Word, Reg::Iidr),
    Line::Register(0x0008, Access::Doubleword, Reg::Typer),
    Line::Register(0x0080, Access::Doubleword, Reg::Cbaser),
    Line::Register(0x0088, Access::Doubleword, Reg::Cwriter),
    Line::Register(0x0090, Access::Doubleword, Reg::Creadr),
    Line::Register(0x0100, Access::Doubleword, Reg::Baser0),
    Line::Register(0x0108, Access::Doubleword, Reg::Baser1),
    Line::Register(0xFFE8, Access::Word, Reg::Pidr2),
];

/// What an access of `size` bytes at a byte offset in the ITS's frames is to: the control frame at 0 and the
/// translation frame at 0x10000. Reserved exactly where the map has no register at the offset, or none that
/// takes such an access, or where the offset is not a multiple of the size.
pub fn decode(offset: u32, size: u32) -> RegRef
    ensures { result ≡ decoded offset size }
{
    match find(&LINES, offset, size) {
        Some(Found::InRegister { reg, half }) => RegRef::Plain { reg, half },
        Some(Found::InParts { .. }) | None => RegRef::Reserved,
    }
}

/// A law of the map: its lines are in the order of their offsets, within the frames and without overlap, and
/// each register is at a multiple of its width.
pub fn lines_are_in_order()
    ensures { IsTrue (is_in_order 0 0x20000 lines) }
{}
