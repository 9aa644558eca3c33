//! What a read answers that does not take the ITS, where the guest is as its call found it.
ghost use Rattle.std.specs.Prelude.{◌≡◌, ◌<◌, IsTrue, None};
ghost use Rattle.history_calls.specs.Words.{IsShape};
ghost use Rattle.history_calls.specs.Registers.{is_size};
ghost use Rattle.history_calls.specs.Calls.{FitsDist, FitsRedist, has_frame, memory_at, dist_held as dist_held_in, dist_value as dist_value_in, redist_held as redist_held_in, redist_value as redist_value_in, its_held as its_held_in, its_value as its_value_in, access_value as access_value_in};
ghost use Rattle.history_calls.specs.Exact.{HasRecords};
ghost use Rattle.history_calls.specs.Found.{found_by};

use crate::events::low;
use crate::last::{enables_at, lpis_at, offset_at, spreads_at, stalled_at, word_at};
use crate::made::Made;
use crate::parts::{part, part_value};
use floor_calls::{
    DistReg, DistRegRef as DistRef, Frame, GuestShape, IIDR, ItsReg, ItsRegRef as ItsRef, Kind,
    PIDR2, PlainWord, RedistReg, RedistRegRef as RedistRef, Table, baser, creadr, dist_access,
    dist_ctlr, dist_typer, enabled_in, extract, its_access, its_ctlr, its_typer, pendbaser_read,
    redist_access, redist_ctlr, redist_typer, split,
};

/// What so many bytes of memory hold from an address on.
pub fn memory(shape: &GuestShape, piece: &[Made], address: u64, size: u32) -> u64
    requires shape { IsShape shape.now }
    requires size { IsTrue (is_size size) }
    ensures { result ≡ memory_at shape.now (found_by piece.now) address size }
{
    match split(address, size, shape.ram) {
        Some(part) => extract(word_at(piece, PlainWord::Ram { index: part.index }), &part),
        None => 0,
    }
}

/// What a register of the distributor holds that has no part for each interrupt.
fn dist_held(shape: &GuestShape, piece: &[Made], reg: DistReg) -> u64
    requires shape { IsShape shape.now }
    requires records { HasRecords shape.now piece.now }
    ensures { result ≡ dist_held_in shape.now (found_by piece.now) reg }
{
    match reg {
        DistReg::Ctlr => u64::from(dist_ctlr(enables_at(piece), spreads_at(piece))),
        DistReg::Typer => u64::from(dist_typer(shape)),
        DistReg::Iidr => u64::from(IIDR),
        DistReg::Router { id } => part(shape, piece, Frame::Dist, Kind::Routing, id, 0),
        DistReg::Pidr2 => u64::from(PIDR2),
        DistReg::SetSpi | DistReg::ClrSpi => 0,
    }
}

/// What a read of the distributor answers.
fn dist_value(shape: &GuestShape, piece: &[Made], reference: DistRef) -> u64
    requires shape { IsShape shape.now }
    requires records { HasRecords shape.now piece.now }
    requires fits { FitsDist reference None }
    ensures { result ≡ dist_value_in shape.now (found_by piece.now) reference }
{
    match reference {
        DistRef::Bits { kind, first, count } => {
            part_value(shape, piece, Frame::Dist, kind, first, count)
        }
        DistRef::Plain { reg, half } => half.of(dist_held(shape, piece, reg)),
        DistRef::Reserved => 0,
    }
}

/// What a register of a redistributor holds that has no part for each interrupt.
fn redist_held(shape: &GuestShape, piece: &[Made], vcpu: u32, reg: RedistReg) -> u64
    requires shape { IsShape shape.now }
    requires there { vcpu < shape.now.vcpus }
    ensures { result ≡ redist_held_in shape.now (found_by piece.now) vcpu reg }
{
    match reg {
        RedistReg::Ctlr => u64::from(redist_ctlr(shape, lpis_at(piece, false, vcpu))),
        RedistReg::Iidr => u64::from(IIDR),
        RedistReg::Typer => redist_typer(shape, vcpu),
        RedistReg::Propbaser => word_at(piece, PlainWord::Propbaser { vcpu }),
        RedistReg::Pendbaser => pendbaser_read(word_at(piece, PlainWord::Pendbaser { vcpu })),
        RedistReg::Pidr2 => u64::from(PIDR2),
    }
}

/// What a read of a vCPU's redistributor answers.
fn redist_value(shape: &GuestShape, piece: &[Made], vcpu: u32, reference: RedistRef) -> u64
    requires shape { IsShape shape.now }
    requires records { HasRecords shape.now piece.now }
    requires there { vcpu < shape.now.vcpus }
    requires fits { FitsRedist reference None }
    ensures { result ≡ redist_value_in shape.now (found_by piece.now) vcpu reference }
{
    match reference {
        RedistRef::Bits { kind, first, count } => {
            part_value(shape, piece, Frame::Redist { vcpu }, kind, first, count)
        }
        RedistRef::Plain { reg, half } => half.of(redist_held(shape, piece, vcpu, reg)),
        RedistRef::Reserved => 0,
    }
}

/// What a register of the ITS holds.
fn its_held(shape: &GuestShape, piece: &[Made], reg: ItsReg) -> u64
    ensures { result ≡ its_held_in shape.now (found_by piece.now) reg }
{
    match reg {
        ItsReg::Ctlr => {
            let is_enabled = enabled_in(low(word_at(piece, PlainWord::ItsCtlr)));
            u64::from(its_ctlr(is_enabled))
        }
        ItsReg::Iidr => u64::from(IIDR),
        ItsReg::Typer => its_typer(shape),
        ItsReg::Cbaser => word_at(piece, PlainWord::Cbaser),
        ItsReg::Cwriter => word_at(piece, PlainWord::Cwriter),
        ItsReg::Creadr => creadr(stalled_at(piece), offset_at(piece)),
        ItsReg::Baser0 => baser(Table::Devices, word_at(piece, PlainWord::Baser0)),
        ItsReg::Baser1 => baser(Table::Collections, word_at(piece, PlainWord::Baser1)),
        ItsReg::Pidr2 => u64::from(PIDR2),
    }
}

/// What a read of the ITS answers: 0 in a guest that has none.
fn its_value(shape: &GuestShape, piece: &[Made], reference: ItsRef) -> u64
    ensures { result ≡ its_value_in shape.now (found_by piece.now) reference }
{
    match reference {
        ItsRef::Plain { reg, half } if shape.lpis != 0 => half.of(its_held(shape, piece, reg)),
        _ => 0,
    }
}

/// What a read of memory or of a memory-mapped register answers.
pub(crate) fn access_value(
    shape: &GuestShape,
    piece: &[Made],
    frame: Frame,
    offset: u32,
    size: u32,
) -> u64
    requires shape { IsShape shape.now }
    requires records { HasRecords shape.now piece.now }
    requires size { IsTrue (is_size size) }
    requires frame { IsTrue (has_frame shape.now frame) }
    ensures { result ≡ access_value_in shape.now (found_by piece.now) frame offset size }
{
    match frame {
        Frame::Dist => dist_value(shape, piece, dist_access(offset, size, None)),
        Frame::Redist { vcpu } => {
            redist_value(shape, piece, vcpu, redist_access(offset, size, None))
        }
        Frame::Its => its_value(shape, piece, its_access(offset, size, None)),
        Frame::Ram => memory(shape, piece, u64::from(offset), size),
    }
}
