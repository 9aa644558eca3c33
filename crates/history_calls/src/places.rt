//! Which place a call reads that neither takes the ITS nor sets EnableLPIs, and whether it was read so.
ghost use Rattle.std.specs.Prelude.{◌≡◌, ◌↔◌, [], IsTrue, false, Some};
ghost use Rattle.std.specs.List.{cons_option};
ghost use Rattle.history_calls.specs.Words.{IsShape};
ghost use Rattle.history_calls.specs.Registers.{is_size};
ghost use Rattle.history_calls.specs.Calls.{View, held_at, dist_places, redist_places, its_read_places, its_places, memory_places, sets_lpis, takes_turn, access_places};
ghost use Rattle.history_calls.specs.Exact.{is_plain, is_good, places_by};
ghost use Rattle.history_calls.specs.Found.{found_by, last_found, reads};

use crate::last::{last_read, word_at};
use crate::made::Made;
use floor_calls::{
    DistReg, DistRegRef as DistRef, Found, Frame, GuestOp, GuestShape, ItsReg, ItsRegRef as ItsRef,
    Operation, Place, PlainWord, RedistReg, RedistRegRef as RedistRef, dist_access, its_access,
    redist_access, split,
};

/// The place that a read of the distributor reads.
fn dist_place(reference: DistRef) -> Option<Place>
    ensures { cons_option result [] ≡ dist_places reference }
{
    match reference {
        DistRef::Plain {
            reg: DistReg::Ctlr,
            ..
        } => Some(Place::Ctlr),
        _ => None,
    }
}

/// The place that an access of a vCPU's redistributor reads that does not set EnableLPIs.
fn redist_place(
    shape: &GuestShape,
    vcpu: u32,
    reference: RedistRef,
    write: Option<u64>,
) -> Option<Place>
    requires { sets_lpis shape.now reference write ≡ false }
    ensures { (view : View) → cons_option result [] ≡ redist_places shape.now view vcpu reference write }
{
    let RedistRef::Plain { reg, .. } = reference else {
        return None;
    };
    match (reg, write) {
        (RedistReg::Ctlr, None) if shape.lpis != 0 => Some(Place::Lpis { vcpu }),
        (RedistReg::Propbaser, None) => Some(Place::Word {
            word: PlainWord::Propbaser { vcpu },
        }),
        (RedistReg::Pendbaser, None) => Some(Place::Word {
            word: PlainWord::Pendbaser { vcpu },
        }),
        (RedistReg::Propbaser | RedistReg::Pendbaser, Some(_)) => Some(Place::Lpis { vcpu }),
        _ => None,
    }
}

/// The place that a read of a register of the ITS reads.
fn its_reg_place(reg: ItsReg) -> Option<Place>
    ensures { cons_option result [] ≡ its_read_places reg }
{
    let word = match reg {
        ItsReg::Ctlr => PlainWord::ItsCtlr,
        ItsReg::Cbaser => PlainWord::Cbaser,
        ItsReg::Cwriter => PlainWord::Cwriter,
        ItsReg::Baser0 => PlainWord::Baser0,
        ItsReg::Baser1 => PlainWord::Baser1,
        ItsReg::Creadr => return Some(Place::Queue),
        ItsReg::Iidr | ItsReg::Typer | ItsReg::Pidr2 => return None,
    };
    Some(Place::Word { word })
}

/// The place that an access of the ITS reads that does not take it.
#[tactic(auto, using(crate::proofs::PlainLemmas::its_reads_none))]
fn its_place(shape: &GuestShape, reference: ItsRef, write: Option<u64>) -> Option<Place>
    requires { takes_turn shape.now reference write ≡ false }
    ensures { cons_option result [] ≡ its_places shape.now reference write }
{
    match (reference, write) {
        (ItsRef::Plain { reg, .. }, None) if shape.lpis != 0 => its_reg_place(reg),
        _ => None,
    }
}

/// The place that a read of memory reads.
fn memory_place(shape: &GuestShape, offset: u32, size: u32) -> Option<Place>
    requires shape { IsShape shape.now }
    requires size { IsTrue (is_size size) }
    ensures { cons_option result [] ≡ memory_places shape.now offset size }
{
    let part = split(u64::from(offset), size, shape.ram)?;
    Some(Place::Word {
        word: PlainWord::Ram { index: part.index },
    })
}

/// The place that an access of memory or of a memory-mapped register reads.
fn access_place(
    shape: &GuestShape,
    frame: Frame,
    offset: u32,
    size: u32,
    write: Option<u64>,
) -> Option<Place>
    requires shape { IsShape shape.now }
    requires good { IsTrue (is_good shape.now (Operation.Access (GuestOp.Mem frame offset size write))) }
    requires plain { IsTrue (is_plain shape.now (Operation.Access (GuestOp.Mem frame offset size write))) }
    ensures { (view : View) → cons_option result [] ≡ access_places shape.now view frame offset size write }
{
    match (frame, write) {
        (Frame::Dist, None) => dist_place(dist_access(offset, size, write)),
        (Frame::Redist { vcpu }, _) => {
            redist_place(shape, vcpu, redist_access(offset, size, write), write)
        }
        (Frame::Its, _) => its_place(shape, its_access(offset, size, write), write),
        (Frame::Ram, None) => memory_place(shape, offset, size),
        (Frame::Dist | Frame::Ram, Some(_)) => None,
    }
}

/// The place that an operation reads.
pub(crate) fn place_of(shape: &GuestShape, operation: &Operation) -> Option<Place>
    requires shape { IsShape shape.now }
    requires good { IsTrue (is_good shape.now operation.now) }
    requires plain { IsTrue (is_plain shape.now operation.now) }
    ensures { (view : View) → cons_option result [] ≡ places_by shape.now view operation.now }
{
    match *operation {
        Operation::Access {
            op: GuestOp::Mem {
                frame,
                offset,
                size,
                write,
            },
        } => access_place(shape, frame, offset, size, write),
        _ => None,
    }
}

/// Whether a place was read, the last time as the guest is found.
pub fn was_read(piece: &[Made], place: Place) -> bool
    ensures { IsTrue result ↔ (last_found (reads place) piece.now ≡ Some (held_at (found_by piece.now) place)) }
{
    match (place, last_read(piece, place)) {
        (Place::Word { word }, Some(Found::Word { value })) => word_at(piece, word) == value,
        (Place::Queue, Some(Found::Queue { .. }))
        | (Place::Ctlr, Some(Found::Ctlr { .. }))
        | (Place::Lpis { .. }, Some(Found::Lpis { .. })) => true,
        _ => false,
    }
}
