//! What a call answers, and which operations neither take the ITS nor set EnableLPIs.
ghost use Rattle.std.specs.Prelude.{◌≡◌, ◌↔◌, IsTrue, Contains};
ghost use Rattle.history_calls.specs.Words.{IsShape};
ghost use Rattle.history_calls.specs.Registers.{is_size};
ghost use Rattle.history_calls.specs.Calls.{has_frame, read_answer, access_value as access_value_in, sets_lpis as sets_lpis_of, takes_turn as takes_turn_of};
ghost use Rattle.history_calls.specs.Exact.{is_plain as is_plain_in, is_good, HasRecords, Answers, access_read};
ghost use Rattle.history_calls.specs.Found.{found_by};

use crate::events::low;
use crate::made::Made;
use crate::values::access_value;
use floor_calls::{
    DeviceOp, Event, Found, Frame, GuestOp, GuestShape, IccReg, ItsReg, ItsRegRef as ItsRef,
    Operation, RedistReg, RedistRegRef as RedistRef, enable_lpis_after, its_access, redist_access,
};

/// Whether an event is this access of a register of a vCPU's CPU interface, and read this.
fn is_read_of(
    made: &Made,
    actor: u32,
    register: IccReg,
    written: Option<u64>,
    answer: Option<u64>,
) -> bool
    ensures { IsTrue result ↔ (made.now ≡ access_read actor register written answer) }
{
    match (made.event, made.found) {
        (Event::Cpu { vcpu, reg, write }, Found::Answer { value }) => {
            vcpu == actor && reg == register && write == written && value == answer
        }
        _ => false,
    }
}

/// Whether an access of a register of a vCPU's CPU interface read this.
fn has_answer(
    piece: &[Made],
    actor: u32,
    reg: IccReg,
    write: Option<u64>,
    answer: Option<u64>,
) -> bool
    ensures { IsTrue result ↔ Contains piece.now (access_read actor reg write answer) }
{
    for made in piece {
        if is_read_of(made, actor, reg, write, answer) {
            return true;
        }
    }
    false
}

/// Whether this is the answer of an access of memory or of a memory-mapped register.
fn is_value(
    shape: &GuestShape,
    piece: &[Made],
    frame: Frame,
    offset: u32,
    size: u32,
    write: Option<u64>,
    answer: Option<u64>,
) -> bool
    requires shape { IsShape shape.now }
    requires records { HasRecords shape.now piece.now }
    requires size { IsTrue (is_size size) }
    requires frame { IsTrue (has_frame shape.now frame) }
    ensures { IsTrue result ↔ (answer ≡ read_answer write (access_value_in shape.now (found_by piece.now) frame offset size)) }
{
    match write {
        None => answer == Some(access_value(shape, piece, frame, offset, size)),
        Some(_) => answer.is_none(),
    }
}

/// Whether this is the answer of an operation, where its piece is whole.
pub(crate) fn is_answer(
    shape: &GuestShape,
    actor: u32,
    operation: &Operation,
    piece: &[Made],
    answer: Option<u64>,
) -> bool
    requires shape { IsShape shape.now }
    requires records { HasRecords shape.now piece.now }
    requires good { IsTrue (is_good shape.now operation.now) }
    ensures { IsTrue result ↔ Answers shape.now actor (found_by piece.now) operation.now piece.now answer }
{
    match *operation {
        Operation::Access {
            op: GuestOp::Icc { reg, write },
        } => has_answer(piece, actor, reg, write, answer),
        Operation::Access {
            op: GuestOp::Mem {
                frame,
                offset,
                size,
                write,
            },
        } => is_value(shape, piece, frame, offset, size, write, answer),
        Operation::Device { .. } | Operation::Residence => answer.is_none(),
    }
}

/// Whether an access of a redistributor sets EnableLPIs.
fn sets_lpis(shape: &GuestShape, reference: RedistRef, write: Option<u64>) -> bool
    ensures { result ≡ sets_lpis_of shape.now reference write }
{
    match (reference, write) {
        (
            RedistRef::Plain {
                reg: RedistReg::Ctlr,
                ..
            },
            Some(value),
        ) => enable_lpis_after(shape, false, low(value)),
        _ => false,
    }
}

/// Whether an access of the ITS takes it.
fn takes_turn(shape: &GuestShape, reference: ItsRef, write: Option<u64>) -> bool
    ensures { result ≡ takes_turn_of shape.now reference write }
{
    match (reference, write) {
        (ItsRef::Plain { reg, .. }, Some(_)) => {
            shape.lpis != 0
                && matches!(
                    reg,
                    ItsReg::Ctlr
                        | ItsReg::Cbaser
                        | ItsReg::Cwriter
                        | ItsReg::Baser0
                        | ItsReg::Baser1
                )
        }
        _ => false,
    }
}

/// Whether an operation neither takes the ITS nor sets EnableLPIs: so `call_begun` and `call_ended` judge its calls.
pub fn is_plain(shape: &GuestShape, operation: &Operation) -> bool
    requires { IsTrue (is_good shape.now operation.now) }
    ensures { result ≡ is_plain_in shape.now operation.now }
{
    match *operation {
        Operation::Access {
            op: GuestOp::Mem {
                frame: Frame::Redist { .. },
                offset,
                size,
                write,
            },
        } => !sets_lpis(shape, redist_access(offset, size, write), write),
        Operation::Access {
            op: GuestOp::Mem {
                frame: Frame::Its,
                offset,
                size,
                write,
            },
        } => !takes_turn(shape, its_access(offset, size, write), write),
        Operation::Device {
            op: DeviceOp::Msi { .. },
        } => false,
        _ => true,
    }
}
