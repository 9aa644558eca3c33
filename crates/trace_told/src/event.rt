//! Which event one of a trace is.
ghost use Rattle.std.specs.Prelude.{◌≡◌};
ghost use Rattle.legal_play.specs.Words.{IsShape};
ghost use Rattle.legal_play.specs.HistoryPlay.HistoryCheck.Ready.{IsReady};
ghost use Rattle.trace_told.specs.Told.{actor_of as actor_number, operation_of as operation_called, is_stall as is_stall_of, queue_told as queue_told_by, enable_told as enable_told_by, put_told as put_told_by, event_told as event_told_by};

use crate::fetch::change_at;
use crate::given::{is_word, place_at, stored_of, word_at};
use legal_play::{Event, Frame, GuestOp, GuestShape, Made, Operation, QueueChange, State};
use trace_read::{Act, Actor, Place, TraceCall, enables_in};

/// The number of an actor in its guest, if it is there: the vCPUs come first, and then the devices.
pub fn actor_of(shape: &GuestShape, by: Actor) -> Option<u32>
    requires { IsShape shape.now }
    ensures { result ≡ actor_number shape.now by }
{
    match by {
        Actor::Vcpu { vcpu, .. } => (vcpu < shape.vcpus).then_some(vcpu),
        Actor::Device { device, .. } if device < shape.devices => Some(shape.vcpus + device),
        Actor::Device { .. } => None,
    }
}

/// What a call of a trace is for.
pub fn operation_of(call: TraceCall) -> Operation
    ensures { result ≡ operation_called call }
{
    match call {
        TraceCall::Vcpu(op) => Operation::Access { op },
        TraceCall::Device(op) => Operation::Device { op },
        TraceCall::Enter | TraceCall::Exit => Operation::Residence,
    }
}

/// Whether the queue stalls.
fn is_stall(change: QueueChange) -> bool
    ensures { result ≡ is_stall_of change }
{
    matches!(change, QueueChange::Stalls { .. })
}

/// A change of the queue, where that is given as stalled or not as it is.
fn queue_told(offset: u32, stalled: bool, change: QueueChange) -> Option<Event>
    ensures { result ≡ queue_told_by offset stalled change }
{
    if stalled == is_stall(change) {
        Some(Event::Queue { offset, change })
    } else {
        None
    }
}

/// EnableLPIs of the redistributor that a call accesses, if it does.
fn enable_told(operation: Option<Operation>) -> Option<Event>
    ensures { result ≡ enable_told_by operation }
{
    match operation {
        Some(
            Operation::Access {
                op: GuestOp::Mem {
                    frame: Frame::Redist { vcpu },
                    ..
                },
            },
        ) => Some(Event::Enable { vcpu }),
        _ => None,
    }
}

/// What is stored at a place that is given so.
fn put_told(place: Place, value: u64) -> Option<Event>
    ensures { result ≡ put_told_by place value }
{
    let stored = stored_of(place, value);
    if !is_word(place, value, stored) {
        return None;
    }
    match word_at(place) {
        Some(word) => Some(Event::Put {
            word,
            value: stored,
        }),
        None => None,
    }
}

/// The event that an actor makes, which is this vCPU if it is one, and is in a call for this, if it is in one, and made this
/// in it. None where it can be no event.
pub(crate) fn event_told(
    state: &State,
    vcpu: Option<u32>,
    operation: Option<Operation>,
    piece: &[Made],
    act: &Act,
) -> Option<Event>
    requires ready { IsReady state.now }
    ensures { result ≡ event_told_by state.now vcpu operation piece.now act.now }
{
    match *act {
        Act::Reach(key) => vcpu.map(|vcpu| Event::Reach { key, vcpu }),
        Act::Take(key) => vcpu.map(|vcpu| Event::Take { key, vcpu }),
        Act::Leave(key) => vcpu.map(|vcpu| Event::Leave { key, vcpu }),
        Act::Raise(key) => Some(Event::Raise { key }),
        Act::Up(key) => Some(Event::Up { key }),
        Act::Down(key) => Some(Event::Down { key }),
        Act::Cpu { reg, write, .. } => vcpu.map(|vcpu| Event::Cpu { vcpu, reg, write }),
        Act::Touch { key, what, .. } => Some(Event::Touch {
            key,
            touching: what,
        }),
        Act::Enable => enable_told(operation),
        Act::Read { place, .. } => Some(Event::Read {
            place: place_at(place),
        }),
        Act::Put { place, value } => put_told(place, value),
        Act::CtlrBegin { enables } => Some(Event::CtlrBegin {
            enables: enables_in(enables),
        }),
        Act::CtlrEnd => Some(Event::CtlrEnd),
        Act::ItsBegin => Some(Event::ItsBegin),
        Act::ItsEnd => Some(Event::ItsEnd),
        Act::Queue { offset, stalled } => {
            queue_told(offset, stalled, change_at(state, vcpu, operation, piece))
        }
        Act::Begin(_) | Act::End(_) => None,
    }
}
