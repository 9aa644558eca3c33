//! Whether the events of a piece are those that a call makes, in order, and hand out what is there.
ghost use Rattle.std.specs.Prelude.{◌≡◌, ◌↔◌, ◌<◌, IsTrue, IfSome, IfNone};
ghost use Rattle.std.specs.List.{list_all};
ghost use Rattle.history_calls.specs.Calls.{HandsOut, is_beside as is_beside_of};
ghost use Rattle.history_calls.specs.Counted.{IsCounted, IsUncounted};
ghost use Rattle.history_calls.specs.Exact.{is_told};
ghost use Rattle.history_calls.specs.Found.{seen_by};

use crate::found::is_same_found;
use crate::last::{irq_at, word_at};
use crate::made::Made;
use floor_calls::{Event, Found, Touching};

/// Whether an event is one that calls are not told by: a read, or a move at the actor's own CPU interface.
pub fn is_beside(actor: Option<u32>, event: &Event) -> bool
    ensures { result ≡ is_beside_of actor event.now }
{
    match *event {
        Event::Read { .. } => true,
        Event::Reach { vcpu, .. } | Event::Take { vcpu, .. } | Event::Leave { vcpu, .. } => {
            actor == Some(vcpu)
        }
        _ => false,
    }
}

/// Whether two touches are the same.
fn is_same_touching(one: Touching, other: Touching) -> bool
    ensures { IsTrue result ↔ (one ≡ other) }
{
    match (one, other) {
        (Touching::Read { kind: a }, Touching::Read { kind: b }) => a == b,
        (Touching::Register { kind: a, value: v }, Touching::Register { kind: b, value: w }) => a
            == b
            && v == w,
        (Touching::Enables { en0: a, en1: v }, Touching::Enables { en0: b, en1: w }) => a == b
            && v == w,
        (
            Touching::MapLpi {
                target: a,
                enabled: on,
                prio: v,
            },
            Touching::MapLpi {
                target: b,
                enabled: is_on,
                prio: w,
            },
        ) => a == b && on == is_on && v == w,
        (Touching::Retarget { target: a }, Touching::Retarget { target: b }) => a == b,
        (
            Touching::Configure {
                enabled: a,
                prio: v,
            },
            Touching::Configure {
                enabled: b,
                prio: w,
            },
        ) => a == b && v == w,
        (Touching::Forget, Touching::Forget) => true,
        _ => false,
    }
}

/// Whether an event is one that a call makes that neither takes the ITS nor sets EnableLPIs.
pub fn is_same_event(one: &Event, other: &Event) -> bool
    requires { IsTrue (is_told one.now) }
    ensures { IsTrue result ↔ (one.now ≡ other.now) }
{
    match (*one, *other) {
        (Event::Raise { key: a }, Event::Raise { key: b })
        | (Event::Up { key: a }, Event::Up { key: b })
        | (Event::Down { key: a }, Event::Down { key: b }) => a == b,
        (
            Event::Touch {
                key: a,
                touching: v,
            },
            Event::Touch {
                key: b,
                touching: w,
            },
        ) => a == b && is_same_touching(v, w),
        (
            Event::Cpu {
                vcpu: a,
                reg: r,
                write: v,
            },
            Event::Cpu {
                vcpu: b,
                reg: s,
                write: w,
            },
        ) => a == b && r == s && v == w,
        (Event::Put { word: a, value: v }, Event::Put { word: b, value: w }) => a == b && v == w,
        (Event::CtlrBegin { enables: a }, Event::CtlrBegin { enables: b }) => {
            a.group0 == b.group0 && a.group1 == b.group1
        }
        (Event::CtlrEnd, Event::CtlrEnd) => true,
        _ => false,
    }
}

/// Whether an event handed out what is there, as the piece found it.
fn hands_out(piece: &[Made], is_open: bool, event: &Event, found: &Found) -> bool
    requires { IsTrue (is_told event.now) }
    ensures { IsTrue result ↔ HandsOut (seen_by is_open piece.now) event.now found.now }
{
    let _ = is_open;
    match *event {
        Event::Touch { key, .. } => {
            let irq = irq_at(piece, key);
            is_same_found(found, &Found::Record { irq })
        }
        Event::Put { word, .. } => {
            let value = word_at(piece, word);
            is_same_found(found, &Found::Word { value })
        }
        Event::Cpu { .. } => matches!(found, Found::Answer { .. }),
        _ => is_same_found(found, &Found::Nothing),
    }
}

/// Whether an event that was made is this one, and handed out what is there.
fn is_so(piece: &[Made], is_open: bool, made: &Made, event: &Event) -> bool
    requires { IsTrue (is_told event.now) }
    ensures { IsTrue result ↔ ((event.now ≡ made.now.event) × HandsOut (seen_by is_open piece.now) event.now made.now.found) }
{
    is_same_event(event, &made.event) && hands_out(piece, is_open, event, &made.found)
}

/// How many of these events the named ones of a piece are, from the first on, where each hands out what is there. None where
/// they are others, or one hands out something else.
pub fn count_made(
    actor: Option<u32>,
    piece: &[Made],
    is_open: bool,
    events: &[Event],
) -> Option<usize>
    requires { IsTrue (list_all is_told events.now) }
    ensures some { IfSome result (IsCounted actor (seen_by is_open piece.now) events.now piece.now) }
    ensures none { IfNone result (IsUncounted actor (seen_by is_open piece.now) events.now piece.now) }
{
    let mut count = 0;
    for made in piece {
        if is_beside(actor, &made.event) {
            continue;
        }
        if count >= events.len() || !is_so(piece, is_open, made, &events[count]) {
            return None;
        }
        count += 1;
    }
    Some(count)
}
