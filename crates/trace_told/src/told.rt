//! The moments that an event of a trace says.
ghost use Rattle.std.specs.Prelude.{◌≡◌, ◌++◌, ◌∷◌, [], IfOk, IfSome, IfNone, OnOk, IsTrue, map, Some, None, ℕ, ◌<◌};
ghost use Rattle.std.specs.Option.{option_map_or};
ghost use Rattle.legal_play.specs.Calls.{ItsCtlr, Cbaser, Cwriter, Propbaser, CanHappen, CanTouch, has_place, touch_answer};
ghost use Rattle.legal_play.specs.Histories.{handed_out, irq_at, vcpu_of as vcpu_that_is, targets_in};
ghost use Rattle.legal_play.specs.Words.{has_interrupt, Lpi};
ghost use Rattle.legal_play.specs.GicCall.declared.event.Place.TheVariants.{Queue, Word};
ghost use Rattle.legal_play.specs.HistoryPlay.HistoryCheck.Ready.{IsReady};
ghost use Rattle.trace_told.specs.Given.{gives as gives_what, is_answer as is_answer_that};
ghost use Rattle.trace_told.specs.Told.{byte_place as byte_place_of, places_before as places_before_of, places_after as places_after_of, reading, moments_round, event_moments as event_moments_by, moments_told as moments_told_by, event_told as event_told_by};
ghost use Rattle.trace_told.specs.Untold.{IsEventUntold, IsUntold};

use crate::event::{event_told, operation_of};
use crate::fetch::has_read;
use crate::given::{is_answer, is_read_as};
use legal_play::{
    CallFound as Found, Event, GuestShape, Key, ListOf, Made, Moment, Operation, Place, PlainWord,
    State, Touching, can_happen,
};
use std::alloc::{AllocError, Global};
use trace_read::{Act, target_in};

/// The vCPU that an actor is, if it is one.
fn vcpu_of(shape: &GuestShape, actor: u32) -> Option<u32>
    ensures { result ≡ vcpu_that_is shape.now actor }
{
    if actor < shape.vcpus {
        Some(actor)
    } else {
        None
    }
}

/// Whether an answer is what a touch reads.
#[tactic(auto, using(crate::proofs::GivenLemmas::shown_there))]
fn is_touch_answer(state: &State, key: Key, touching: Touching, answer: Option<u64>) -> bool
    requires ready { IsReady state.now }
    requires can { CanTouch state.now.guest.shape key touching }
    ensures { result ≡ is_answer_that answer (touch_answer touching (irq_at state.now.guest key)) }
{
    let irq = state.irq(key);
    is_answer(answer, touching.answer(&irq))
}

/// Whether what is given of an event is what that hands out.
fn gives(
    state: &State,
    vcpu: Option<u32>,
    operation: Option<Operation>,
    piece: &[Made],
    act: &Act,
    event: &Event,
) -> bool
    requires ready { IsReady state.now }
    requires can { CanHappen state.now.guest.shape event.now }
    requires told { event_told_by state.now vcpu operation piece.now act.now ≡ Some event.now }
    ensures { result ≡ gives_what act.now (handed_out state.now event.now) }
{
    let _ = (vcpu, operation);
    let _ = piece;
    match *act {
        Act::Touch { key, what, answer } => is_touch_answer(state, key, what, answer),
        Act::Cpu { answer, .. } => match state.handed_out(event) {
            Found::Answer { value } => is_answer(answer, value),
            _ => true,
        },
        Act::Read { place, value } => is_read_as(place, value, &state.handed_out(event)),
        _ => true,
    }
}

/// A read of a place by an actor, with what is there.
fn read_at(state: &State, actor: u32, place: Place) -> Moment
    requires ready { IsReady state.now }
    requires there { IsTrue (has_place state.now.guest.shape place) }
    ensures { result ≡ reading state.now actor place }
{
    let event = Event::Read { place };
    let found = state.handed_out(&event);
    Moment::Happens {
        actor,
        event,
        found,
    }
}

/// The vCPU that an LPI is for, if it is for one.
pub fn target_of(state: &State, key: Key) -> Option<u32>
    requires ready { IsReady state.now }
    requires there { IsTrue (has_interrupt state.now.guest.shape key) }
    ensures { (id : ℕ) → key ≡ Lpi id → result ≡ targets_in state.now id }
{
    target_in(state.irq(key).route, state.shape())
}

/// The vCPU whose GICR_PROPBASER an event goes by, if it is a part that reads a configuration byte.
fn byte_vcpu(state: &State, event: &Event) -> Option<u32>
    requires ready { IsReady state.now }
    requires can { CanHappen state.now.guest.shape event.now }
    ensures value { option_map_or (λ vcpu. Some (Word (Propbaser vcpu))) result None ≡ byte_place_of state.now event.now }
    ensures there { IfSome result (λ vcpu. vcpu < state.now.guest.shape.vcpus) }
{
    match *event {
        Event::Touch {
            key: Key::Lpi(_),
            touching: Touching::MapLpi { target, .. },
        } => Some(target),
        Event::Touch {
            key,
            touching: Touching::Configure { .. },
        } => target_of(state, key),
        _ => None,
    }
}

/// Notes the read that stands before an event, if one does.
fn push_before(
    moments: &mut ListOf<Moment>,
    state: &State,
    actor: u32,
    piece: &[Made],
    event: &Event,
) -> Result<(), AllocError>
    requires ready { IsReady state.now }
    requires can { CanHappen state.now.guest.shape event.now }
    ensures { OnOk result (moments.new ≡ moments.old ++ map (reading state.now actor) (places_before_of state.now (vcpu_that_is state.now.guest.shape actor) piece.now event.now)) }
{
    let Some(of) = byte_vcpu(state, event) else {
        return Ok(());
    };
    let word = PlainWord::Propbaser { vcpu: of };
    let place = Place::Word { word };
    if !has_read(vcpu_of(state.shape(), actor), place, piece) {
        moments.push(read_at(state, actor, place))?;
    }
    Ok(())
}

/// Notes a read of a plain word.
fn push_word(
    moments: &mut ListOf<Moment>,
    state: &State,
    actor: u32,
    word: PlainWord,
) -> Result<(), AllocError>
    requires ready { IsReady state.now }
    requires there { IsTrue (has_place state.now.guest.shape (Word word)) }
    ensures { OnOk result (moments.new ≡ moments.old ++ reading state.now actor (Word word) ∷ []) }
{
    moments.push(read_at(state, actor, Place::Word { word }))
}

/// Notes the reads of the registers of the ITS, and of its queue.
fn push_registers(moments: &mut ListOf<Moment>, state: &State, actor: u32) -> Result<(), AllocError>
    requires ready { IsReady state.now }
    ensures { OnOk result (moments.new ≡ moments.old ++ map (reading state.now actor) (Word ItsCtlr ∷ Word Cbaser ∷ Word Cwriter ∷ Queue ∷ [])) }
{
    push_word(moments, state, actor, PlainWord::ItsCtlr)?;
    push_word(moments, state, actor, PlainWord::Cbaser)?;
    push_word(moments, state, actor, PlainWord::Cwriter)?;
    moments.push(read_at(state, actor, Place::Queue))
}

/// Notes the reads that stand behind an event.
fn push_after(
    moments: &mut ListOf<Moment>,
    state: &State,
    actor: u32,
    event: &Event,
    found: &Found,
) -> Result<(), AllocError>
    requires ready { IsReady state.now }
    requires can { CanHappen state.now.guest.shape event.now }
    ensures { OnOk result (moments.new ≡ moments.old ++ map (reading state.now actor) (places_after_of event.now found.now)) }
{
    match (*event, *found) {
        (Event::ItsBegin, _) => push_registers(moments, state, actor),
        (Event::Enable { vcpu }, Found::Lpis { is_on: false }) => {
            push_word(moments, state, actor, PlainWord::Pendbaser { vcpu })
        }
        _ => Ok(()),
    }
}

/// The moments of an event that is given so, with the reads that are put in.
fn with_reads(
    alloc: Global,
    state: &State,
    actor: u32,
    piece: &[Made],
    event: &Event,
) -> Result<ListOf<Moment>, AllocError>
    requires ready { IsReady state.now }
    requires can { CanHappen state.now.guest.shape event.now }
    ensures { IfOk result (λ moments. moments ≡ moments_round state.now actor piece.now event.now) }
{
    let mut moments = ListOf::new(alloc);
    push_before(&mut moments, state, actor, piece, event)?;
    let found = state.handed_out(event);
    moments.push(Moment::Happens {
        actor,
        event: *event,
        found,
    })?;
    push_after(&mut moments, state, actor, event, &found)?;
    Ok(moments)
}

/// The moments of an event of an actor in its call.
#[tactic(auto, using(crate::proofs::ToldLemmas::cannot, crate::proofs::ToldLemmas::ungiven))]
fn event_moments(
    alloc: Global,
    state: &State,
    actor: u32,
    operation: Option<Operation>,
    piece: &[Made],
    act: &Act,
) -> Result<Option<ListOf<Moment>>, AllocError>
    requires ready { IsReady state.now }
    ensures some { IfOk result (λ told. IfSome told (λ moments. event_moments_by state.now actor operation piece.now act.now ≡ Some moments)) }
    ensures none { IfOk result (λ told. IfNone told (IsEventUntold state.now actor operation piece.now act.now)) }
{
    let vcpu = vcpu_of(state.shape(), actor);
    let Some(event) = event_told(state, vcpu, operation, piece, act) else {
        return Ok(None);
    };
    if !can_happen(state.shape(), &event) {
        return Ok(None);
    }
    if !gives(state, vcpu, operation, piece, act, &event) {
        return Ok(None);
    }
    Ok(Some(with_reads(alloc, state, actor, piece, &event)?))
}

/// A list of one moment.
fn alone(alloc: Global, moment: Moment) -> Result<Option<ListOf<Moment>>, AllocError>
    ensures { IfOk result (λ told. told ≡ Some (moment ∷ [])) }
{
    let mut moments = ListOf::new(alloc);
    moments.push(moment)?;
    Ok(Some(moments))
}

/// The moments that an event of a trace says of an actor that is in a call for an operation, if it is in one, and made a piece in
/// it: the event's own, and the reads that are put in. None where the event can be no moment there. `AllocError` where
/// memory is refused.
pub fn moments_told(
    alloc: Global,
    state: &State,
    actor: u32,
    operation: Option<Operation>,
    piece: &[Made],
    act: &Act,
) -> Result<Option<ListOf<Moment>>, AllocError>
    requires ready { IsReady state.now }
    ensures some { IfOk result (λ told. IfSome told (λ moments. moments_told_by state.now actor operation piece.now act.now ≡ Some moments)) }
    ensures none { IfOk result (λ told. IfNone told (IsUntold state.now actor operation piece.now act.now)) }
{
    match *act {
        Act::Begin(call) => alone(
            alloc,
            Moment::Begin {
                actor,
                operation: operation_of(call),
            },
        ),
        Act::End(answer) => alone(alloc, Moment::End { actor, answer }),
        _ => event_moments(alloc, state, actor, operation, piece, act),
    }
}
