//! Whether a message-signalled interrupt raised what it signals, and what it signals by the maps that its call took.
ghost use Rattle.std.specs.Prelude.{◌≡◌};
ghost use Rattle.trace_told.specs.Calls.{is_its_enabled};
ghost use Rattle.trace_told.specs.Histories.{signalled_by, view_at};
ghost use Rattle.trace_told.specs.LegalLists.GicHistory.History.{midway_after as midway_after_of, is_midway as is_midway_of, changes_lpi as changes_lpi_of};
ghost use Rattle.trace_told.specs.LegalPlay.HistoryPlay.HistoryCheck.Ready.{IsReady};
ghost use Rattle.gic_check.specs.Notes.{is_midway_in, is_signal_in, lpi_noted};

use trace_told::{
    DeviceOp, Event, Key, ListOf, Made, Operation, PlainWord, State, Touching, has_bit, piece_of,
};

/// The bit of GITS_CTLR that is Enabled.
const ENABLED: u32 = 0;

/// Whether a touch is one by which a command of the ITS changes an LPI before the maps follow.
fn changes_lpi(touching: Touching) -> bool
    ensures { result ≡ changes_lpi_of touching }
{
    matches!(
        touching,
        Touching::MapLpi { .. }
            | Touching::Retarget { .. }
            | Touching::Configure { .. }
            | Touching::Forget
    )
}

/// Whether a call is midway in a command after an event, where it was before that, or not.
fn midway_after(before: bool, event: &Event) -> bool
    ensures { result ≡ midway_after_of before event.now }
{
    match *event {
        Event::ItsBegin | Event::Queue { .. } => false,
        Event::Touch { touching, .. } => before || changes_lpi(touching),
        _ => before,
    }
}

/// Whether a call that made this is midway in a command.
#[tactic(auto, using(crate::proofs::LoopLemmas::folded))]
fn is_midway(piece: &[Made]) -> bool
    ensures { result ≡ is_midway_of piece.now }
{
    let mut midway = false;
    for made in piece {
        midway = midway_after(midway, &made.event);
    }
    midway
}

/// Whether the actor that has the ITS, if one has it, is midway in a command.
fn has_midway(state: &State, pieces: &[ListOf<Made>]) -> bool
    ensures { result ≡ is_midway_in state.now pieces.now }
{
    match state.its_actor() {
        Some(actor) => is_midway(piece_of(pieces, actor)),
        None => false,
    }
}

/// Whether the ITS is enabled.
fn is_enabled(state: &State) -> bool
    requires { IsReady state.now }
    ensures { result ≡ is_its_enabled (view_at state.now) }
{
    has_bit(state.word(PlainWord::ItsCtlr), ENABLED)
}

/// The LPI that an operation signals, if it is a message-signalled interrupt and signals one.
fn signalled(state: &State, operation: &Operation) -> Option<u32>
    requires { IsReady state.now }
    ensures { result ≡ signalled_by state.now operation.now }
{
    match *operation {
        Operation::Device {
            op: DeviceOp::Msi { device, event },
        } => state
            .guest()
            .tables
            .translated(is_enabled(state), device, event),
        _ => None,
    }
}

/// Whether an event raises the LPI that an operation signals, while no command is midway.
pub(crate) fn is_signal(
    state: &State,
    pieces: &[ListOf<Made>],
    operation: &Operation,
    event: &Event,
) -> bool
    requires { IsReady state.now }
    ensures { result ≡ is_signal_in (is_midway_in state.now pieces.now) state.now operation.now event.now }
{
    match *event {
        Event::Raise { key: Key::Lpi(id) } => {
            signalled(state, operation) == Some(id) && !has_midway(state, pieces)
        }
        _ => false,
    }
}

/// The LPI that a call of an operation notes at an event of its own, where it noted this before: what a message-signalled interrupt signals while the ITS is
/// enabled, once it takes that.
pub(crate) fn lpi_after(
    state: &State,
    operation: &Operation,
    event: &Event,
    lpi: Option<u32>,
) -> Option<u32>
    requires { IsReady state.now }
    ensures { result ≡ lpi_noted state.now operation.now event.now lpi }
{
    match (*operation, *event) {
        (
            Operation::Device {
                op: DeviceOp::Msi { device, event },
            },
            Event::ItsBegin,
        ) => state.guest().tables.translated(true, device, event),
        _ => lpi,
    }
}
