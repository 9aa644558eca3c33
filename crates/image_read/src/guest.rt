//! The guests of an image.
ghost use Rattle.std.specs.Prelude.{◌≡◌, List, All, map, length, Some, IfOk, IfSome};
ghost use Rattle.serde_json.specs.View.{view};
ghost use Rattle.gic_resume.specs.GicSave.Image.{guest_data, guests_data};
ghost use Rattle.gic_resume.specs.Reading.{guest_head, guest_heads};
ghost use Rattle.saved_check.specs.SavedGuest.IdealGuests.Words.{GuestShape as Shape, IsShape};
ghost use Rattle.saved_check.specs.SavedGuest.IdealGuests.Calls.{GuestSpec as Spec, IsGoodGuest};
ghost use Rattle.saved_check.specs.SavedGuest.ScnSaved.declared.state.GuestState.{GuestState as State};
ghost use Rattle.saved_check.specs.SavedGuest.Valid.{IsValidState};
ghost use Rattle.saved_check.specs.SavedGuest.Whole.{AreValidStates};
ghost use Rattle.image_read.specs.declared.guest.Registers.{Registers as ToldRegisters};
ghost use Rattle.image_read.specs.declared.guest.Tables.{Tables as ToldTables};
ghost use Rattle.image_read.specs.Tells.{TellsSpec, TellsRegisters, TellsTables, CanStand, CanBeMapped};

use crate::field::{flag_in, list_in, number_in, told_in};
use crate::kind::{COL, CPU, DEV, EVT, GICD, IRQS, ITS, ON, RAM, REC, REDIST, SHAPE};
use saved_check::{
    ColEnds, CpuStates, DevEnds, EvtEnds, GuestShape, GuestSpec, GuestState, Guests, ItsState,
    RamStates, RecStates, RedistStates, StateList,
};
use serde_json::Value;
use std::alloc::{AllocError, Global};

/// The registers and the interrupts of a guest.
#[derive(Drop)]
pub(crate) struct Registers {
    gicd: u32,
    cpu: CpuStates,
    rec: RecStates,
    redist: RedistStates,
}

/// The ITS of a guest, and its memory.
#[derive(Drop)]
pub(crate) struct Tables {
    its: Option<ItsState>,
    dev: DevEnds,
    evt: EvtEnds,
    col: ColEnds,
    ram: RamStates,
}

/// Guests, and the state of each.
#[derive(Drop)]
pub(crate) struct ToldGuests {
    pub(crate) guests: Guests,
    pub(crate) states: StateList,
}

/// What a guest is.
fn told_spec(alloc: Global, value: &Value) -> Result<Option<GuestSpec>, AllocError>
    ensures told { IfOk result (λ found. IfSome found (TellsSpec (view value.now))) }
    ensures only { (guest : Spec) → IsGoodGuest guest → TellsSpec (view value.now) guest → IfOk result (λ found. found ≡ Some guest) }
{
    let shape = told_in::<GuestShape>(alloc, value, SHAPE)?;
    let presets = list_in(alloc, value, IRQS)?;
    match (shape, flag_in(value, ON), presets) {
        (Some(shape), Some(on), Some(presets)) => Ok(Some(GuestSpec { shape, on, presets })),
        _ => Ok(None),
    }
}

/// Its registers and interrupts.
fn told_registers(alloc: Global, value: &Value) -> Result<Option<Registers>, AllocError>
    ensures told { IfOk result (λ found. IfSome found (TellsRegisters (view value.now))) }
    ensures only { (shape : Shape) (registers : ToldRegisters) → IsShape shape → CanStand shape registers → TellsRegisters (view value.now) registers → IfOk result (λ found. found ≡ Some registers) }
{
    let cpu = list_in(alloc, value, CPU)?;
    let rec = list_in(alloc, value, REC)?;
    let redist = list_in(alloc, value, REDIST)?;
    match (number_in(value, GICD), cpu, rec, redist) {
        (Some(gicd), Some(cpu), Some(rec), Some(redist)) => Ok(Some(Registers {
            gicd,
            cpu,
            rec,
            redist,
        })),
        _ => Ok(None),
    }
}

/// Its ITS and its memory.
fn told_tables(alloc: Global, value: &Value) -> Result<Option<Tables>, AllocError>
    ensures told { IfOk result (λ found. IfSome found (TellsTables (view value.now))) }
    ensures only { (shape : Shape) (tables : ToldTables) → IsShape shape → CanBeMapped shape tables → TellsTables (view value.now) tables → IfOk result (λ found. found ≡ Some tables) }
{
    let its = told_in::<Option<ItsState>>(alloc, value, ITS)?;
    let dev = list_in(alloc, value, DEV)?;
    let evt = list_in(alloc, value, EVT)?;
    let col = list_in(alloc, value, COL)?;
    let ram = list_in(alloc, value, RAM)?;
    match (its, dev, evt, col, ram) {
        (Some(its), Some(dev), Some(evt), Some(col), Some(ram)) => Ok(Some(Tables {
            its,
            dev,
            evt,
            col,
            ram,
        })),
        _ => Ok(None),
    }
}

/// A guest, and its state.
fn told_guest(alloc: Global, value: &Value) -> Result<Option<(GuestSpec, GuestState)>, AllocError>
    ensures told { IfOk result (λ found. IfSome found (λ pair. guest_head (guest_data pair.0 pair.1) ≡ guest_head (view value.now))) }
    ensures only { (guest : Spec) (state : State) → IsGoodGuest guest → IsValidState guest state → guest_head (guest_data guest state) ≡ guest_head (view value.now) → IfOk result (λ found. found ≡ Some (guest, state)) }
{
    let Some(spec) = told_spec(alloc, value)? else {
        return Ok(None);
    };
    let Some(registers) = told_registers(alloc, value)? else {
        return Ok(None);
    };
    let Some(tables) = told_tables(alloc, value)? else {
        return Ok(None);
    };
    let state = GuestState {
        gicd: registers.gicd,
        cpu: registers.cpu,
        rec: registers.rec,
        redist: registers.redist,
        its: tables.its,
        dev: tables.dev,
        evt: tables.evt,
        col: tables.col,
        ram: tables.ram,
    };
    Ok(Some((spec, state)))
}

/// Guests, and the state of each.
pub(crate) fn guests(alloc: Global, values: &[Value]) -> Result<Option<ToldGuests>, AllocError>
    ensures told { IfOk result (λ found. IfSome found (λ told. guest_heads (guests_data told.guests told.states) ≡ guest_heads (map view values.now))) }
    ensures only { (guests : List Spec) (states : List State) → All IsGoodGuest guests → AreValidStates guests states → guest_heads (guests_data guests states) ≡ guest_heads (map view values.now)
        → IfOk result (λ found. found ≡ Some (record { guests = guests; states = states })) }
{
    let mut told = ToldGuests {
        guests: Guests::new(alloc),
        states: StateList::new(alloc),
    };
    for value in values {
        let Some((guest, state)) = told_guest(alloc, value)? else {
            return Ok(None);
        };
        told.guests.push(guest)?;
        told.states.push(state)?;
    }
    Ok(Some(told))
}
