//! The guests of an image.
ghost use Rattle.std.specs.Prelude.{◌≡◌, IfOk, OnOk, fold, length};
ghost use Rattle.serde_json.specs.Data.{array};
ghost use Rattle.serde_json.specs.View.{view, items_of, members_view};
ghost use Rattle.gic_save.specs.Cell.{with_member};
ghost use Rattle.gic_save.specs.Image.{spec_members, register_members, table_members, guest_data, guests_data};

use crate::cell::{array_of, list};
use crate::rows::{its, shape};
use scn_saved::{GuestSpec, GuestState};
use serde_json::{Map, Value, put};
use std::alloc::{AllocError, Global};

/// The members of an object that is written.
type Members = Map<String, Value>;

/// Adds what a guest is.
fn put_spec(members: &mut Members, alloc: Global, spec: &GuestSpec) -> Result<(), AllocError>
    ensures { OnOk result (members_view members.new.entries
        ≡ fold with_member (members_view members.old.entries) (spec_members spec.now)) }
{
    put(members, alloc, "shape", shape(alloc, &spec.shape)?)?;
    put(members, alloc, "on", Value::Bool(spec.on))?;
    put(
        members,
        alloc,
        "irqs",
        list(alloc, spec.presets.as_slice())?,
    )
}

/// Adds its registers and interrupts.
fn put_registers(members: &mut Members, alloc: Global, state: &GuestState) -> Result<(), AllocError>
    ensures { OnOk result (members_view members.new.entries
        ≡ fold with_member (members_view members.old.entries) (register_members state.now)) }
{
    put(members, alloc, "gicd", Value::from(state.gicd))?;
    put(members, alloc, "cpu", list(alloc, state.cpu.as_slice())?)?;
    put(members, alloc, "rec", list(alloc, state.rec.as_slice())?)?;
    put(
        members,
        alloc,
        "redist",
        list(alloc, state.redist.as_slice())?,
    )
}

/// Adds its ITS and its memory.
fn put_tables(members: &mut Members, alloc: Global, state: &GuestState) -> Result<(), AllocError>
    ensures { OnOk result (members_view members.new.entries
        ≡ fold with_member (members_view members.old.entries) (table_members state.now)) }
{
    put(members, alloc, "its", its(alloc, state.its)?)?;
    put(members, alloc, "dev", list(alloc, state.dev.as_slice())?)?;
    put(members, alloc, "evt", list(alloc, state.evt.as_slice())?)?;
    put(members, alloc, "col", list(alloc, state.col.as_slice())?)?;
    put(members, alloc, "ram", list(alloc, state.ram.as_slice())?)
}

/// A guest: what it is, and its state.
fn guest(alloc: Global, spec: &GuestSpec, state: &GuestState) -> Result<Value, AllocError>
    ensures { IfOk result (λ value. view value ≡ guest_data spec.now state.now) }
{
    let mut members = Members::new(alloc);
    put_spec(&mut members, alloc, spec)?;
    put_registers(&mut members, alloc, state)?;
    put_tables(&mut members, alloc, state)?;
    Ok(Value::Object(members))
}

/// The guests, each with its state, of which there are as many.
pub(crate) fn guests(
    alloc: Global,
    specs: &[GuestSpec],
    states: &[GuestState],
) -> Result<Value, AllocError>
    requires { length states.now ≡ length specs.now }
    ensures { IfOk result (λ value. view value ≡ array (items_of (guests_data specs.now states.now))) }
{
    let mut values = Vec::new(alloc);
    for (number, spec) in specs.iter().enumerate() {
        values.push(guest(alloc, spec, &states[number])?)?;
    }
    Ok(array_of(values))
}
