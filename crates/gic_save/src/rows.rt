//! What an image has many of, each a short array.
ghost use Rattle.std.specs.Prelude.{◌≡◌, ◌++◌, IfOk, OnOk, map};
ghost use Rattle.serde_json.specs.Data.{string};
ghost use Rattle.serde_json.specs.View.{view};
ghost use Rattle.scn_saved.specs.Name.{name_text};
ghost use Rattle.gic_save.specs.Cell.{cell_data};
ghost use Rattle.gic_save.specs.Step.{pair_data};
ghost use Rattle.gic_save.specs.Image.{data_or_null, shape_data, preset_data, cpu_data, rec_cells, rec_data, redist_data, its_data, dev_data, evt_data, col_data, ram_data, resident_data};

use crate::cell::{Written, flag, list, number, push_all};
use scn_saved::{
    ColEnd, CpuState, DevEnd, EvtEnd, GuestShape, ItsState, Key, Name, Preset, RamState, RecState,
    RedistState, VcpuName,
};
use serde_json::Value;
use std::alloc::{AllocError, Global};

/// Two numbers.
pub(crate) fn pair(alloc: Global, first: u64, second: u64) -> Result<Value, AllocError>
    ensures { IfOk result (λ value. view value ≡ pair_data first second) }
{
    list(alloc, &[Some(first), Some(second)])
}

/// How much a guest has of each kind.
pub(crate) fn shape(alloc: Global, shape: &GuestShape) -> Result<Value, AllocError>
    ensures { IfOk result (λ value. view value ≡ shape_data shape.now) }
{
    list(
        alloc,
        &[
            number(shape.vcpus),
            number(shape.spis),
            number(shape.espis),
            number(shape.devices),
            number(shape.lpis),
            number(shape.ram),
        ],
    )
}

/// The ITS, or null for none.
pub(crate) fn its(alloc: Global, its: Option<ItsState>) -> Result<Value, AllocError>
    ensures { IfOk result (λ value. view value ≡ data_or_null its_data its) }
{
    match its {
        Some(its) => its.value(alloc),
        None => Ok(Value::Null),
    }
}

impl Written for ItsState {
    ghost written = { its_data };

    fn value(&self, alloc: Global) -> Result<Value, AllocError> {
        list(
            alloc,
            &[
                flag(self.enabled),
                Some(self.cbaser),
                Some(self.cwriter),
                number(self.offset),
                flag(self.stalled),
                Some(u64::from(self.fault)),
                Some(self.baser0),
                Some(self.baser1),
            ],
        )
    }
}

impl Written for Preset {
    ghost written = { preset_data };

    fn value(&self, alloc: Global) -> Result<Value, AllocError> {
        list(
            alloc,
            &[
                number(self.id),
                Some(u64::from(self.prio)),
                flag(self.edge),
                Some(u64::from(self.group)),
                self.to.map(u64::from),
                self.vcpu.map(u64::from),
            ],
        )
    }
}

impl Written for CpuState {
    ghost written = { cpu_data };

    fn value(&self, alloc: Global) -> Result<Value, AllocError> {
        list(
            alloc,
            &[
                Some(u64::from(self.pmr)),
                Some(u64::from(self.bpr0)),
                Some(u64::from(self.bpr1)),
                flag(self.cbpr),
                flag(self.eoimode),
                flag(self.en0),
                flag(self.en1),
                flag(self.lpis),
                number(self.ap0),
                number(self.ap1),
            ],
        )
    }
}

/// Adds the numbers of an interrupt's record to the elements of an array.
fn push_record(alloc: Global, rec: &RecState, values: &mut Vec<Value>) -> Result<(), AllocError>
    ensures { OnOk result (map view values.new.items ≡ map view values.old.items ++ map cell_data (rec_cells rec.now)) }
{
    push_all(
        alloc,
        &[
            flag(rec.enabled),
            Some(u64::from(rec.group)),
            Some(u64::from(rec.prio)),
            flag(rec.edge),
            flag(rec.line),
            flag(rec.rise),
            flag(rec.soft),
            rec.act.map(u64::from),
            rec.route.map(u64::from),
            flag(rec.en0),
            flag(rec.en1),
            rec.mover.map(u64::from),
        ],
        values,
    )
}

/// The name of an interrupt.
fn key_name(alloc: Global, key: Key) -> Result<Value, AllocError>
    ensures { IfOk result (λ value. view value ≡ string (name_text key)) }
{
    let name = format!(in alloc; "{}", Name(key))?;
    Ok(Value::String(name))
}

/// The name of an interrupt, and the numbers of its record.
impl Written for RecState {
    ghost written = { rec_data };

    fn value(&self, alloc: Global) -> Result<Value, AllocError> {
        let mut values = Vec::new(alloc);
        values.push(key_name(alloc, self.key)?)?;
        push_record(alloc, self, &mut values)?;
        Ok(Value::Array(values))
    }
}

impl Written for RedistState {
    ghost written = { redist_data };

    fn value(&self, alloc: Global) -> Result<Value, AllocError> {
        pair(alloc, self.propbaser, self.pendbaser)
    }
}

impl Written for DevEnd {
    ghost written = { dev_data };

    fn value(&self, alloc: Global) -> Result<Value, AllocError> {
        pair(alloc, u64::from(self.device), u64::from(self.bits))
    }
}

impl Written for EvtEnd {
    ghost written = { evt_data };

    fn value(&self, alloc: Global) -> Result<Value, AllocError> {
        list(
            alloc,
            &[
                number(self.device),
                number(self.event),
                number(self.id),
                Some(u64::from(self.icid)),
            ],
        )
    }
}

impl Written for ColEnd {
    ghost written = { col_data };

    fn value(&self, alloc: Global) -> Result<Value, AllocError> {
        pair(alloc, u64::from(self.icid), u64::from(self.vcpu))
    }
}

impl Written for RamState {
    ghost written = { ram_data };

    fn value(&self, alloc: Global) -> Result<Value, AllocError> {
        pair(alloc, u64::from(self.index), self.word)
    }
}

/// The vCPU on a PE, or null for none.
impl Written for Option<VcpuName> {
    ghost written = { resident_data };

    fn value(&self, alloc: Global) -> Result<Value, AllocError> {
        match *self {
            Some(name) => pair(alloc, u64::from(name.guest), u64::from(name.vcpu)),
            None => Ok(Value::Null),
        }
    }
}
