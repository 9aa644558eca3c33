//! What a field holds, and how much there is of what it can name: for the text of a hint alone.

use crate::place::Place;
use crate::step::step_at;
use gic_host::scenarios::{
    DEFAULT_DEVICES, DEFAULT_VCPUS, counts, elements_at, number_at, number_or, pair_at, text_at,
};
use serde_json::Value;

/// What a field holds, as far as a hint tells it.
#[derive(Clone, Copy, Debug)]
pub(crate) enum Held<'v> {
    Number(u64),
    Pair(u64, u64),
    Text(&'v str),
    Other,
}

/// The guest of a number, from 0.
fn guest_at(value: &Value, guest: usize) -> Option<&Value> {
    elements_at(value, "guests").get(guest)
}

/// What stands at a place.
fn value_at(value: &Value, place: Place) -> Option<&Value> {
    match place {
        Place::Scenario => Some(value),
        Place::Guest(guest) => guest_at(value, guest),
        Place::Preset { guest, preset } => elements_at(guest_at(value, guest)?, "irqs").get(preset),
        Place::Step(number) => step_at(value, number),
    }
}

impl<'v> Held<'v> {
    /// What the field of this name holds at a place.
    pub(crate) fn at(value: &'v Value, place: Place, field: &str) -> Held<'v> {
        match value_at(value, place) {
            Some(object) => Held::of(object, field),
            None => Held::Other,
        }
    }

    /// What the field of this name holds of an object.
    pub(crate) fn of(object: &'v Value, field: &str) -> Held<'v> {
        if let Some(text) = text_at(object, field) {
            return Held::Text(text);
        }
        if let Some(number) = number_at(object, field) {
            return Held::Number(number);
        }
        match pair_at(object, field) {
            Some((one, other)) => Held::Pair(one, other),
            None => Held::Other,
        }
    }
}

/// How much a scenario has, and the guest that is named: none of a guest that is not there.
#[derive(Clone, Copy, Debug)]
pub(crate) struct Room {
    pub(crate) guests: usize,
    pub(crate) pes: u64,
    pub(crate) guest: Option<GuestRoom>,
}

/// How much a guest has.
#[derive(Clone, Copy, Debug)]
pub(crate) struct GuestRoom {
    pub(crate) vcpus: u64,
    pub(crate) devices: u64,
    pub(crate) spis: u32,
    pub(crate) espis: u32,
    pub(crate) ram: u64,
}

impl GuestRoom {
    fn of(guest: &Value) -> GuestRoom {
        let counts = counts(guest);
        GuestRoom {
            vcpus: number_or(guest, "vcpus", u64::from(DEFAULT_VCPUS)).unwrap_or(0),
            devices: number_or(guest, "devices", u64::from(DEFAULT_DEVICES)).unwrap_or(0),
            spis: counts.spis,
            espis: counts.espis,
            ram: number_or(guest, "ram", 0).unwrap_or(0),
        }
    }
}

/// The guest that a step names.
fn guest_of(step: &Value) -> Option<u64> {
    let pair = pair_at(step, "vcpu")
        .or(pair_at(step, "dev"))
        .or(pair_at(step, "enter"))?;
    Some(pair.0)
}

impl Room {
    /// What there is for a fault at a place.
    pub(crate) fn at(value: &Value, place: Place) -> Room {
        let guest = match place {
            Place::Scenario => None,
            Place::Guest(guest) | Place::Preset { guest, .. } => guest_at(value, guest),
            Place::Step(number) => match step_at(value, number).and_then(guest_of) {
                Some(guest) => guest_at(value, guest as usize),
                None => None,
            },
        };
        Room {
            guests: elements_at(value, "guests").len(),
            pes: number_or(value, "pes", 1).unwrap_or(0),
            guest: guest.map(GuestRoom::of),
        }
    }
}
