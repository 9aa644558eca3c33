//! The guests of a scenario.
ghost use Rattle.std.specs.Prelude.{◌≡◌, IfOk, IfSome, IfNone, true, false, map};
ghost use Rattle.serde_json.specs.View.{view};
ghost use Rattle.scn_base.specs.Codes.{first_of, ok_unless};
ghost use Rattle.scn_read.specs.Guest.{are_numbers, numbers_of, are_in_range, shape_with, own_fault, vcpus_of, spis_of, espis_of, guest_fault, shape_of, on_of, guest_of};

use crate::defaults::{
    DEFAULT_DEVICES, DEFAULT_ESPIS, DEFAULT_LPIS, DEFAULT_RAM, DEFAULT_SPIS, DEFAULT_VCPUS,
};
use crate::preset::{Counts, presets};
use json_field::{elements_at, flag_or, has_only, list_or_empty, number_or};
use scn_base::{
    GuestShape, GuestSpec, Guests, LIMIT, MAX_DEVICES, MAX_ESPIS, MAX_LPIS, MAX_SCENARIO_RAM,
    MAX_SPIS, MAX_VCPUS, RAM_STEP, SHAPE, SPI_STEP, both, first_code,
};
use serde_json::Value;
use std::alloc::{AllocError, Global};

const VCPUS: &str = "vcpus";

const SPIS: &str = "spis";

const ESPIS: &str = "espis";

const DEVICES: &str = "devices";

const LPIS: &str = "lpis";

const RAM: &str = "ram";

const ON: &str = "on";

const IRQS: &str = "irqs";
/// The fields of a guest.
pub const GUEST_FIELDS: [&str; 8] = [VCPUS, SPIS, ESPIS, DEVICES, LPIS, RAM, ON, IRQS];

/// How many a guest has of each kind, as it is written: also where that is more than there may be.
#[derive(Clone, Copy)]
struct Numbers {
    vcpus: u64,
    spis: u64,
    espis: u64,
    devices: u64,
    lpis: u64,
    ram: u64,
}

impl Numbers {
    /// What the guest has of each kind, if each number is in its range.
    fn shape(self) -> Option<GuestShape>
        ensures some { IfSome result (λ shape. (are_in_range self ≡ true) × (shape ≡ shape_with self)) }
        ensures none { IfNone result (are_in_range self ≡ false) }
    {
        let is_in_range = (1..=u64::from(MAX_VCPUS)).contains(&self.vcpus)
            && self.spis <= u64::from(MAX_SPIS)
            && self.spis % u64::from(SPI_STEP) == 0
            && self.espis <= u64::from(MAX_ESPIS)
            && self.espis % u64::from(SPI_STEP) == 0
            && self.devices <= u64::from(MAX_DEVICES)
            && self.lpis <= u64::from(MAX_LPIS)
            && self.ram <= u64::from(MAX_SCENARIO_RAM)
            && self.ram % u64::from(RAM_STEP) == 0;
        if !is_in_range {
            return None;
        }
        Some(GuestShape {
            vcpus: self.vcpus as u32,
            spis: self.spis as u32,
            espis: self.espis as u32,
            devices: self.devices as u32,
            lpis: self.lpis as u32,
            ram: self.ram as u32,
        })
    }
}

/// The numbers of a guest, if each is one.
fn numbers_in(value: &Value) -> Option<Numbers>
    ensures some { let d = view value.now in IfSome result (λ found. (are_numbers d ≡ true) × (found ≡ numbers_of d)) }
    ensures none { IfNone result (are_numbers (view value.now) ≡ false) }
{
    Some(Numbers {
        vcpus: number_or(value, VCPUS, u64::from(DEFAULT_VCPUS))?,
        spis: number_or(value, SPIS, u64::from(DEFAULT_SPIS))?,
        espis: number_or(value, ESPIS, u64::from(DEFAULT_ESPIS))?,
        devices: number_or(value, DEVICES, u64::from(DEFAULT_DEVICES))?,
        lpis: number_or(value, LPIS, u64::from(DEFAULT_LPIS))?,
        ram: number_or(value, RAM, u64::from(DEFAULT_RAM))?,
    })
}

/// What a guest has of each kind and whether it is on, or the fault of its own fields.
fn head(value: &Value) -> Result<(GuestShape, bool), u8>
    ensures { let d = view value.now in result ≡ ok_unless (own_fault d) (shape_of d, on_of d) }
{
    if !has_only(value, &GUEST_FIELDS) {
        return Err(SHAPE);
    }
    let numbers = numbers_in(value).ok_or(SHAPE)?;
    let on = flag_or(value, ON, false).ok_or(SHAPE)?;
    list_or_empty(value, IRQS).ok_or(SHAPE)?;
    let shape = numbers.shape().ok_or(LIMIT)?;
    Ok((shape, on))
}

/// What its presets need to know of a guest, also where its numbers are out of range.
pub fn counts(value: &Value) -> Counts
    ensures vcpus { result.vcpus ≡ vcpus_of (view value.now) }
    ensures spis { result.spis ≡ spis_of (view value.now) }
    ensures espis { result.espis ≡ espis_of (view value.now) }
{
    let vcpus = number_or(value, VCPUS, u64::from(DEFAULT_VCPUS)).unwrap_or(0);
    let spis = number_or(value, SPIS, u64::from(DEFAULT_SPIS)).unwrap_or(0);
    let espis = number_or(value, ESPIS, u64::from(DEFAULT_ESPIS)).unwrap_or(0);
    Counts {
        vcpus: vcpus.min(u64::from(MAX_VCPUS)) as u32,
        spis: spis.min(u64::from(MAX_SPIS)) as u32,
        espis: espis.min(u64::from(MAX_ESPIS)) as u32,
    }
}

/// The guest that a JSON value is, as a scenario has it, or the least code of its faults and those of its presets: 1 where a field is unknown or of the wrong
/// kind, 2 where a number is outside of its range, 4 where a preset's interrupt, vCPU or target is not there. The outer error says that memory was refused.
pub fn read_guest(alloc: Global, value: &Value) -> Result<Result<GuestSpec, u8>, AllocError>
    ensures { let d = view value.now in
        IfOk result (λ found. found ≡ ok_unless (guest_fault d) (guest_of d)) }
{
    let presets = presets(alloc, elements_at(value, IRQS), counts(value))?;
    match both(head(value), presets) {
        Ok(((shape, on), presets)) => Ok(Ok(GuestSpec { shape, on, presets })),
        Err(code) => Ok(Err(code)),
    }
}

/// The guests of a scenario, or the first of their faults.
pub(crate) fn guests(alloc: Global, values: &[Value]) -> Result<Result<Guests, u8>, AllocError>
    ensures { let ds = map view values.now in
        IfOk result (λ found. found ≡ ok_unless (first_of (map guest_fault ds)) (map guest_of ds)) }
{
    let mut guests = Guests::new(alloc);
    let mut fault = None;
    for value in values {
        match read_guest(alloc, value)? {
            Ok(guest) => guests.push(guest)?,
            Err(code) => fault = first_code(fault, Some(code)),
        }
    }
    match fault {
        Some(code) => Ok(Err(code)),
        None => Ok(Ok(guests)),
    }
}
