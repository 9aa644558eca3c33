//! The presets of a guest.
ghost use Rattle.std.specs.Prelude.{◌≡◌, ◌≤◌, IfOk, IfSome, IfNone, true, false, map};
ghost use Rattle.serde_json.specs.View.{view};
ghost use Rattle.scn_base.specs.Codes.{first_of, ok_unless};
ghost use Rattle.scn_read.specs.Preset.{is_preset, written_of, is_in_range as is_in_range_of, is_spi as is_spi_of, is_there as is_there_of, preset_fault, preset_of};

use crate::defaults::{DEFAULT_GROUP, DEFAULT_PRIORITY, DEFAULT_TARGET};
use json_field::{flag_or, has_only, number_at, number_or};
use scn_base::{
    FIRST_ESPI, FIRST_SPI, LIMIT, MAX_GROUP, MAX_PRIORITY, PRIORITY_STEP, PRIVATE_COUNT, Preset,
    PresetList, SGI_COUNT, SHAPE, UNKNOWN_ACTOR, first_code,
};
use serde_json::Value;
use std::alloc::{AllocError, Global};

const ID: &str = "id";

const PRIO: &str = "prio";

const EDGE: &str = "edge";

const GROUP: &str = "group";

const TO: &str = "to";

const VCPU: &str = "vcpu";
/// The fields of a preset of a private interrupt.
pub const PRIVATE_FIELDS: [&str; 5] = [ID, PRIO, EDGE, GROUP, VCPU];
/// The fields of a preset of a shared interrupt.
pub const SHARED_FIELDS: [&str; 5] = [ID, PRIO, EDGE, GROUP, TO];

/// How many a guest has of what presets name, as far as there may be.
#[derive(Clone, Copy)]
pub struct Counts {
    pub vcpus: u32,
    /// SPIs, from INTID 32 on.
    pub spis: u32,
    /// Extended SPIs, from INTID 4096 on.
    pub espis: u32,
    ghost few_vcpus: { vcpus ≤ 32 },
    ghost few_spis: { spis ≤ 960 },
    ghost few_espis: { espis ≤ 1024 },
}

/// A preset as it is written: its numbers may be any.
#[derive(Clone, Copy)]
struct WrittenPreset {
    id: u64,
    prio: u64,
    edge: bool,
    group: u64,
    /// The vCPU of a private interrupt, or the target of a shared one.
    vcpu: u64,
}

impl WrittenPreset {
    /// Whether the numbers are in their ranges, and an SGI is edge-triggered.
    fn is_in_range(self) -> bool
        ensures { result ≡ is_in_range_of self }
    {
        self.prio <= u64::from(MAX_PRIORITY)
            && self.prio % u64::from(PRIORITY_STEP) == 0
            && self.group <= u64::from(MAX_GROUP)
            && (self.edge || self.id >= u64::from(SGI_COUNT))
    }
}

impl Counts {
    /// Whether an INTID is that of an SPI or an extended SPI of such a guest.
    pub fn has_spi(self, id: u64) -> bool
        ensures { result ≡ is_spi_of self.spis self.espis id }
    {
        let spi = u64::from(FIRST_SPI);
        let espi = u64::from(FIRST_ESPI);
        (id >= spi && id < spi + u64::from(self.spis))
            || (id >= espi && id < espi + u64::from(self.espis))
    }

    /// Whether such a guest has the interrupt of a preset and its vCPU.
    fn has(self, preset: WrittenPreset) -> bool
        ensures { result ≡ is_there_of self.vcpus self.spis self.espis preset }
    {
        preset.vcpu < u64::from(self.vcpus)
            && (preset.id < u64::from(PRIVATE_COUNT) || self.has_spi(preset.id))
    }
}

/// A preset as it is written, if each of its fields is one of its table, and of its kind.
fn written(value: &Value) -> Option<WrittenPreset>
    ensures some { let d = view value.now in IfSome result (λ found. (is_preset d ≡ true) × (found ≡ written_of d)) }
    ensures none { IfNone result (is_preset (view value.now) ≡ false) }
{
    let id = number_at(value, ID)?;
    let is_private = id < u64::from(PRIVATE_COUNT);
    let fields = if is_private {
        &PRIVATE_FIELDS
    } else {
        &SHARED_FIELDS
    };
    if !has_only(value, fields) {
        return None;
    }
    Some(WrittenPreset {
        id,
        prio: number_or(value, PRIO, u64::from(DEFAULT_PRIORITY))?,
        edge: flag_or(value, EDGE, true)?,
        group: number_or(value, GROUP, u64::from(DEFAULT_GROUP))?,
        vcpu: if is_private {
            number_at(value, VCPU)?
        } else {
            number_or(value, TO, u64::from(DEFAULT_TARGET))?
        },
    })
}

/// A preset of a guest with these numbers, or its fault.
fn preset(value: &Value, counts: Counts) -> Result<Preset, u8>
    ensures { let d = view value.now in result ≡ ok_unless (preset_fault counts.vcpus counts.spis counts.espis d) (preset_of d) }
{
    let written = written(value).ok_or(SHAPE)?;
    if !written.is_in_range() {
        return Err(LIMIT);
    }
    if !counts.has(written) {
        return Err(UNKNOWN_ACTOR);
    }
    let vcpu = written.vcpu as u32;
    let is_private = written.id < u64::from(PRIVATE_COUNT);
    Ok(Preset {
        id: written.id as u32,
        prio: written.prio as u8,
        edge: written.edge,
        group: written.group as u8,
        to: (!is_private).then_some(vcpu),
        vcpu: is_private.then_some(vcpu),
    })
}

/// The presets of a guest with these numbers, or the first of their faults.
pub(crate) fn presets(
    alloc: Global,
    values: &[Value],
    counts: Counts,
) -> Result<Result<PresetList, u8>, AllocError>
    ensures { let ds = map view values.now in IfOk result (λ found. found
        ≡ ok_unless (first_of (map (preset_fault counts.vcpus counts.spis counts.espis) ds)) (map preset_of ds)) }
{
    let mut presets = PresetList::new(alloc);
    let mut fault = None;
    for value in values {
        match preset(value, counts) {
            Ok(preset) => presets.push(preset)?,
            Err(code) => fault = first_code(fault, Some(code)),
        }
    }
    match fault {
        Some(code) => Ok(Err(code)),
        None => Ok(Ok(presets)),
    }
}
