//! The rows of an image, each by its numbers in order.
ghost use Rattle.gic_resume.specs.GicSave.Image.{shape_data, preset_data, cpu_data, redist_data, dev_data, evt_data, col_data, ram_data, resident_data};
ghost use Rattle.image_read.specs.Fits.{its_or_null};
ghost use Rattle.saved_check.specs.SavedGuest.Valid.{IsValidCpu, IsValidWord};
ghost use Rattle.saved_check.specs.SavedGuest.IdealGuests.GicGuest.Good.{IsGoodPreset};
ghost use Rattle.image_read.specs.Fits.{IsShortResident, IsShortDev, IsShortEvt, IsShortCol, IsAnyRedist, IsOwnShape, IsValidItsOrNone};

use crate::row::Row;
use crate::told::Told;
use saved_check::{
    ColEnd, CpuState, DevEnd, EvtEnd, GuestShape, ItsState, Preset, RamState, RedistState, VcpuName,
};
use serde_json::Value;
use std::alloc::{AllocError, Global};

impl Told for GuestShape {
    ghost written = { shape_data };

    ghost can_stand = { IsOwnShape };

    fn told(_alloc: Global, value: &Value) -> Result<Option<Self>, AllocError> {
        let mut row = Row::of(value);
        let shape = GuestShape {
            vcpus: row.word(),
            spis: row.word(),
            espis: row.word(),
            devices: row.word(),
            lpis: row.word(),
            ram: row.word(),
        };
        Ok(row.end(shape))
    }
}

impl Told for Preset {
    ghost written = { preset_data };

    ghost can_stand = { IsGoodPreset };

    fn told(_alloc: Global, value: &Value) -> Result<Option<Self>, AllocError> {
        let mut row = Row::of(value);
        let preset = Preset {
            id: row.word(),
            prio: row.byte(),
            edge: row.flag(),
            group: row.byte(),
            to: row.word_or_null(),
            vcpu: row.word_or_null(),
        };
        Ok(row.end(preset))
    }
}

impl Told for CpuState {
    ghost written = { cpu_data };

    ghost can_stand = { IsValidCpu };

    fn told(_alloc: Global, value: &Value) -> Result<Option<Self>, AllocError> {
        let mut row = Row::of(value);
        let cpu = CpuState {
            pmr: row.byte(),
            bpr0: row.byte(),
            bpr1: row.byte(),
            cbpr: row.flag(),
            eoimode: row.flag(),
            en0: row.flag(),
            en1: row.flag(),
            lpis: row.flag(),
            ap0: row.word(),
            ap1: row.word(),
        };
        Ok(row.end(cpu))
    }
}

impl Told for RedistState {
    ghost written = { redist_data };

    ghost can_stand = { IsAnyRedist };

    fn told(_alloc: Global, value: &Value) -> Result<Option<Self>, AllocError> {
        let mut row = Row::of(value);
        let redist = RedistState {
            propbaser: row.long(),
            pendbaser: row.long(),
        };
        Ok(row.end(redist))
    }
}

impl Told for DevEnd {
    ghost written = { dev_data };

    ghost can_stand = { IsShortDev };

    fn told(_alloc: Global, value: &Value) -> Result<Option<Self>, AllocError> {
        let mut row = Row::of(value);
        let dev = DevEnd {
            device: row.word(),
            bits: row.word(),
        };
        Ok(row.end(dev))
    }
}

impl Told for EvtEnd {
    ghost written = { evt_data };

    ghost can_stand = { IsShortEvt };

    fn told(_alloc: Global, value: &Value) -> Result<Option<Self>, AllocError> {
        let mut row = Row::of(value);
        let evt = EvtEnd {
            device: row.word(),
            event: row.word(),
            id: row.word(),
            icid: row.half(),
        };
        Ok(row.end(evt))
    }
}

impl Told for ColEnd {
    ghost written = { col_data };

    ghost can_stand = { IsShortCol };

    fn told(_alloc: Global, value: &Value) -> Result<Option<Self>, AllocError> {
        let mut row = Row::of(value);
        let col = ColEnd {
            icid: row.half(),
            vcpu: row.word(),
        };
        Ok(row.end(col))
    }
}

impl Told for RamState {
    ghost written = { ram_data };

    ghost can_stand = { IsValidWord };

    fn told(_alloc: Global, value: &Value) -> Result<Option<Self>, AllocError> {
        let mut row = Row::of(value);
        let ram = RamState {
            index: row.word(),
            word: row.long(),
        };
        Ok(row.end(ram))
    }
}

/// The vCPU on a PE, or none for null.
impl Told for Option<VcpuName> {
    ghost written = { resident_data };

    ghost can_stand = { IsShortResident };

    fn told(_alloc: Global, value: &Value) -> Result<Option<Self>, AllocError> {
        if value.is_null() {
            return Ok(Some(None));
        }
        let mut row = Row::of(value);
        let name = VcpuName {
            guest: row.word(),
            vcpu: row.word(),
        };
        Ok(row.end(Some(name)))
    }
}

/// The ITS, or none for null.
impl Told for Option<ItsState> {
    ghost written = { its_or_null };

    ghost can_stand = { IsValidItsOrNone };

    fn told(_alloc: Global, value: &Value) -> Result<Option<Self>, AllocError> {
        if value.is_null() {
            return Ok(Some(None));
        }
        let mut row = Row::of(value);
        let its = ItsState {
            enabled: row.flag(),
            cbaser: row.long(),
            cwriter: row.long(),
            offset: row.word(),
            stalled: row.flag(),
            fault: row.byte(),
            baser0: row.long(),
            baser1: row.long(),
        };
        Ok(row.end(Some(its)))
    }
}
