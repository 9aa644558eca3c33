//! The registers and the memory that are saved, and what the ITS has mapped.
ghost use Rattle.std.specs.Prelude.{◌≡◌, ◌<◌, ◌/◌, IfOk, map, if◌then◌else◌, Some, None};
ghost use Rattle.std.specs.List.{range_with_len};
ghost use Rattle.saved_guest.specs.IdealGuests.Registers.{has_lpis};
ghost use Rattle.saved_guest.specs.IdealGuests.Sound.{IsSound};
ghost use Rattle.saved_take.specs.Taken.{gicd_of, cpu_state, redist_state, its_state, ram_at, rams_of, dev_of, evt_of, col_of};

use saved_guest::{
    ColEnd, ColEnds, CpuRec, CpuState, CpuStates, DevEnd, DevEnds, Enables, EvtEnd, EvtEnds,
    IdealGuest, ItsState, ListOf, PlainWord, RamState, RamStates, RedistState, RedistStates, Table,
    baser,
};
use std::alloc::{AllocError, Global};

/// The bytes of a word of memory.
const WORD_BYTES: u32 = 8;
/// GICD_CTLR.EnableGrp1, by the value of its bit.
const ENABLE_GROUP_1: u32 = 2;

/// The two enables of GICD_CTLR, at their bits.
pub(crate) fn gicd(enables: Enables) -> u32
    ensures { result ≡ gicd_of enables }
{
    u32::from(enables.group0) + ENABLE_GROUP_1 * u32::from(enables.group1)
}

/// The registers of a CPU interface.
fn cpu(cpu: &CpuRec) -> CpuState
    ensures { result ≡ cpu_state cpu.now }
{
    CpuState {
        pmr: cpu.pmr,
        bpr0: cpu.bpr0,
        bpr1: cpu.bpr1,
        cbpr: cpu.cbpr,
        eoimode: cpu.eoimode,
        en0: cpu.en0,
        en1: cpu.en1,
        lpis: cpu.lpis,
        ap0: cpu.ap0,
        ap1: cpu.ap1,
    }
}

/// Those of each vCPU.
pub(crate) fn cpus(alloc: Global, recs: &[CpuRec]) -> Result<CpuStates, AllocError>
    ensures { IfOk result (λ cpus. cpus ≡ map cpu_state recs.now) }
{
    let mut cpus = ListOf::new(alloc);
    for rec in recs {
        cpus.push(cpu(rec))?;
    }
    Ok(cpus)
}

/// The registers of a redistributor that are only stored.
fn redist(state: &IdealGuest, vcpu: u32) -> RedistState
    requires sound { IsSound state.now }
    requires there { vcpu < state.now.shape.vcpus }
    ensures { result ≡ redist_state state.now vcpu }
{
    RedistState {
        propbaser: state.word(PlainWord::Propbaser { vcpu }),
        pendbaser: state.word(PlainWord::Pendbaser { vcpu }),
    }
}

/// Those of each vCPU.
pub(crate) fn redists(alloc: Global, state: &IdealGuest) -> Result<RedistStates, AllocError>
    requires { IsSound state.now }
    ensures { IfOk result (λ redists. redists ≡ map (redist_state state.now) (range_with_len 0 state.now.shape.vcpus)) }
{
    let mut redists = ListOf::new(alloc);
    for vcpu in 0..state.shape.vcpus {
        redists.push(redist(state, vcpu))?;
    }
    Ok(redists)
}

/// The registers of the ITS, and its queue.
fn its_there(state: &IdealGuest) -> ItsState
    requires { IsSound state.now }
    ensures { result ≡ its_state state.now }
{
    ItsState {
        enabled: state.is_its_enabled(),
        cbaser: state.word(PlainWord::Cbaser),
        cwriter: state.word(PlainWord::Cwriter),
        offset: state.offset,
        stalled: state.is_stalled,
        fault: if state.is_stalled {
            state.word(PlainWord::Fault) as u8
        } else {
            0
        },
        baser0: baser(Table::Devices, state.word(PlainWord::Baser0)),
        baser1: baser(Table::Collections, state.word(PlainWord::Baser1)),
    }
}

/// The same of a guest that has an ITS.
pub(crate) fn its(state: &IdealGuest) -> Option<ItsState>
    requires { IsSound state.now }
    ensures { result ≡ (if has_lpis state.now.shape then Some (its_state state.now) else None) }
{
    if state.shape.lpis == 0 {
        return None;
    }
    Some(its_there(state))
}

/// A word of memory, where it is not 0.
fn ram(state: &IdealGuest, index: u32) -> Option<RamState>
    requires sound { IsSound state.now }
    requires there { index < state.now.shape.ram / 8 }
    ensures { result ≡ ram_at state.now index }
{
    let word = state.word(PlainWord::Ram { index });
    (word != 0).then_some(RamState { index, word })
}

/// The words of memory that are not 0.
pub(crate) fn rams(alloc: Global, state: &IdealGuest) -> Result<RamStates, AllocError>
    requires { IsSound state.now }
    ensures { IfOk result (λ words. words ≡ rams_of state.now (state.now.shape.ram / 8)) }
{
    let mut words = ListOf::new(alloc);
    for index in 0..state.shape.ram / WORD_BYTES {
        if let Some(word) = ram(state, index) {
            words.push(word)?;
        }
    }
    Ok(words)
}

/// The devices that are mapped.
pub(crate) fn devs(alloc: Global, pairs: &[(u32, u32)]) -> Result<DevEnds, AllocError>
    ensures { IfOk result (λ devs. devs ≡ map dev_of pairs.now) }
{
    let mut devs = ListOf::new(alloc);
    for pair in pairs {
        let (device, bits) = *pair;
        devs.push(DevEnd { device, bits })?;
    }
    Ok(devs)
}

/// The events that are mapped.
pub(crate) fn evts(alloc: Global, pairs: &[((u32, u32), (u32, u16))]) -> Result<EvtEnds, AllocError>
    ensures { IfOk result (λ evts. evts ≡ map evt_of pairs.now) }
{
    let mut evts = ListOf::new(alloc);
    for pair in pairs {
        let ((device, event), (id, icid)) = *pair;
        evts.push(EvtEnd {
            device,
            event,
            id,
            icid,
        })?;
    }
    Ok(evts)
}

/// The collections that are mapped.
pub(crate) fn cols(alloc: Global, pairs: &[(u16, u32)]) -> Result<ColEnds, AllocError>
    ensures { IfOk result (λ cols. cols ≡ map col_of pairs.now) }
{
    let mut cols = ListOf::new(alloc);
    for pair in pairs {
        let (icid, vcpu) = *pair;
        cols.push(ColEnd { icid, vcpu })?;
    }
    Ok(cols)
}
