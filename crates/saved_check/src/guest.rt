//! The guest that a saved state tells.
ghost use Rattle.std.specs.Prelude.{◌≡◌, ◌++◌, IfOk, OnOk, All, map};
ghost use Rattle.saved_guest.specs.IdealGuests.Words.{IsShape};
ghost use Rattle.saved_guest.specs.IdealGuests.Calls.{IsGoodGuest};
ghost use Rattle.saved_guest.specs.State.{cpu_of, memory_of, redist_words, its_words, words_of, state_of};
ghost use Rattle.saved_guest.specs.Valid.{IsValidState, IsValidWord};

use crate::records::records;
use crate::tables::tables;
use saved_guest::{
    CpuRec, CpuState, GuestShape, GuestSpec, GuestState, IdealGuest, IrqRecords, ItsState, ListOf,
    NoMemory, RamState, RedistState, baser_after, enables_in,
};
use std::alloc::{AllocError, Global};

/// The bytes of a word of memory.
const WORD_BYTES: u32 = 8;
/// How many plain words the ITS has.
const ITS_WORDS: usize = 6;

/// The record of a CPU interface.
fn cpu(cpu: &CpuState) -> CpuRec
    ensures { result ≡ cpu_of cpu.now }
{
    CpuRec {
        pmr: cpu.pmr,
        bpr0: cpu.bpr0,
        bpr1: cpu.bpr1,
        cbpr: cpu.cbpr,
        eoimode: cpu.eoimode,
        en0: cpu.en0,
        en1: cpu.en1,
        lpis: cpu.lpis,
        ap0: cpu.ap0,
        ap1: cpu.ap1,
    }
}

/// The records of the CPU interfaces, by vCPU. An error where memory for them is refused.
fn cpus(alloc: Global, states: &[CpuState]) -> Result<ListOf<CpuRec>, AllocError>
    ensures { IfOk result (λ cpus. cpus ≡ map cpu_of states.now) }
{
    let mut cpus = ListOf::new(alloc);
    for state in states {
        cpus.push(cpu(state))?;
    }
    Ok(cpus)
}

/// Memory, word by word: one that is not told is 0. An error where memory for it is refused.
fn memory(alloc: Global, shape: &GuestShape, told: &[RamState]) -> Result<Vec<u64>, AllocError>
    requires { All (IsValidWord shape.now) told.now }
    ensures { IfOk result (λ memory. memory.items ≡ memory_of shape.now told.now) }
{
    let mut memory = vec![in alloc; 0; (shape.ram / WORD_BYTES) as usize]?;
    for ram in told {
        memory[ram.index as usize] = ram.word;
    }
    Ok(memory)
}

/// GICR_PROPBASER and GICR_PENDBASER of each vCPU, behind other words. An error where memory for them is refused.
fn add_redists(words: &mut Vec<u64>, redists: &[RedistState]) -> Result<(), AllocError>
    ensures { OnOk result (words.new.items ≡ words.old.items ++ redist_words redists.now) }
{
    for redist in redists {
        words.push(redist.propbaser)?;
        words.push(redist.pendbaser)?;
    }
    Ok(())
}

/// The words of the ITS, behind other words; zeros where there is none. An error where memory for them is refused.
fn add_its(words: &mut Vec<u64>, its: Option<ItsState>) -> Result<(), AllocError>
    ensures { OnOk result (words.new.items ≡ words.old.items ++ its_words its) }
{
    let its: [u64; ITS_WORDS] = match its {
        Some(its) => [
            u64::from(its.enabled),
            its.cbaser,
            its.cwriter,
            baser_after(false, 0, its.baser0),
            baser_after(false, 0, its.baser1),
            u64::from(its.fault),
        ],
        None => [0; ITS_WORDS],
    };
    for word in &its {
        words.push(*word)?;
    }
    Ok(())
}

/// The plain words, by place. An error where memory for them is refused.
fn words(alloc: Global, shape: &GuestShape, state: &GuestState) -> Result<ListOf<u64>, AllocError>
    requires { All (IsValidWord shape.now) state.now.ram }
    ensures { IfOk result (λ words. words ≡ words_of shape.now state.now) }
{
    let mut words = memory(alloc, shape, state.ram.as_slice())?;
    add_redists(&mut words, state.redist.as_slice())?;
    add_its(&mut words, state.its)?;
    Ok(ListOf::from(words))
}

/// The guest of the ideal controller that a state tells which the guest can have. `NoMemory` where memory is refused.
pub fn told(alloc: Global, guest: &GuestSpec, state: &GuestState) -> Result<IdealGuest, NoMemory>
    requires good { IsGoodGuest guest.now }
    requires valid { IsValidState guest.now state.now }
    ensures { IfOk result (λ told. told ≡ state_of guest.now state.now) }
{
    let shape = guest.shape;
    let (offset, is_stalled) = match state.its {
        Some(its) => (its.offset, its.stalled),
        None => (0, false),
    };
    Ok(IdealGuest {
        shape,
        irqs: IrqRecords::of(alloc, records(alloc, guest, state.rec.as_slice())?)?,
        cpus: cpus(alloc, state.cpu.as_slice())?,
        enables: enables_in(state.gicd),
        words: words(alloc, &shape, state)?,
        offset,
        is_stalled,
        tables: tables(alloc, &shape, state)?.unwrap(),
    })
}
