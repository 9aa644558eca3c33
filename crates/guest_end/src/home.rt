//! A guest at home, from its words.
ghost use Rattle.std.specs.Prelude.{◌≡◌, [], All, IfOk, length, map};
ghost use Rattle.gic_ideal.specs.Ends.{end_of as end_between};
ghost use Rattle.port_core.specs.Words.{IsShape, IsWord};
ghost use Rattle.port_core.specs.Calls.{plain_count, IsGoodGuest};
ghost use Rattle.gic_ideal.specs.IdealGuests.Opening.{opening};
ghost use Rattle.guest_end.specs.Home.{home_irq as home_irq_of, cpus_at_home, plain_at_home, IsAtEnd, guest_of};

use gic_ideal::{IdealGuest, IrqRecords};
use port_core::{
    CpuRec, CtlrWord, GuestEnd as End, GuestShape, GuestSpec, GuestWords, Irq, ItsTables, ListOf,
    NoMemory, PlainWord, VcpuWord, irq_unpack as unpack, place_of_plain,
};
use std::alloc::{AllocError, Global};

/// The record of an interrupt by its word, but for who holds it and whether it is asked for.
fn home_irq(word: u64) -> Irq
    requires { IsWord word }
    ensures { result ≡ home_irq_of word }
{
    Irq {
        holder: None,
        want: false,
        ..unpack(word).unwrap()
    }
}

/// The records of the interrupts, in key order.
fn home_irqs(alloc: Global, words: &[u64]) -> Result<ListOf<Irq>, AllocError>
    requires { All IsWord words.now }
    ensures { IfOk result (λ irqs. irqs ≡ map home_irq_of words.now) }
{
    let mut irqs = ListOf::new(alloc);
    for word in words {
        irqs.push(home_irq(*word))?;
    }
    Ok(irqs)
}

/// The CPU records, each with EnableLPIs as the vCPU's word has it.
fn home_cpus(alloc: Global, words: &[u64], cpus: &[CpuRec]) -> Result<ListOf<CpuRec>, AllocError>
    requires { length cpus.now ≡ length words.now }
    ensures { IfOk result (λ list. list ≡ cpus_at_home words.now cpus.now) }
{
    let mut list = ListOf::new(alloc);
    for vcpu in 0..words.len() {
        list.push(CpuRec {
            lpis: VcpuWord::of(words[vcpu]).lpis,
            ..cpus[vcpu]
        })?;
    }
    Ok(list)
}

/// The plain words, with the number of a fault only where the queue is stalled.
fn home_plain(
    alloc: Global,
    shape: &GuestShape,
    is_stalled: bool,
    words: &[u64],
) -> Result<ListOf<u64>, AllocError>
    requires shape { IsShape shape.now }
    requires each { length words.now ≡ plain_count shape.now }
    ensures { IfOk result (λ list. list ≡ plain_at_home shape.now is_stalled words.now) }
{
    let mut list = words.to_vec(alloc)?;
    if !is_stalled {
        list[place_of_plain(PlainWord::Fault, shape)] = 0;
    }
    Ok(ListOf::from(list))
}

/// The guest at home, but for the tables of its ITS.
fn without_tables(
    alloc: Global,
    spec: &GuestSpec,
    words: &GuestWords,
    cpus: &[CpuRec],
) -> Result<IdealGuest, AllocError>
    requires { IsAtEnd spec.now.shape words.now cpus.now }
    ensures value { IfOk result (λ guest. record guest { tables = words.now.tables } ≡ guest_of spec.now.shape words.now cpus.now) }
    ensures unmapped { IfOk result (λ guest. guest.tables ≡ record { devices = []; events = []; collections = [] }) }
{
    let queue = port_core::queue_unpack(words.queue).unwrap();
    let Ok(tables) = ItsTables::of(alloc) else {
        return Err(AllocError);
    };
    Ok(IdealGuest {
        shape: spec.shape,
        irqs: IrqRecords::of(alloc, home_irqs(alloc, words.irqs.as_slice())?)?,
        cpus: home_cpus(alloc, words.vcpus.as_slice(), cpus)?,
        enables: CtlrWord::of(words.ctlr).enables,
        words: home_plain(alloc, &spec.shape, queue.stalled, words.plain.as_slice())?,
        offset: queue.offset,
        is_stalled: queue.stalled,
        tables,
    })
}

/// How a guest ended that opened as the spec says: the fields of its end lines, from its words and tables and the CPU records
/// of its vCPUs, by number. There is one word for each interrupt, vCPU and plain place, no interrupt is at a CPU interface, and
/// EnableLPIs is as the vCPU's word has it. An error where memory is refused.
pub fn end_of(
    alloc: Global,
    spec: &GuestSpec,
    words: &GuestWords,
    cpus: &[CpuRec],
) -> Result<End, NoMemory>
    requires good { IsGoodGuest spec.now }
    requires ended { IsAtEnd spec.now.shape words.now cpus.now }
    ensures { IfOk result (λ end. end ≡ end_between (opening spec.now) (guest_of spec.now.shape words.now cpus.now)) }
{
    let opened = IdealGuest::open(alloc, spec)?;
    let closed = without_tables(alloc, spec, words, cpus)?;
    Ok(gic_ideal::end_of(alloc, &opened, &closed, &words.tables)?)
}

/// The guest of the ideal controller that its words, its tables and the CPU records of its vCPUs, by number, say. No interrupt is
/// at a CPU interface. An error where memory is refused.
pub(crate) fn state_of(
    alloc: Global,
    spec: &GuestSpec,
    words: GuestWords,
    cpus: &[CpuRec],
) -> Result<IdealGuest, AllocError>
    requires { IsAtEnd spec.now.shape words cpus.now }
    ensures { IfOk result (λ guest. guest ≡ guest_of spec.now.shape words cpus.now) }
{
    let mut closed = without_tables(alloc, spec, &words, cpus)?;
    closed.tables = words.tables;
    Ok(closed)
}
