//! How a guest ended.
ghost use Rattle.std.specs.Prelude.{◌≡◌, ◌<◌, IfOk, map};
ghost use Rattle.ideal_guest.specs.Words.{interrupt_count as count_of};
ghost use Rattle.gic_ideal.specs.Ends.{cpu_end as cpu_end_at, irq_end as irq_end_at, is_same_cpu_end, is_same_irq_end, changed_at, changed, gicd_end as gicd_end_between, its_end as its_end_at, is_same_its_end, its_end_between, dev_end, evt_end, col_end, end_of as end_between};
ghost use Rattle.ideal_guest.specs.Sound.{IsSound};

use ideal_guest::{
    Group, IdealGuest, ItsTables, PlainWord, creadr, dist_ctlr as ctlr, interrupt_count, key_at,
};
use scn_base::{
    ColEnd, ColEnds, CpuEnd, CpuEnds, DevEnd, DevEnds, End, EvtEnd, EvtEnds, IrqEnd, IrqEnds,
    ItsEnd, ListOf, target_in,
};
use std::alloc::{AllocError, Global};
use vcpu_refill::vmcr_of;

fn is_same_cpu(a: &CpuEnd, b: &CpuEnd) -> bool
    ensures { result ≡ is_same_cpu_end a.now b.now }
{
    a.vmcr == b.vmcr && a.ap0 == b.ap0 && a.ap1 == b.ap1 && a.lpis == b.lpis
}

fn is_same_irq(a: &IrqEnd, b: &IrqEnd) -> bool
    ensures { result ≡ is_same_irq_end a.now b.now }
{
    a.enabled == b.enabled
        && a.group == b.group
        && a.prio == b.prio
        && a.edge == b.edge
        && a.line == b.line
        && a.rise == b.rise
        && a.soft == b.soft
        && a.act_by == b.act_by
        && a.to == b.to
}

/// The end of a vCPU's CPU interface.
fn cpu_end(guest: &IdealGuest, vcpu: u32) -> CpuEnd
    requires sound { IsSound guest.now }
    requires there { vcpu < guest.now.shape.vcpus }
    ensures { result ≡ cpu_end_at guest.now vcpu }
{
    let cpu = guest.cpu(vcpu);
    CpuEnd {
        vcpu,
        vmcr: vmcr_of(&cpu),
        ap0: cpu.ap0,
        ap1: cpu.ap1,
        lpis: cpu.lpis,
    }
}

/// The end of the interrupt at a place in key order.
fn irq_end(guest: &IdealGuest, place: usize) -> IrqEnd
    requires sound { IsSound guest.now }
    requires within { place < count_of guest.now.shape }
    ensures { result ≡ irq_end_at guest.now place }
{
    let key = key_at(place, &guest.shape);
    let irq = guest.irq(key);
    IrqEnd {
        key,
        enabled: irq.enabled,
        group: match irq.group {
            Group::G0 => 0,
            Group::G1 => 1,
        },
        prio: irq.prio,
        edge: irq.edge,
        line: irq.line,
        rise: irq.rise,
        soft: irq.soft,
        act_by: irq.act_by,
        to: target_in(irq.route, &guest.shape),
    }
}

/// The end of a vCPU's CPU interface, if it is not as at the opening.
fn changed_cpu(opened: &IdealGuest, closed: &IdealGuest, vcpu: u32) -> Option<CpuEnd>
    requires opened { IsSound opened.now }
    requires closed { IsSound closed.now }
    requires shape { closed.now.shape ≡ opened.now.shape }
    requires there { vcpu < opened.now.shape.vcpus }
    ensures { result ≡ changed_at is_same_cpu_end (cpu_end_at opened.now) (cpu_end_at closed.now) vcpu }
{
    let end = cpu_end(closed, vcpu);
    (!is_same_cpu(&cpu_end(opened, vcpu), &end)).then_some(end)
}

/// The end of the interrupt at a place in key order, if it is not as at the opening.
fn changed_irq(opened: &IdealGuest, closed: &IdealGuest, place: usize) -> Option<IrqEnd>
    requires opened { IsSound opened.now }
    requires closed { IsSound closed.now }
    requires shape { closed.now.shape ≡ opened.now.shape }
    requires within { place < count_of opened.now.shape }
    ensures { result ≡ changed_at is_same_irq_end (irq_end_at opened.now) (irq_end_at closed.now) place }
{
    let end = irq_end(closed, place);
    (!is_same_irq(&irq_end(opened, place), &end)).then_some(end)
}

fn cpu_ends(alloc: Global, opened: &IdealGuest, closed: &IdealGuest) -> Result<CpuEnds, AllocError>
    requires opened { IsSound opened.now }
    requires closed { IsSound closed.now }
    requires shape { closed.now.shape ≡ opened.now.shape }
    ensures { IfOk result (λ ends. ends ≡ changed is_same_cpu_end (cpu_end_at opened.now) (cpu_end_at closed.now) opened.now.shape.vcpus) }
{
    let mut ends = ListOf::new(alloc);
    for vcpu in 0..opened.shape.vcpus {
        if let Some(end) = changed_cpu(opened, closed, vcpu) {
            ends.push(end)?;
        }
    }
    Ok(ends)
}

fn irq_ends(alloc: Global, opened: &IdealGuest, closed: &IdealGuest) -> Result<IrqEnds, AllocError>
    requires opened { IsSound opened.now }
    requires closed { IsSound closed.now }
    requires shape { closed.now.shape ≡ opened.now.shape }
    ensures { IfOk result (λ ends. ends ≡ changed is_same_irq_end (irq_end_at opened.now) (irq_end_at closed.now) (count_of opened.now.shape)) }
{
    let mut ends = ListOf::new(alloc);
    for place in 0..interrupt_count(&opened.shape) {
        if let Some(end) = changed_irq(opened, closed, place) {
            ends.push(end)?;
        }
    }
    Ok(ends)
}

/// GICD_CTLR, if its group enables are not as at the opening.
fn gicd_end(opened: &IdealGuest, closed: &IdealGuest) -> Option<u32>
    ensures { result ≡ gicd_end_between opened.now closed.now }
{
    let end = ctlr(closed.enables, false);
    (ctlr(opened.enables, false) != end).then_some(end)
}

fn is_same_its(a: &ItsEnd, b: &ItsEnd) -> bool
    ensures { result ≡ is_same_its_end a.now b.now }
{
    a.ctlr == b.ctlr
        && a.cbaser == b.cbaser
        && a.cwriter == b.cwriter
        && a.creadr == b.creadr
        && a.fault == b.fault
}

/// The end of the ITS.
fn its_end(guest: &IdealGuest) -> ItsEnd
    requires { IsSound guest.now }
    ensures { result ≡ its_end_at guest.now }
{
    ItsEnd {
        ctlr: ideal_guest::its_ctlr(guest.is_its_enabled()),
        cbaser: guest.word(PlainWord::Cbaser),
        cwriter: guest.word(PlainWord::Cwriter),
        creadr: creadr(guest.is_stalled, guest.offset),
        fault: if guest.is_stalled {
            guest.word(PlainWord::Fault) as u8
        } else {
            0
        },
    }
}

/// The end of the ITS of a guest that has one, if it is not as at the opening.
fn changed_its(opened: &IdealGuest, closed: &IdealGuest) -> Option<ItsEnd>
    requires opened { IsSound opened.now }
    requires closed { IsSound closed.now }
    ensures { result ≡ its_end_between opened.now closed.now }
{
    let end = its_end(closed);
    (closed.shape.lpis != 0 && !is_same_its(&its_end(opened), &end)).then_some(end)
}

/// The ends of devices.
fn dev_ends(alloc: Global, pairs: &[(u32, u32)]) -> Result<DevEnds, AllocError>
    ensures { IfOk result (λ ends. ends ≡ map dev_end pairs.now) }
{
    let mut ends = ListOf::new(alloc);
    for pair in pairs {
        let (device, bits) = *pair;
        ends.push(DevEnd { device, bits })?;
    }
    Ok(ends)
}

/// The ends of events.
fn evt_ends(alloc: Global, pairs: &[((u32, u32), (u32, u16))]) -> Result<EvtEnds, AllocError>
    ensures { IfOk result (λ ends. ends ≡ map evt_end pairs.now) }
{
    let mut ends = ListOf::new(alloc);
    for pair in pairs {
        let ((device, event), (id, icid)) = *pair;
        ends.push(EvtEnd {
            device,
            event,
            id,
            icid,
        })?;
    }
    Ok(ends)
}

/// The ends of collections.
fn col_ends(alloc: Global, pairs: &[(u16, u32)]) -> Result<ColEnds, AllocError>
    ensures { IfOk result (λ ends. ends ≡ map col_end pairs.now) }
{
    let mut ends = ListOf::new(alloc);
    for pair in pairs {
        let (icid, vcpu) = *pair;
        ends.push(ColEnd { icid, vcpu })?;
    }
    Ok(ends)
}

/// How a guest that opened in the one state ended in the other, whose ITS has these tables in place of its own. An error
/// where memory is refused.
pub fn end_of(
    alloc: Global,
    opened: &IdealGuest,
    closed: &IdealGuest,
    tables: &ItsTables,
) -> Result<End, AllocError>
    requires opened { IsSound opened.now }
    requires closed { IsSound closed.now }
    requires shape { closed.now.shape ≡ opened.now.shape }
    ensures { IfOk result (λ end. end ≡ end_between opened.now (record closed.now { tables = tables.now })) }
{
    Ok(End {
        gicd: gicd_end(opened, closed),
        cpus: cpu_ends(alloc, opened, closed)?,
        irqs: irq_ends(alloc, opened, closed)?,
        its: changed_its(opened, closed),
        devs: dev_ends(alloc, tables.devices(alloc)?.as_slice())?,
        evts: evt_ends(alloc, tables.events(alloc)?.as_slice())?,
        cols: col_ends(alloc, tables.collections(alloc)?.as_slice())?,
    })
}
