//! Accesses of a redistributor.
ghost use Rattle.std.specs.Prelude.{◌≡◌, ◌<◌, IsTrue, true, false, Some};
ghost use Rattle.its_exec.specs.Registers.{half_limit};
ghost use Rattle.its_exec.specs.GicRmap.declared.map.Reg.TheVariants.{Ctlr};
ghost use Rattle.its_exec.specs.Calls.{has_plain, FitsRedist};
ghost use Rattle.its_exec.specs.Core.{shape_of};
ghost use Rattle.its_exec.specs.PortCall.Plain.{is_event_word};
ghost use Rattle.its_exec.specs.PortCall.Store.{is_its_ctlr};
ghost use Rattle.its_exec.specs.PortCall.Rest.{IsAtEase};
ghost use Rattle.pe_mem.specs.Redist.{LooksAtLpis, StoresTable, ReadsRedist, WritesRedist, ServesRedist};
ghost use Rattle.pe_mem.specs.Store.{changed_by, FitsChange};

use crate::ctlr::low;
use crate::parts::access_parts;
use crate::pending::enable_lpis;
use crate::store::{Change, update};
use its_exec::{
    CoreStep, Frame, Half, IIDR, PIDR2, PlainWord, Port, RedistReg as Reg, RedistRegRef as RegRef,
    VcpuWord, WordId, enable_lpis_after, pendbaser_read, read_plain, redist_typer as typer,
};
use std::sync::Wait;

/// Looks at EnableLPIs of a vCPU's redistributor.
fn look_at_lpis<P: Port>(port: &mut P, vcpu: u32) -> bool
    requires { vcpu < (shape_of (P.seen port.old)).vcpus }
    ensures { LooksAtLpis (P.seen port.old) (P.seen port.new) vcpu result }
{
    let word = port.step(CoreStep::Look {
        word: WordId::Vcpu(vcpu),
    });
    VcpuWord::of(word).lpis
}

/// Stores a register of a vCPU's tables changed, unless EnableLPIs is 1.
fn store_table<P: Port, R: Wait>(rt: &R, port: &mut P, vcpu: u32, word: PlainWord, change: Change)
    requires vcpu { vcpu < (shape_of (P.seen port.old)).vcpus }
    requires there { IsTrue (has_plain (shape_of (P.seen port.old)) word) }
    requires kept { is_event_word word ≡ true }
    requires other { is_its_ctlr word ≡ false }
    requires fits { FitsChange change }
    requires ease { IsAtEase (P.seen port.old).local }
    ensures { StoresTable (P.seen port.old) (P.seen port.new) vcpu word (changed_by change) }
{
    if !look_at_lpis(port, vcpu) {
        update(rt, port, word, change);
    }
}

/// What GICR_CTLR of a vCPU reads: it has EnableLPIs alone, in a guest with LPIs.
fn read_ctlr<P: Port>(port: &mut P, vcpu: u32) -> u64
    requires vcpu { vcpu < (shape_of (P.seen port.old)).vcpus }
    requires ease { IsAtEase (P.seen port.old).local }
    ensures { ReadsRedist (P.seen port.old) (P.seen port.new) vcpu Ctlr result }
{
    let shape = port.shape();
    if shape.lpis == 0 {
        return 0;
    }
    u64::from(its_exec::redist_ctlr(&shape, look_at_lpis(port, vcpu)))
}

/// A read of a register of a vCPU's redistributor that has no part for each interrupt.
fn read_redist<P: Port>(port: &mut P, vcpu: u32, reg: Reg) -> u64
    requires vcpu { vcpu < (shape_of (P.seen port.old)).vcpus }
    requires ease { IsAtEase (P.seen port.old).local }
    ensures { ReadsRedist (P.seen port.old) (P.seen port.new) vcpu reg result }
{
    match reg {
        Reg::Ctlr => read_ctlr(port, vcpu),
        Reg::Iidr => u64::from(IIDR),
        Reg::Typer => typer(&port.shape(), vcpu),
        Reg::Propbaser => read_plain(port, PlainWord::Propbaser { vcpu }),
        Reg::Pendbaser => pendbaser_read(read_plain(port, PlainWord::Pendbaser { vcpu })),
        Reg::Pidr2 => u64::from(PIDR2),
    }
}

/// A write of a register of a vCPU's redistributor that has no part for each interrupt, or of a half of one. The addresses of
/// the tables are stored only while EnableLPIs is 0, which goes from 0 to 1 alone.
fn write_redist<P: Port, R: Wait>(rt: &R, port: &mut P, vcpu: u32, reg: Reg, half: Half, value: u64)
    requires vcpu { vcpu < (shape_of (P.seen port.old)).vcpus }
    requires fits { value < half_limit half }
    requires ease { IsAtEase (P.seen port.old).local }
    ensures { WritesRedist (P.seen port.old) (P.seen port.new) vcpu reg half value }
{
    match reg {
        Reg::Ctlr => {
            if enable_lpis_after(&port.shape(), false, low(value)) {
                enable_lpis(rt, port, vcpu);
            }
        }
        Reg::Propbaser => {
            let word = PlainWord::Propbaser { vcpu };
            store_table(rt, port, vcpu, word, Change::Propbaser { half, value });
        }
        Reg::Pendbaser => {
            let word = PlainWord::Pendbaser { vcpu };
            store_table(rt, port, vcpu, word, Change::Pendbaser { half, value });
        }
        Reg::Iidr | Reg::Typer | Reg::Pidr2 => {}
    }
}

/// Makes an access of a vCPU's redistributor, by what is at its offset: a read, which answers what it finds, or a write of a
/// value.
pub(crate) fn access_redist<P: Port, R: Wait>(
    rt: &R,
    port: &mut P,
    vcpu: u32,
    reference: RegRef,
    write: Option<u64>,
) -> u64
    requires vcpu { vcpu < (shape_of (P.seen port.old)).vcpus }
    requires fits { FitsRedist reference write }
    requires ease { IsAtEase (P.seen port.old).local }
    ensures { ServesRedist (P.seen port.old) (P.seen port.new) vcpu reference write result }
{
    match (reference, write) {
        (RegRef::Bits { kind, first, count }, _) => {
            let frame = Frame::Redist { vcpu };
            access_parts(rt, port, frame, kind, first, count, write)
        }
        (RegRef::Plain { reg, half }, None) => half.of(read_redist(port, vcpu, reg)),
        (RegRef::Plain { reg, half }, Some(value)) => {
            write_redist(rt, port, vcpu, reg, half, value);
            0
        }
        (RegRef::Reserved, _) => 0,
    }
}
