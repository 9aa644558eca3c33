//! Accesses of the distributor.
ghost use Rattle.std.specs.Prelude.{◌≡◌, ◌<◌, IsTrue, Some, false};
ghost use Rattle.its_exec.specs.Registers.{SetSpi, ClrSpi, Router, Whole, half_limit};
ghost use Rattle.its_exec.specs.Calls.{FitsDist};
ghost use Rattle.its_exec.specs.PortCall.Rest.{IsAtEase};
ghost use Rattle.pe_mem.specs.Dist.{ServesDist, ReadsDist, WritesDist};

use crate::ctlr::{low, read_ctlr, write_ctlr};
use crate::parts::{access_number, access_parts, write_half};
use its_exec::{
    DistReg as Reg, DistRegRef as RegRef, Frame, Half, IIDR, Kind, PIDR2, Port, Touching,
    dist_typer as typer, message_intid, part_key, raise, touch,
};
use std::sync::Wait;

/// A write of 1 to an interrupt's part of ICPENDR.
const CLEAR: Touching = Touching::Register {
    kind: Kind::ClearPending,
    value: 1,
};

/// A write of SETSPI_NSR: the SPI that it names becomes pending, if the guest has it.
fn set_spi<P: Port>(port: &mut P, value: u64)
    requires { IsAtEase (P.seen port.old).local }
    ensures { WritesDist (P.seen port.old) (P.seen port.new) SetSpi Whole value }
{
    let id = message_intid(low(value));
    if let Some(key) = part_key(Frame::Dist, Kind::SetPending, id, &port.shape()) {
        raise(port, key);
    }
}

/// A write of CLRSPI_NSR: of the SPI that it names no cause is latched any more, if the guest has it.
fn clear_spi<P: Port, R: Wait>(rt: &R, port: &mut P, value: u64)
    requires { IsAtEase (P.seen port.old).local }
    ensures { WritesDist (P.seen port.old) (P.seen port.new) ClrSpi Whole value }
{
    let id = message_intid(low(value));
    if let Some(key) = part_key(Frame::Dist, Kind::ClearPending, id, &port.shape()) {
        touch(rt, port, key, CLEAR);
    }
}

/// A write of a half of the IROUTER of an SPI, if the guest has it: the other half is as it is stored.
fn write_router<P: Port, R: Wait>(rt: &R, port: &mut P, id: u32, half: Half, value: u64)
    requires fits { value < half_limit half }
    requires ease { IsAtEase (P.seen port.old).local }
    ensures { WritesDist (P.seen port.old) (P.seen port.new) (Router id) half value }
{
    if let Some(key) = part_key(Frame::Dist, Kind::Routing, id, &port.shape()) {
        write_half(rt, port, key, Kind::Routing, half, value);
    }
}

/// A read of a register of the distributor that has no part for each interrupt.
fn read_dist<P: Port, R: Wait>(rt: &R, port: &mut P, reg: Reg) -> u64
    requires { IsAtEase (P.seen port.old).local }
    ensures { ReadsDist (P.seen port.old) (P.seen port.new) reg result }
{
    match reg {
        Reg::Ctlr => read_ctlr(port),
        Reg::Typer => u64::from(typer(&port.shape())),
        Reg::Iidr => u64::from(IIDR),
        Reg::Router { id } => access_number(rt, port, Frame::Dist, Kind::Routing, id, None),
        Reg::Pidr2 => u64::from(PIDR2),
        Reg::SetSpi | Reg::ClrSpi => 0,
    }
}

/// A write of one, or of a half of one. What the architecture does not let be written stays.
fn write_dist<P: Port, R: Wait>(rt: &R, port: &mut P, reg: Reg, half: Half, value: u64)
    requires fits { value < half_limit half }
    requires ease { IsAtEase (P.seen port.old).local }
    requires free { (P.seen port.old).local.ctlr ≡ false }
    ensures { WritesDist (P.seen port.old) (P.seen port.new) reg half value }
{
    match reg {
        Reg::Ctlr => write_ctlr(rt, port, value),
        Reg::SetSpi => set_spi(port, value),
        Reg::ClrSpi => clear_spi(rt, port, value),
        Reg::Router { id } => write_router(rt, port, id, half, value),
        Reg::Typer | Reg::Iidr | Reg::Pidr2 => {}
    }
}

/// Makes an access of the distributor, by what is at its offset: a read, which answers what it finds, or a write of a value.
pub(crate) fn access_dist<P: Port, R: Wait>(
    rt: &R,
    port: &mut P,
    reference: RegRef,
    write: Option<u64>,
) -> u64
    requires fits { FitsDist reference write }
    requires ease { IsAtEase (P.seen port.old).local }
    requires free { (P.seen port.old).local.ctlr ≡ false }
    ensures { ServesDist (P.seen port.old) (P.seen port.new) reference write result }
{
    match (reference, write) {
        (RegRef::Bits { kind, first, count }, _) => {
            access_parts(rt, port, Frame::Dist, kind, first, count, write)
        }
        (RegRef::Plain { reg, half }, None) => half.of(read_dist(rt, port, reg)),
        (RegRef::Plain { reg, half }, Some(value)) => {
            write_dist(rt, port, reg, half, value);
            0
        }
        (RegRef::Reserved, _) => 0,
    }
}
