//! Each worked scenario is run.

use crate::row::check;
use gic_top::OK;
use std::test::Fail;
use worked_rows::faults::FAULTS;
use worked_rows::interface::{ACKNOWLEDGES, LIST_REGISTERS, PRIORITIES, WIRES};
use worked_rows::its::{COMMANDS, LPIS, STALLS};
use worked_rows::list_registers::STEP_BY_STEP;
use worked_rows::memory_mapped::{EXTENDED_SPIS, PARTS, START, VALUES};
use worked_rows::vcpus::{MOVES, SGIS};

#[test]
fn stalls_at_each_fault(rt: HostRuntime) -> Result<(), Fail> {
    check(&rt, rt.alloc(), OK, &FAULTS)
}

#[test]
fn acknowledges_and_ends(rt: HostRuntime) -> Result<(), Fail> {
    check(&rt, rt.alloc(), OK, &ACKNOWLEDGES)
}

#[test]
fn goes_by_priority(rt: HostRuntime) -> Result<(), Fail> {
    check(&rt, rt.alloc(), OK, &PRIORITIES)
}

#[test]
fn shows_list_registers(rt: HostRuntime) -> Result<(), Fail> {
    check(&rt, rt.alloc(), OK, &LIST_REGISTERS)
}

#[test]
fn follows_wires(rt: HostRuntime) -> Result<(), Fail> {
    check(&rt, rt.alloc(), OK, &WIRES)
}

#[test]
fn delivers_lpis(rt: HostRuntime) -> Result<(), Fail> {
    check(&rt, rt.alloc(), OK, &LPIS)
}

#[test]
fn stalls_at_bad_commands(rt: HostRuntime) -> Result<(), Fail> {
    check(&rt, rt.alloc(), OK, &STALLS)
}

#[test]
fn does_commands(rt: HostRuntime) -> Result<(), Fail> {
    check(&rt, rt.alloc(), OK, &COMMANDS)
}

#[test]
fn shows_each_step(rt: HostRuntime) -> Result<(), Fail> {
    check(&rt, rt.alloc(), OK, &STEP_BY_STEP)
}

#[test]
fn changes_parts_of_interrupts(rt: HostRuntime) -> Result<(), Fail> {
    check(&rt, rt.alloc(), OK, &PARTS)
}

#[test]
fn tells_what_it_is(rt: HostRuntime) -> Result<(), Fail> {
    check(&rt, rt.alloc(), OK, &VALUES)
}

#[test]
fn has_extended_spis(rt: HostRuntime) -> Result<(), Fail> {
    check(&rt, rt.alloc(), OK, &EXTENDED_SPIS)
}

#[test]
fn starts(rt: HostRuntime) -> Result<(), Fail> {
    check(&rt, rt.alloc(), OK, &START)
}

#[test]
fn sends_sgis(rt: HostRuntime) -> Result<(), Fail> {
    check(&rt, rt.alloc(), OK, &SGIS)
}

#[test]
fn moves_vcpus(rt: HostRuntime) -> Result<(), Fail> {
    check(&rt, rt.alloc(), OK, &MOVES)
}
