//! A run.
ghost use Rattle.std.specs.Prelude.{◌≡◌, ◌≤◌, ◌++◌, None, is_some, IsTrue, IfOk, OnOk, string_bytes, length};
ghost use Rattle.gic_ich.specs.Words.{MAX_LIST_REGISTERS};
ghost use Rattle.gic_host.specs.State.{after};
ghost use Rattle.gic_host.specs.Text.{line, text as text_of};
ghost use Rattle.gic_host.specs.Good.{is_good, step_fault};
ghost use Rattle.gic_host.specs.Access.{IsRunning};

use crate::host::Host;
use crate::link::LinkList;
use crate::scenario::HostScenario;
use crate::step::HostStep;
use crate::text::{write_counts, write_lrs, write_phys, write_value};
use gic_report::Bytes;
use scn_read::NoMemory;
use std::alloc::{AllocError, Global};
use std::fmt::Write;

/// Carries out a step on a PE with so many list registers, and writes its line if it has one.
fn take_step(
    host: &mut Host,
    links: &LinkList,
    lrs: u32,
    number: usize,
    step: &HostStep,
    text: &mut String,
) -> Result<(), AllocError>
    requires lrs { 1 ≤ lrs × lrs ≤ MAX_LIST_REGISTERS }
    requires running { IsRunning links.now (length host.old.cpus) host.old }
    requires good { step_fault links.now (length host.old.cpus) (is_some host.old.loaded) step.now ≡ None }
    ensures text { OnOk result (string_bytes text.new ≡ string_bytes text.old ++ line lrs number step.now host.old) }
    ensures state { OnOk result (host.new ≡ after step.now host.old) }
{
    match *step {
        HostStep::Phys { phys, set: None } => {
            if let Some(link) = host.link_of(phys) {
                write_phys(text, number, &link)?;
            }
        }
        HostStep::Phys {
            phys,
            set: Some(set),
        } => host.set(phys, set),
        HostStep::Icc { reg, write } => {
            if let Some(vcpu) = host.loaded {
                let value = host.access(links, lrs, vcpu, reg, write);
                write_value(text, number, value)?;
            }
        }
        HostStep::Enter { vcpu } => host.loaded = Some(vcpu),
        HostStep::Exit => host.loaded = None,
        HostStep::Lrs => write_lrs(text, number, &host.registers(links, lrs), lrs)?,
    }
    host.settle();
    Ok(())
}

/// Runs the steps, and answers the text of the run: the lines of the steps, and a last line with their count and that of
/// the reads of the CPU interface. Nothing of the scenario has to be at fault (`HostScenario::is_good`). Where memory is
/// refused, the answer is `NoMemory`.
pub fn run_host(alloc: Global, scenario: &HostScenario) -> Result<Bytes, NoMemory>
    requires { IsTrue (is_good scenario.now) }
    ensures value { IfOk result (λ bytes. bytes ≡ text_of scenario.now) }
{
    let mut host = Host::opening(alloc, scenario)?;
    let mut text = String::new(alloc);
    for (index, step) in scenario.steps.as_slice().iter().enumerate() {
        take_step(
            &mut host,
            &scenario.links,
            scenario.lrs,
            index + 1,
            step,
            &mut text,
        )?;
    }
    write_counts(&mut text, &scenario.steps)?;
    Ok(Bytes::from(text.into_bytes()))
}
