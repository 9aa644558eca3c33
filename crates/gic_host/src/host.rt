//! The state of a run.
ghost use Rattle.std.specs.Prelude.{◌≡◌, ◌<◌, ◌≤◌, ◌∷◌, IfOk, IfSome, IsTrue, Some, find, map, length, take};
ghost use Rattle.gic_ich.specs.GicPrio.Interface.{interface_answer};
ghost use Rattle.gic_host.specs.declared.link.Link.{Link};
ghost use Rattle.gic_host.specs.State.{opening as opening_of, opening_link, settled_link, settled as settled_state, with_set as changed_by_set, is_of as is_of_phys, cpu_at, interface_at, after_access};
ghost use Rattle.gic_host.specs.Text.{registers_of};
ghost use Rattle.gic_host.specs.Good.{is_usable};
ghost use Rattle.gic_host.specs.Access.{IsRunning};

use crate::icc::{Registers, access_links, registers_for};
use crate::link::LinkList;
use crate::scenario::HostScenario;
use crate::state::LinkState;
use crate::step::PhysSet;
use gic_ich::{CpuRec, IccReg, MAX_LIST_REGISTERS};
use gic_open::opening_cpu;
use std::alloc::{AllocError, Global};
use std::marker::Model;

/// The links with their interrupts, the CPU record of each vCPU, and the vCPU that is loaded.
#[derive(Debug, Drop)]
pub(crate) struct Host {
    links: Vec<LinkState>,
    cpus: Vec<CpuRec>,
    pub loaded: Option<u32>,
}

impl Model for Host {
    ghost use Rattle.gic_host.specs.State.{HostState};

    ghost Value = { HostState };

    ghost view = { λ host. record { links = host.links.items; cpus = host.cpus.items; loaded = host.loaded } };
}

/// The links as a run begins.
fn opening_links(alloc: Global, links: &LinkList) -> Result<Vec<LinkState>, AllocError>
    ensures { IfOk result (λ states. states.items ≡ map opening_link links.now) }
{
    let mut states = Vec::new(alloc);
    for link in links.as_slice() {
        states.push(LinkState::opening(*link))?;
    }
    Ok(states)
}

/// The links after the hypervisor has taken what it can.
fn settle(links: &mut [LinkState])
    ensures { links.new ≡ map settled_link links.old }
{
    for link in links.iter_mut() {
        *link = link.settled();
    }
}

/// The links after a step on a physical interrupt.
fn change(links: &mut [LinkState], phys: u32, set: PhysSet)
    ensures { links.new ≡ map (changed_by_set phys set) links.old }
{
    for link in links.iter_mut() {
        *link = link.with_set(phys, set);
    }
}

impl Host {
    /// The state as a run begins. An error where memory for it is refused.
    pub fn opening(alloc: Global, scenario: &HostScenario) -> Result<Host, AllocError>
        ensures { IfOk result (λ host. host ≡ opening_of scenario.now) }
    {
        Ok(Host {
            links: opening_links(alloc, &scenario.links)?,
            cpus: vec![in alloc; opening_cpu(true); scenario.vcpus as usize]?,
            loaded: Some(0),
        })
    }

    /// The hypervisor takes each physical interrupt that is latched, enabled and not active.
    pub fn settle(&mut self)
        ensures { self.new ≡ settled_state self.old }
    {
        settle(self.links.as_mut_slice());
    }

    /// Something is done to a physical interrupt.
    pub fn set(&mut self, phys: u32, set: PhysSet)
        ensures { self.new ≡ record self.old { links = map (changed_by_set phys set) self.old.links } }
    {
        change(self.links.as_mut_slice(), phys, set);
    }

    /// The link of a physical interrupt.
    pub fn link_of(&self, phys: u32) -> Option<LinkState>
        ensures { result ≡ find (is_of_phys phys) self.now.links }
    {
        self.links
            .as_slice()
            .iter()
            .copied()
            .find(|link| link.is_of(phys))
    }

    /// What the vCPU that is loaded reads from a register of its CPU interface, or None for a write of the value.
    pub fn access(
        &mut self,
        links: &LinkList,
        lrs: u32,
        vcpu: u32,
        reg: IccReg,
        write: Option<u64>,
    ) -> Option<u64>
        requires lrs { 1 ≤ lrs × lrs ≤ MAX_LIST_REGISTERS }
        requires vcpu { vcpu < length self.old.cpus }
        requires running { IsRunning links.now (length self.old.cpus) self.old }
        requires usable { IsTrue (is_usable reg write) }
        ensures answer { result ≡ interface_answer reg write (interface_at self.old vcpu) }
        ensures state { self.new ≡ after_access reg write vcpu self.old }
    {
        let cpu = self.cpus[vcpu as usize];
        let done = access_links(
            self.links.as_mut_slice(),
            links,
            lrs,
            vcpu,
            &cpu,
            reg,
            write,
        );
        self.cpus[vcpu as usize] = done.cpu;
        done.value
    }

    /// ICH_HCR and the list registers of the PE: the plan of the vCPU that is loaded, with its links, or zeros.
    pub fn registers(&self, links: &LinkList, lrs: u32) -> Registers
        requires lrs { 1 ≤ lrs × lrs ≤ MAX_LIST_REGISTERS }
        requires running { IsRunning links.now (length self.now.cpus) self.now }
        ensures { result.hcr ∷ take lrs result.words ≡ registers_of lrs self.now }
    {
        match self.loaded {
            Some(vcpu) => {
                let cpu = self.cpus[vcpu as usize];
                registers_for(self.links.as_slice(), links, lrs, vcpu, &cpu)
            }
            None => Registers {
                hcr: 0,
                words: [0; MAX_LIST_REGISTERS],
            },
        }
    }
}
