//! What can be run, and the faults of steps.
ghost use Rattle.std.specs.Prelude.{◌≡◌, ◌==◌, None, find, true};
ghost use Rattle.std.specs.List.{list_any, list_all};
ghost use Rattle.scn_read.specs.ScnBase.Codes.{ok_unless};
ghost use Rattle.gic_host.specs.declared.step.HostStep.TheVariants.{Phys, Icc, Enter, Exit};
ghost use Rattle.gic_host.specs.Good.{is_spi as is_spi_number, is_priority as is_priority_value, is_good_link, clash, has_clash as have_clash, is_usable as can_be_used, step_fault, is_loaded_after, are_good_steps as have_no_fault, are_good_links as are_links_good, is_good as is_good_scenario};

use crate::link::Link;
use crate::scenario::{HostScenario, MAX_LINKS, MAX_STEPS, MAX_VCPUS};
use crate::step::HostStep;
use scn_read::{
    IccReg, MAX_LIST_REGISTERS, MAX_PRIORITY, NOT_LOADED, PE_BUSY, UNKNOWN_ACTOR, UNKNOWN_REGISTER,
};

/// The least INTID of an SPI (IHI 0069, "INTIDs").
const FIRST_SPI: u64 = 32;
/// The greatest INTID of an SPI.
const LAST_SPI: u64 = 1019;
/// Priorities are the multiples of this.
const PRIORITY_STEP: u64 = 8;

/// Whether an INTID is that of an SPI: 32 to 1019.
pub(crate) fn is_spi(id: u64) -> bool
    ensures { result ≡ is_spi_number id }
{
    (FIRST_SPI..=LAST_SPI).contains(&id)
}

/// Whether a priority is a multiple of 8 up to 248.
pub(crate) fn is_priority(prio: u64) -> bool
    ensures { result ≡ is_priority_value prio }
{
    prio <= u64::from(MAX_PRIORITY) && prio % PRIORITY_STEP == 0
}

/// Whether a register can be read, or written: not SGI1R, since a vCPU of this model has no SGIs.
fn is_usable(reg: IccReg, write: Option<u64>) -> bool
    ensures { result ≡ can_be_used reg write }
{
    match (reg, write) {
        (IccReg::Sgi1r, _) => false,
        (reg, None) => reg.is_readable(),
        (reg, Some(_)) => reg.is_writable(),
    }
}

impl Link {
    /// Whether the link has good numbers, where there are so many vCPUs.
    fn is_good(&self, vcpus: u32) -> bool
        ensures { result ≡ is_good_link vcpus self.now }
    {
        is_spi(u64::from(self.phys))
            && is_spi(u64::from(self.vid))
            && is_priority(u64::from(self.prio))
            && self.vcpu < vcpus
    }

    /// Whether the two links have one physical interrupt, or one virtual interrupt of a vCPU.
    fn clashes(&self, other: &Link) -> bool
        ensures { result ≡ clash self.now other.now }
    {
        self.phys == other.phys || (self.vid == other.vid && self.vcpu == other.vcpu)
    }

    /// Whether the link clashes with one of these.
    fn clashes_with(&self, others: &[Link]) -> bool
        ensures { result ≡ list_any (clash self.now) others.now }
    {
        others.iter().any(|other| self.clashes(other))
    }
}

/// Whether two of the links clash.
pub(crate) fn has_clash(links: &[Link]) -> bool
    ensures { result ≡ have_clash links.now }
{
    for (index, link) in links.iter().enumerate() {
        if link.clashes_with(&links[index + 1..]) {
            return true;
        }
    }
    false
}

/// Whether each link has good numbers.
fn are_in_range(links: &[Link], vcpus: u32) -> bool
    ensures { result ≡ list_all (is_good_link vcpus) links.now }
{
    links.iter().all(|link| link.is_good(vcpus))
}

/// Whether the links are at most 64, have good numbers, and do not clash.
fn are_good_links(links: &[Link], vcpus: u32) -> bool
    ensures { result ≡ are_links_good vcpus links.now }
{
    links.len() <= MAX_LINKS && are_in_range(links, vcpus) && !has_clash(links)
}

/// Whether one of the links is of a physical interrupt.
fn find_phys(links: &[Link], phys: u64) -> Option<Link>
    ensures { result ≡ find (λ link. link.phys == phys) links.now }
{
    links
        .iter()
        .copied()
        .find(|link| u64::from(link.phys) == phys)
}

/// What steps are judged by: the links, how many vCPUs there are, and whether one is loaded.
#[derive(Clone, Copy, Debug)]
pub(crate) struct Standing<'l> {
    pub links: &'l [Link],
    pub vcpus: u32,
    pub loaded: bool,
}

impl<'l> Standing<'l> {
    /// A physical interrupt, of which there has to be a link.
    pub fn phys(&self, phys: u64) -> Result<u32, u8>
        ensures { result ≡ ok_unless (step_fault self.now.links.now self.now.vcpus self.now.loaded (Phys phys None)) phys }
    {
        match find_phys(self.links, phys) {
            Some(link) => Ok(link.phys),
            None => Err(UNKNOWN_ACTOR),
        }
    }

    /// A vCPU that is loaded, which has to be there, while none is.
    pub fn entered(&self, vcpu: u64) -> Result<u32, u8>
        ensures { result ≡ ok_unless (step_fault self.now.links.now self.now.vcpus self.now.loaded (Enter vcpu)) vcpu }
    {
        if vcpu >= u64::from(self.vcpus) {
            return Err(UNKNOWN_ACTOR);
        }
        if self.loaded {
            return Err(PE_BUSY);
        }
        Ok(vcpu as u32)
    }

    /// The fault of an access of a register.
    pub fn access_fault(&self, reg: IccReg, write: Option<u64>) -> Option<u8>
        ensures { result ≡ step_fault self.now.links.now self.now.vcpus self.now.loaded (Icc reg write) }
    {
        if !is_usable(reg, write) {
            return Some(UNKNOWN_REGISTER);
        }
        (!self.loaded).then_some(NOT_LOADED)
    }

    /// The fault of an exit.
    pub fn exit_fault(&self) -> Option<u8>
        ensures { result ≡ step_fault self.now.links.now self.now.vcpus self.now.loaded Exit }
    {
        (!self.loaded).then_some(NOT_LOADED)
    }

    /// The fault of a step.
    fn fault_of(&self, step: &HostStep) -> Option<u8>
        ensures { result ≡ step_fault self.now.links.now self.now.vcpus self.now.loaded step.now }
    {
        match *step {
            HostStep::Phys { phys, .. } => self.phys(u64::from(phys)).err(),
            HostStep::Icc { reg, write } => self.access_fault(reg, write),
            HostStep::Enter { vcpu } => self.entered(u64::from(vcpu)).err(),
            HostStep::Exit => self.exit_fault(),
            HostStep::Lrs => None,
        }
    }
}

/// Whether a vCPU is loaded after a step.
pub(crate) fn loaded_after(step: &HostStep, loaded: bool) -> bool
    ensures { result ≡ is_loaded_after step.now loaded }
{
    match step {
        HostStep::Enter { .. } => true,
        HostStep::Exit => false,
        _ => loaded,
    }
}

/// Whether no step has a fault, where a vCPU is loaded before the first.
fn are_good_steps(links: &[Link], vcpus: u32, steps: &[HostStep]) -> bool
    ensures { result ≡ have_no_fault links.now vcpus true steps.now }
{
    let mut loaded = true;
    for step in steps {
        let standing = Standing {
            links,
            vcpus,
            loaded,
        };
        if standing.fault_of(step).is_some() {
            return false;
        }
        loaded = loaded_after(step, loaded);
    }
    true
}

impl HostScenario {
    /// Whether nothing of it is at fault. `run_host` requires it.
    pub fn is_good(&self) -> bool
        ensures { result ≡ is_good_scenario self.now }
    {
        (1..=MAX_VCPUS).contains(&self.vcpus)
            && (1..=MAX_LIST_REGISTERS).contains(&(self.lrs as usize))
            && are_good_links(self.links.as_slice(), self.vcpus)
            && self.steps.len() <= MAX_STEPS
            && are_good_steps(self.links.as_slice(), self.vcpus, self.steps.as_slice())
    }
}
