//! Drawn runs, against a plain program.
ghost use Rattle.std.specs.Prelude.{◌≤◌, ◌<◌};

use crate::plain::Plain;
use gic_top::IccReg;
use gic_top::host::{HostScenario, HostStep, HostStepList, Link, LinkList, PhysSet, run_host};
use std::alloc::{AllocError, Global};
use std::fmt::Write;
use std::test::Fail;

/// How many runs are drawn, and how many steps each has.
const RUNS: u64 = 200;

const STEPS: usize = 300;
/// The most links of a run.
const MAX_LINKS: u32 = 6;

/// Numbers that are drawn one after the other.
#[derive(Drop)]
struct Draw {
    x: u64,
}

impl Draw {
    /// A number below this one.
    fn below(&mut self, count: u64) -> u64
        requires { 1 ≤ count }
        ensures { result < count }
    {
        self.x = self
            .x
            .wrapping_mul(6_364_136_223_846_793_005)
            .wrapping_add(1_442_695_040_888_963_407);
        self.x / (1 << 33) % count
    }

    fn below_32(&mut self, count: u32) -> u32
        requires { 1 ≤ count }
        ensures { result < count }
    {
        self.below(u64::from(count)) as u32
    }
}

/// Up to six links, no two of which clash: the physical INTID counts up, and so does the virtual one by another step.
fn links(alloc: Global, draw: &mut Draw, count: u32, vcpus: u32) -> Result<LinkList, AllocError>
    requires { 1 ≤ count × count ≤ MAX_LINKS × 1 ≤ vcpus }
{
    let mut links = LinkList::new(alloc);
    for place in 0..count {
        links.push(Link {
            phys: 100 + place,
            vid: 40 + (place + draw.below_32(2) * MAX_LINKS) % (2 * MAX_LINKS),
            vcpu: draw.below_32(vcpus),
            prio: (draw.below(4) * 32 + 32) as u8,
        })?;
    }
    Ok(links)
}

/// An access of the vCPU that is loaded.
fn access(draw: &mut Draw) -> HostStep {
    let id = 40 + draw.below(12);
    let (reg, write) = match draw.below(12) {
        0..=4 => (IccReg::Iar1, None),
        5..=8 => (IccReg::Eoir1, Some(id)),
        9 => (IccReg::Dir, Some(id)),
        10 => (IccReg::Hppir1, None),
        _ => match draw.below(4) {
            0 => (IccReg::Ctlr, Some(draw.below(2) * 2)),
            1 => (IccReg::Pmr, Some(draw.below(2) * 128 + 112)),
            2 => (IccReg::Rpr, None),
            _ => (IccReg::Pmr, None),
        },
    };
    HostStep::Icc { reg, write }
}

/// A step on one of so many physical interrupts.
fn on_phys(draw: &mut Draw, count: u32) -> HostStep
    requires { 1 ≤ count × count ≤ MAX_LINKS }
{
    let phys = 100 + draw.below_32(count);
    let set = match draw.below(10) {
        0..=5 => Some(PhysSet::Pend),
        6 => Some(PhysSet::Clear),
        7 => Some(PhysSet::Enable),
        8 => Some(PhysSet::Disable),
        _ => None,
    };
    HostStep::Phys { phys, set }
}

/// Steps that may follow one another.
fn steps(alloc: Global, draw: &mut Draw, count: u32, vcpus: u32) -> Result<HostStepList, AllocError>
    requires { 1 ≤ count × count ≤ MAX_LINKS × 1 ≤ vcpus }
{
    let mut steps = HostStepList::new(alloc);
    let mut loaded = true;
    for _ in 0..STEPS {
        let step = match draw.below(20) {
            0 if loaded => HostStep::Exit,
            0..=1 => HostStep::Lrs,
            2..=9 => on_phys(draw, count),
            _ if loaded => access(draw),
            _ => HostStep::Enter {
                vcpu: draw.below_32(vcpus),
            },
        };
        loaded = match step {
            HostStep::Enter { .. } => true,
            HostStep::Exit => false,
            _ => loaded,
        };
        steps.push(step)?;
    }
    Ok(steps)
}

fn scenario(alloc: Global, seed: u64) -> Result<HostScenario, AllocError> {
    let mut draw = Draw { x: seed };
    let vcpus = 1 + draw.below_32(4);
    let lrs = 1 + draw.below_32(3);
    let count = 1 + draw.below_32(MAX_LINKS);
    let links = links(alloc, &mut draw, count, vcpus)?;
    let steps = steps(alloc, &mut draw, count, vcpus)?;
    Ok(HostScenario {
        vcpus,
        lrs,
        links,
        steps,
    })
}

/// The text of the plain program, without its last line.
fn plain_text(alloc: Global, scenario: &HostScenario) -> Result<String, AllocError> {
    let mut plain = Plain::new(alloc, scenario)?;
    let mut text = String::new(alloc);
    for (index, step) in scenario.steps.as_slice().iter().enumerate() {
        plain.step(&mut text, scenario.lrs, index + 1, step)?;
    }
    let reads = scenario
        .steps
        .as_slice()
        .iter()
        .filter(|step| matches!(step, HostStep::Icc { write: None, .. }))
        .count();
    writeln!(text, "end {STEPS} {reads}")?;
    Ok(text)
}

#[test]
fn drawn_runs_are_as_the_plain_program_has_them(rt: HostRuntime) -> Result<(), Fail> {
    for seed in 0..RUNS {
        let scenario = scenario(rt.alloc(), seed)?;
        assert!(rt; scenario.is_good(), "seed {seed}");
        let bytes = run_host(rt.alloc(), &scenario)?;
        let text = plain_text(rt.alloc(), &scenario)?;
        assert!(rt; bytes.as_slice() == text.as_bytes(), "seed {seed}");
    }
    Ok(())
}
