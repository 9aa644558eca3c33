//! A plain program of linked interrupts, which goes by no registers and no plan.
use gic_top::IccReg;
use gic_top::host::{HostScenario, HostStep, Link, PhysSet};
use std::alloc::{AllocError, Global};
use std::fmt::Write;

/// The INTID that says that there is none.
const SPURIOUS: u64 = 1023;
/// The running priority where no level is active.
const IDLE: u32 = 0xff;
/// Group 1 and HW of a list register.
const GROUP_1_HW: u64 = 0x3000_0000_0000_0000;

#[derive(Clone, Copy, PartialEq, Eq)]
enum Virtual {
    Idle,
    Pending,
    Active,
}

#[derive(Clone, Copy)]
struct State {
    link: Link,
    enabled: bool,
    latch: bool,
    active: bool,
    now: Virtual,
}

/// A vCPU: its mask, whether an end drops the priority alone, and the active levels, one bit each.
#[derive(Clone, Copy)]
struct Cpu {
    pmr: u32,
    drops_alone: bool,
    levels: u32,
}

/// All of a run.
#[derive(Drop)]
pub(crate) struct Plain {
    states: Vec<State>,
    cpus: Vec<Cpu>,
    loaded: Option<u32>,
}

impl State {
    fn stands(&self, vcpu: u32, now: Virtual) -> bool {
        self.link.vcpu == vcpu && self.now == now
    }

    fn rank(&self) -> (u8, u32) {
        (self.link.prio, self.link.vid)
    }

    /// The list register with this State.
    fn word(&self, state: u64) -> u64 {
        GROUP_1_HW
            | state.wrapping_shl(62)
            | u64::from(self.link.prio).wrapping_shl(48)
            | u64::from(self.link.phys).wrapping_shl(32)
            | u64::from(self.link.vid)
    }
}

impl Cpu {
    fn running(&self) -> u32 {
        if self.levels == 0 {
            return IDLE;
        }
        self.levels.trailing_zeros().wrapping_mul(8)
    }
}

/// The least of these states by priority and INTID, of those that are above a rank.
fn next(states: &[State], vcpu: u32, now: Virtual, above: Option<(u8, u32)>) -> Option<State> {
    let mut best: Option<State> = None;
    for state in states {
        let is_above = match above {
            Some(rank) => state.rank() > rank,
            None => true,
        };
        let is_better = match &best {
            Some(other) => state.rank() < other.rank(),
            None => true,
        };
        if state.stands(vcpu, now) && is_above && is_better {
            best = Some(*state);
        }
    }
    best
}

/// How many interrupts of a vCPU stand so.
fn count(states: &[State], vcpu: u32, now: Virtual) -> usize {
    states
        .iter()
        .filter(|state| state.stands(vcpu, now))
        .count()
}

impl Plain {
    pub fn new(alloc: Global, scenario: &HostScenario) -> Result<Plain, AllocError> {
        let mut states = Vec::new(alloc);
        for link in scenario.links.as_slice() {
            states.push(State {
                link: *link,
                enabled: true,
                latch: false,
                active: false,
                now: Virtual::Idle,
            })?;
        }
        let cpu = Cpu {
            pmr: 0xf0,
            drops_alone: false,
            levels: 0,
        };
        let cpus = vec![in alloc; cpu; scenario.vcpus as usize]?;
        Ok(Plain {
            states,
            cpus,
            loaded: Some(0),
        })
    }

    fn cpu(&self, vcpu: u32) -> Cpu {
        match self.cpus.get(vcpu as usize) {
            Some(cpu) => *cpu,
            None => Cpu {
                pmr: 0,
                drops_alone: false,
                levels: 0,
            },
        }
    }

    fn put_cpu(&mut self, vcpu: u32, cpu: Cpu) {
        if let Some(slot) = self.cpus.get_mut(vcpu as usize) {
            *slot = cpu;
        }
    }

    /// The virtual interrupt of an INTID changes where it stands so.
    fn turn(&mut self, vcpu: u32, id: u32, from: Virtual, to: Virtual) {
        for state in self.states.as_mut_slice().iter_mut() {
            if state.stands(vcpu, from) && state.link.vid == id {
                *state = State {
                    now: to,
                    active: to != Virtual::Idle,
                    ..*state
                };
            }
        }
    }

    fn settle(&mut self) {
        for state in self.states.as_mut_slice().iter_mut() {
            if state.latch && state.enabled && !state.active {
                *state = State {
                    latch: false,
                    active: true,
                    now: Virtual::Pending,
                    ..*state
                };
            }
        }
    }

    fn set(&mut self, phys: u32, set: PhysSet) {
        for state in self.states.as_mut_slice().iter_mut() {
            if state.link.phys == phys {
                match set {
                    PhysSet::Pend => state.latch = true,
                    PhysSet::Clear => state.latch = false,
                    PhysSet::Enable => state.enabled = true,
                    PhysSet::Disable => state.enabled = false,
                }
            }
        }
    }

    fn acknowledge(&mut self, vcpu: u32) -> u64 {
        let mut cpu = self.cpu(vcpu);
        let Some(first) = next(self.states.as_slice(), vcpu, Virtual::Pending, None) else {
            return SPURIOUS;
        };
        let prio = u32::from(first.link.prio);
        if prio >= cpu.pmr || prio >= cpu.running() {
            return SPURIOUS;
        }
        cpu.levels |= 1u32.wrapping_shl(prio / 8);
        self.put_cpu(vcpu, cpu);
        self.turn(vcpu, first.link.vid, Virtual::Pending, Virtual::Active);
        u64::from(first.link.vid)
    }

    fn end(&mut self, vcpu: u32, value: u64) {
        let mut cpu = self.cpu(vcpu);
        let id = (value % (1 << 24)) as u32;
        if (1020..=1023).contains(&id) || cpu.levels == 0 {
            return;
        }
        cpu.levels &= cpu.levels.wrapping_sub(1);
        self.put_cpu(vcpu, cpu);
        if !cpu.drops_alone {
            self.turn(vcpu, id, Virtual::Active, Virtual::Idle);
        }
    }

    fn deactivate(&mut self, vcpu: u32, value: u64) {
        let id = (value % (1 << 24)) as u32;
        if self.cpu(vcpu).drops_alone && !(1020..=1023).contains(&id) {
            self.turn(vcpu, id, Virtual::Active, Virtual::Idle);
        }
    }

    fn read(&mut self, vcpu: u32, reg: IccReg) -> u64 {
        match reg {
            IccReg::Iar1 => self.acknowledge(vcpu),
            IccReg::Hppir1 => {
                match next(self.states.as_slice(), vcpu, Virtual::Pending, None) {
                    Some(first) => u64::from(first.link.vid),
                    None => SPURIOUS,
                }
            }
            IccReg::Rpr => u64::from(self.cpu(vcpu).running()),
            _ => u64::from(self.cpu(vcpu).pmr),
        }
    }

    fn write(&mut self, vcpu: u32, reg: IccReg, value: u64) {
        let mut cpu = self.cpu(vcpu);
        match reg {
            IccReg::Eoir1 => self.end(vcpu, value),
            IccReg::Dir => self.deactivate(vcpu, value),
            IccReg::Ctlr => {
                cpu.drops_alone = value / 2 % 2 == 1;
                self.put_cpu(vcpu, cpu);
            }
            _ => {
                cpu.pmr = (value % 256 / 8 * 8) as u32;
                self.put_cpu(vcpu, cpu);
            }
        }
    }

    /// Writes ICH_HCR and the list registers: the active interrupts, then the pending ones, while there is room.
    fn write_lrs(&self, text: &mut String, lrs: u32) -> Result<(), AllocError> {
        let lrs = lrs as usize;
        let states = self.states.as_slice();
        let vcpu = self.loaded.unwrap_or(u32::MAX);
        let active = count(states, vcpu, Virtual::Active);
        let pending = count(states, vcpu, Virtual::Pending);
        let traps = self.loaded.is_some() && active.saturating_add(pending.min(1)) > lrs;
        let cuts = !traps && active.saturating_add(pending) > lrs;
        let hcr: u64 = match self.loaded {
            None => 0,
            Some(_) if traps => 0x5c91,
            Some(_) if cuts => 0x99,
            Some(_) => 0x91,
        };
        write!(text, " 0x{hcr:016x}")?;
        let mut now = Virtual::Active;
        let mut above = None;
        for _ in 0..lrs {
            let mut found = next(states, vcpu, now, above);
            if found.is_none() && now == Virtual::Active {
                now = Virtual::Pending;
                found = next(states, vcpu, now, None);
            }
            let state = if now == Virtual::Active { 2 } else { 1 };
            let word = match &found {
                Some(one) if !traps => one.word(state),
                _ => 0,
            };
            above = match &found {
                Some(one) => Some(one.rank()),
                None => Some((u8::MAX, u32::MAX)),
            };
            write!(text, " 0x{word:016x}")?;
        }
        Ok(())
    }

    fn write_phys(&self, text: &mut String, number: usize, phys: u32) -> Result<(), AllocError> {
        for state in self.states.as_slice() {
            if state.link.phys == phys {
                let now = match (state.latch, state.active) {
                    (false, false) => "inactive",
                    (true, false) => "pending",
                    (false, true) => "active",
                    (true, true) => "both",
                };
                writeln!(text, "{number} phys {phys} {now}")?;
            }
        }
        Ok(())
    }

    /// One step, and its line.
    pub fn step(
        &mut self,
        text: &mut String,
        lrs: u32,
        number: usize,
        step: &HostStep,
    ) -> Result<(), AllocError> {
        match *step {
            HostStep::Phys { phys, set: None } => self.write_phys(text, number, phys)?,
            HostStep::Phys {
                phys,
                set: Some(set),
            } => self.set(phys, set),
            HostStep::Icc { reg, write } => match (self.loaded, write) {
                (Some(vcpu), None) => {
                    let value = self.read(vcpu, reg);
                    writeln!(text, "{number} 0x{value:016x}")?;
                }
                (Some(vcpu), Some(value)) => self.write(vcpu, reg, value),
                (None, _) => {}
            },
            HostStep::Enter { vcpu } => self.loaded = Some(vcpu),
            HostStep::Exit => self.loaded = None,
            HostStep::Lrs => {
                write!(text, "{number} lrs")?;
                self.write_lrs(text, lrs)?;
                writeln!(text)?;
            }
        }
        self.settle();
        Ok(())
    }
}
