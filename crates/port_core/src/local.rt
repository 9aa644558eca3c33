//! What an actor has for itself.
ghost use Rattle.std.specs.Prelude.{◌≡◌};
ghost use Rattle.port_core.specs.Local.{opening_local};

use crate::at_list::AtList;
use crate::owed::{Cands, MarkSet, NO_VCPUS};
use core_words::{Actor, CpuRec, Entered, Targets};

/// How far a vCPU is with its CPU interface.
#[derive(Clone, Copy, Debug, PartialEq, Eq, Hash)]
pub enum Phase {
    /// It is on no PE.
    Off,
    /// It takes its candidate index.
    Scanning,
    /// It looks at its candidates, and takes interrupts to its interface.
    Claiming,
    /// It has done an access since.
    Loaded,
    /// It gives back what is at its interface.
    Folding,
}

/// What an actor has for itself, which only its own steps change.
#[derive(Clone, Debug, Drop)]
pub struct Local {
    pub actor: Actor,
    pub phase: Phase,
    /// The record of the vCPU's CPU interface.
    pub cpu: CpuRec,
    /// The interrupts at its interface.
    pub at: AtList,
    /// The vCPUs to which the actor owes a kick.
    pub owes: Targets,
    /// It has the ITS.
    pub turn: bool,
    /// It has the mark of GICD_CTLR.
    pub ctlr: bool,
    /// The marks that it owes.
    pub marks: MarkSet,
    /// The candidates that it took and did not settle yet.
    pub cands: Cands,
    /// The translation line that it is in, if it is a device and in one.
    pub line: Option<Entered>,
    /// The translation lines that it knows to be shut, a bit each: while it has the ITS, it closed each of them and found it
    /// without a message and without a device.
    pub shut: u64,
}

impl Local {
    /// What an actor has for itself as its guest opens: it is on no PE, and owes nothing.
    pub fn opening(actor: Actor, cpu: CpuRec) -> Local
        ensures { result ≡ opening_local actor cpu }
    {
        Local {
            actor,
            phase: Phase::Off,
            cpu,
            at: AtList::new(),
            owes: NO_VCPUS,
            turn: false,
            ctlr: false,
            marks: MarkSet {
                key: None,
                vcpus: NO_VCPUS,
            },
            cands: Cands::none(),
            line: None,
            shut: 0,
        }
    }

    /// A copy, near a kilobyte. It takes no memory.
    pub fn copied(&self) -> Local
        ensures { result ≡ self.now }
    {
        Local {
            actor: self.actor,
            phase: self.phase,
            cpu: self.cpu,
            at: self.at.copied(),
            owes: self.owes,
            turn: self.turn,
            ctlr: self.ctlr,
            marks: self.marks,
            cands: self.cands,
            line: self.line,
            shut: self.shut,
        }
    }
}
