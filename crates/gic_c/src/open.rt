//! How a handle gets its machine, and how it loses it.
ghost use Rattle.std.specs.Prelude.{◌≡◌, ◌≢◌, ◌⊎◌, IfOk, IfErr, Err, is_some, pos, None, if◌then◌else◌};
ghost use Rattle.vm_saved.specs.GicVm.State.{opening_of};
ghost use Rattle.gic_c.specs.Answer.{errno_of};
ghost use Rattle.gic_c.specs.Handle.{board_of};
ghost use Rattle.gic_c.specs.Board.{opened_with};
ghost use Rattle.gic_c.specs.Open.{is_known as is_known_to, described, IsGood, CanOpen, IsOpened};
ghost use Rattle.gic_c.specs.declared.answer.Refusal.TheVariants.{Invalid, NoMemory};

use crate::answer::Refusal;
use crate::board::Board;
use crate::handle::RvMachine;
use std::alloc::Global;
use vm_saved::{Layout, Machine, MachineSpec, Refused};

/// The bytes of an `RvSpec`.
const SPEC_BYTES: u32 = 64;

/// What C says of the machine that it wants.
#[repr(C)]
#[derive(Clone, Copy, Debug, PartialEq, Eq, Hash)]
pub struct RvSpec {
    /// The bytes of this struct.
    pub size: u32,
    pub vcpus: u32,
    pub spis: u32,
    pub espis: u32,
    pub lpis: u32,
    /// 0.
    pub reserved0: u32,
    pub dist: u64,
    pub redist: u64,
    pub its: u64,
    /// 0.
    pub reserved1: u64,
    /// 0.
    pub reserved2: u64,
}

impl RvSpec {
    /// Whether this library knows all that it says.
    fn is_known(&self) -> bool
        ensures { result ≡ is_known_to self.now }
    {
        self.size == SPEC_BYTES && self.reserved0 == 0 && self.reserved1 == 0 && self.reserved2 == 0
    }

    /// The machine that it describes.
    fn machine(&self) -> MachineSpec
        ensures { result ≡ described self.now }
    {
        MachineSpec {
            vcpus: self.vcpus,
            spis: self.spis,
            espis: self.espis,
            lpis: self.lpis,
            layout: Layout {
                dist: self.dist,
                redist: self.redist,
                its: self.its,
            },
        }
    }
}

/// A machine in a block of its own, or why there is none.
fn opened(alloc: Global, spec: &MachineSpec) -> Result<Box<Board>, Refusal>
    ensures opened { IfOk result (λ board. board.value ≡ opened_with (opening_of spec.now) spec.now.vcpus) }
    ensures good { IfOk result (λ board. IsGood spec.now) }
    ensures invalid { result ≡ Err Invalid → ¬ IsGood spec.now }
    ensures memory { result ≡ Err NoMemory → IsGood spec.now }
    ensures others { IfErr result (λ refusal. (refusal ≡ Invalid) ⊎ (refusal ≡ NoMemory)) }
{
    let machine = match Machine::open(alloc, spec) {
        Ok(machine) => machine,
        Err(Refused::NoMemory) => return Err(Refusal::NoMemory),
        Err(_) => return Err(Refusal::Invalid),
    };
    let Ok(board) = Board::new(alloc, machine, spec.vcpus) else {
        return Err(Refusal::NoMemory);
    };
    Box::new(alloc, board).map_err(|_| Refusal::NoMemory)
}

impl RvMachine {
    /// Opens a machine in a closed handle. 0, or the negative error number.
    pub(crate) fn create(&mut self, alloc: Global, spec: &RvSpec) -> i32
        ensures opened { result ≡ pos 0 → CanOpen self.old spec.now × IsOpened self.new spec.now }
        ensures invalid { result ≡ errno_of Invalid → ¬ CanOpen self.old spec.now }
        ensures memory { result ≡ errno_of NoMemory → CanOpen self.old spec.now }
        ensures refused { result ≢ pos 0 → board_of self.new ≡ board_of self.old }
        ensures answers { (result ≡ pos 0) ⊎ (result ≡ errno_of Invalid) ⊎ (result ≡ errno_of NoMemory) }
    {
        if self.is_open() || !spec.is_known() {
            return Refusal::Invalid.errno();
        }
        match opened(alloc, &spec.machine()) {
            Ok(board) => {
                self.put(board);
                0
            }
            Err(refusal) => refusal.errno(),
        }
    }

    /// Ends the machine of a handle, which is closed from then on. 0, or the negative error number where it was closed before.
    pub(crate) fn destroy(&mut self, alloc: Global) -> i32
        ensures status { result ≡ (if is_some (board_of self.old) then pos 0 else errno_of Invalid) }
        ensures closed { board_of self.new ≡ None }
    {
        match self.take(alloc) {
            Some(board) => {
                drop(board);
                0
            }
            None => Refusal::Invalid.errno(),
        }
    }
}
