//! An access of a register of the CPU interface.
ghost use Rattle.std.specs.Prelude.{◌≡◌, IsTrue};
ghost use Rattle.pe_loop.specs.Calls.{is_usable};
ghost use Rattle.pe_loop.specs.Stay.{IsUp};
ghost use Rattle.pe_icc.specs.Icc.{IsEnding, Tries, DoesAccess};

use crate::operate::{Polled, poll_access};
use crate::prepare::prepare;
use crate::reenter::refill;
use crate::sgi::send_sgis;
use crate::stay::{Stay, copy_of};
use pe_loop::{IccReg, Loaded, Port, reenter};
use std::sync::Wait;

/// What came of one try of an access.
#[derive(Debug, Drop)]
pub(crate) enum Tried {
    /// The vCPU was kicked: nothing was done, and it is on its PE again.
    Again(Stay),
    /// It was done, and reads this where it is a read.
    Done(Loaded, Option<u64>),
}

/// Tries to do an access: it is done where the vCPU is not kicked, and else the vCPU leaves its PE and enters it again.
fn try_op<P: Port>(port: &mut P, stay: Stay, reg: IccReg, write: Option<u64>) -> Tried
    requires up { IsUp (P.seen port.old) stay.vcpu }
    requires ending { IsEnding (P.seen port.old) reg write stay.owing }
    requires usable { IsTrue (is_usable reg write) }
    ensures { Tries (P.seen port.old) (P.seen port.new) reg write stay result }
{
    let mut ready = prepare(port, stay, reg, write);
    match poll_access(port, &mut ready.vcpu, reg, write) {
        Polled::Kicked => Tried::Again(Stay {
            vcpu: reenter(port, ready.vcpu),
            owing: ready.owing,
        }),
        Polled::Done(answer) => {
            send_sgis(port, reg, write);
            Tried::Done(refill(port, ready.vcpu, ready.owing), answer)
        }
    }
}

/// Does one access of a register of the vCPU's CPU interface (IHI 0069, "AArch64 System register descriptions"): a read, or a
/// write of a value. The register can be read or written so. The answer is Some exactly for a read. A kick that is found first
/// has the vCPU leave its PE and enter it again before the access; it leaves and enters again too after an access with which
/// a maintenance interrupt is asserted (ICH_MISR is not 0), after each one of trap mode, and after an end of interrupt for
/// which it took the interrupt to its interface. The SGIs of a write of ICC_SGI1R are sent before it returns. It waits where
/// kicks keep coming, and takes no memory.
pub fn icc_op<P: Port, R: Wait>(
    rt: &R,
    port: &mut P,
    vcpu: &mut Loaded,
    reg: IccReg,
    write: Option<u64>,
) -> Option<u64>
    requires up { IsUp (P.seen port.old) vcpu.old }
    requires usable { IsTrue (is_usable reg write) }
    ensures { DoesAccess (P.seen port.old) (P.seen port.new) reg write vcpu.old vcpu.new result }
{
    let mut stay = Stay {
        vcpu: copy_of(vcpu),
        owing: false,
    };
    for _ in rt.forever() {
        match try_op(port, stay, reg, write) {
            Tried::Again(next) => stay = next,
            Tried::Done(after, answer) => {
                *vcpu = after;
                return answer;
            }
        }
    }
    unreachable!()
}
