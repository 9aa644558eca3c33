//! What a vCPU does before an access is decided.
ghost use Rattle.std.specs.Prelude.{◌≡◌, ◌&&◌, IsTrue};
ghost use Rattle.pe_loop.specs.Core.{asks_first as asks_for_first, shape_of};
ghost use Rattle.pe_loop.specs.Words.{has_interrupt, is_of_vcpu, is_number};
ghost use Rattle.pe_loop.specs.Stay.{IsUp};
ghost use Rattle.pe_icc.specs.Ready.{CanTakeFar, TakesFar, ReadiesEnd};
ghost use Rattle.pe_icc.specs.Icc.{IsEnding, Prepares};

use crate::bare::gather;
use crate::end::{claim_far, ended, look_for};
use crate::first::scan_first;
use crate::stay::Stay;
use pe_loop::{IccReg, Irq, Key, Loaded, Port};

/// Whether an access asks for the first interrupt: a read of IAR or HPPIR.
fn asks_first(reg: IccReg) -> bool
    ensures { result ≡ asks_for_first reg }
{
    matches!(
        reg,
        IccReg::Iar0 | IccReg::Iar1 | IccReg::Hppir0 | IccReg::Hppir1
    )
}

/// Whether a vCPU is to look for the first interrupt before an access: in trap mode, where the access asks for it.
fn is_to_find(vcpu: &Loaded, reg: IccReg) -> bool
    ensures { result ≡ (vcpu.now.trapping && asks_for_first reg) }
{
    vcpu.trapping && asks_first(reg)
}

/// Whether an interrupt is active by a vCPU.
fn is_active_by(irq: &Irq, vcpu: u32) -> bool
    ensures { result ≡ is_number vcpu irq.now.act_by }
{
    irq.act_by == Some(vcpu)
}

/// Takes the interrupt that the vCPU is to end to its interface, at a moment at which nothing is there: the vCPU gives back what
/// is, and then goes by another look.
fn take_far<P: Port>(port: &mut P, stay: Stay, key: Key, irq: &Irq) -> Stay
    requires { CanTakeFar (P.seen port.old) stay.vcpu key irq.now }
    ensures { TakesFar (P.seen port.old) (P.seen port.new) key stay result }
{
    if port.local_ref().at.as_slice().is_empty() {
        return Stay {
            vcpu: claim_far(port, stay.vcpu, key, irq),
            owing: true,
        };
    }
    let vcpu = gather(port, stay.vcpu);
    let last = look_for(port, key);
    if !is_active_by(&last, port.actor()) {
        return Stay { vcpu, owing: true };
    }
    Stay {
        vcpu: claim_far(port, vcpu, key, &last),
        owing: true,
    }
}

/// Looks at the interrupt that the vCPU is to end where it is not at its interface, and takes it there where it is active by
/// the vCPU.
fn ready_end<P: Port>(port: &mut P, stay: Stay, key: Key) -> Stay
    requires up { IsUp (P.seen port.old) stay.vcpu }
    requires there { IsTrue (has_interrupt (shape_of (P.seen port.old)) key) }
    requires own { IsTrue (is_of_vcpu (P.seen port.old).actor key) }
    ensures { ReadiesEnd (P.seen port.old) (P.seen port.new) key stay result }
{
    if port.local_ref().at.find(key).is_some() {
        return stay;
    }
    let irq = look_for(port, key);
    if !is_active_by(&irq, port.actor()) {
        return stay;
    }
    take_far(port, stay, key, &irq)
}

/// Does what an access asks for before it is decided: in trap mode, a read of IAR or HPPIR takes the first interrupt to the
/// interface; an end of interrupt looks at an interrupt that is not there.
pub(crate) fn prepare<P: Port>(port: &mut P, stay: Stay, reg: IccReg, write: Option<u64>) -> Stay
    requires up { IsUp (P.seen port.old) stay.vcpu }
    requires ending { IsEnding (P.seen port.old) reg write stay.owing }
    ensures { Prepares (P.seen port.old) (P.seen port.new) reg write stay result }
{
    if let Some(key) = ended(port, reg, write) {
        return ready_end(port, stay, key);
    }
    if is_to_find(&stay.vcpu, reg) {
        return Stay {
            vcpu: scan_first(port, stay.vcpu),
            owing: stay.owing,
        };
    }
    stay
}
