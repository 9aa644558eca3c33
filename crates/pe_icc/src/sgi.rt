//! The SGIs that a write of ICC_SGI1R sends.
ghost use Rattle.std.specs.Prelude.{◌≡◌, ◌<◌, ◌++◌, true, IsTrue, [], ◌∷◌, if◌then◌else◌};
ghost use Rattle.pe_loop.specs.Registers.{is_target, targets_of};
ghost use Rattle.pe_loop.specs.Words.{Private, has_bit as bit_is_set};
ghost use Rattle.pe_loop.specs.GicCall.declared.event.Event.TheVariants.{Raise};
ghost use Rattle.pe_loop.specs.Core.{is_vcpu, owes_nothing, shape_of};
ghost use Rattle.pe_icc.specs.Sgi.{Sends, SendsSgis, sgis_before, sgi_written};

use pe_loop::{IccReg, Key, Port, Targets, has_bit, raise, sgi_intid, sgi_targets};

/// Raises an SGI (INTID 0 to 15) at a vCPU where that is one of some.
fn send_at<P: Port>(port: &mut P, targets: Targets, vcpu: u32, id: u32)
    requires vcpu { vcpu < (shape_of (P.seen port.old)).vcpus }
    requires within { vcpu < 32 }
    requires sgi { id < 16 }
    requires owes { IsTrue (owes_nothing (P.seen port.old).local) }
    ensures { Sends (P.seen port.old) (P.seen port.new) (if bit_is_set targets.0 vcpu then Raise (Private vcpu id) ∷ [] else []) }
{
    if has_bit(u64::from(targets.0), vcpu) {
        raise(port, Key::Private { vcpu, id });
    }
}

/// Sends the SGIs of a value, one to each vCPU of the guest that it names, in rising order, and tells them before it returns.
fn send_all<P: Port>(port: &mut P, value: u64)
    requires owes { IsTrue (owes_nothing (P.seen port.old).local) }
    ensures { Sends (P.seen port.old) (P.seen port.new) (sgis_before value (P.seen port.old).actor (shape_of (P.seen port.old)).vcpus) }
{
    let shape = port.shape();
    let targets = sgi_targets(value, port.actor(), &shape);
    let id = sgi_intid(value);
    for vcpu in 0..shape.vcpus {
        send_at(port, targets, vcpu, id);
    }
}

/// The value that an access writes to ICC_SGI1R, if it does.
fn sgi_value(reg: IccReg, write: Option<u64>) -> Option<u64>
    ensures { result ≡ sgi_written reg write }
{
    match reg {
        IccReg::Sgi1r => write,
        _ => None,
    }
}

/// Sends the SGIs of an access that was done: those of a write of ICC_SGI1R.
pub(crate) fn send_sgis<P: Port>(port: &mut P, reg: IccReg, write: Option<u64>)
    requires owes { IsTrue (owes_nothing (P.seen port.old).local) }
    ensures { SendsSgis (P.seen port.old) (P.seen port.new) reg write }
{
    if let Some(value) = sgi_value(reg, write) {
        send_all(port, value);
    }
}
