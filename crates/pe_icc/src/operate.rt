//! One access of a register of the CPU interface, decided by a look for a kick.
ghost use Rattle.std.specs.Prelude.{◌≡◌, ◌<◌, ◌≤◌, ◌^◌, true, false, IsTrue};
ghost use Rattle.pe_loop.specs.Words.{has_bit};
ghost use Rattle.pe_loop.specs.Lists.{hcr_en, HasDirection};
ghost use Rattle.pe_loop.specs.Core.{shape_of};
ghost use Rattle.pe_loop.specs.Calls.{is_usable};
ghost use Rattle.pe_loop.specs.Stay.{IsOpen};
ghost use Rattle.pe_icc.specs.Amid.{IsSet};
ghost use Rattle.pe_icc.specs.Operate.{opened, read_by as read_of, Operates, Polls};

use pe_loop::{CoreStep, HCR_EN, IccReg, Loaded, Outcome, Port, VcpuWord, access};

/// What came of a try to do an access.
#[derive(Clone, Copy, Debug, PartialEq, Eq)]
pub(crate) enum Polled {
    /// The vCPU was kicked: nothing was done.
    Kicked,
    /// It was done, and reads this where it is a read.
    Done(Option<u64>),
}

/// In trap mode, makes ICH_HCR En alone.
fn open(vcpu: &mut Loaded)
    ensures value { vcpu.new ≡ opened vcpu.old }
    ensures fits { vcpu.new.regs.vmcr < 2 ^ 32 }
{
    let _vmcr = vcpu.regs.vmcr;
    if vcpu.trapping {
        vcpu.regs.hcr = HCR_EN;
    }
}

/// What an access reads, if it reads.
fn read_by(outcome: Outcome) -> Option<u64>
    ensures { result ≡ read_of outcome }
{
    match outcome {
        Outcome::Value(value) => Some(value),
        Outcome::Done | Outcome::Trap(_) => None,
    }
}

/// Does an access on the registers of the PE. In trap mode it is done while ICH_HCR is En alone.
pub(crate) fn operate(vcpu: &mut Loaded, reg: IccReg, write: Option<u64>) -> Option<u64>
    requires lrs { 1 ≤ vcpu.old.regs.n × vcpu.old.regs.n ≤ 16 }
    requires direction { HasDirection reg write }
    requires enabled { has_bit vcpu.old.regs.hcr hcr_en ≡ true }
    requires free { vcpu.old.trapping ≡ false → IsOpen vcpu.old.regs.hcr }
    ensures { Operates reg write vcpu.old vcpu.new result }
{
    open(vcpu);
    let outcome = access(&mut vcpu.regs, reg, write);
    read_by(outcome)
}

/// Looks for a kick of the vCPU, and does an access on the registers of the PE where there is none.
pub(crate) fn poll_access<P: Port>(
    port: &mut P,
    vcpu: &mut Loaded,
    reg: IccReg,
    write: Option<u64>,
) -> Polled
    requires set { IsSet (P.seen port.old) vcpu.old }
    requires usable { IsTrue (is_usable reg write) }
    ensures { Polls (P.seen port.old) (P.seen port.new) reg write vcpu.old vcpu.new result }
{
    let word = port.step(CoreStep::Poll {
        reg: Some(reg),
        write,
    });
    if VcpuWord::of(word).kick {
        return Polled::Kicked;
    }
    Polled::Done(operate(vcpu, reg, write))
}
