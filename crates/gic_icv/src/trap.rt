//! Which accesses are trapped, and why.
ghost use Rattle.std.specs.Prelude.{◌≡◌, ◌<◌};
ghost use Rattle.gic_ich.specs.Words.{has_bit as bit_is_set};
ghost use Rattle.gic_icv.specs.Trap.{trap_cause as cause_of, where_set as cause_where};

use gic_ich::{HCR_TALL0_BIT, HCR_TALL1_BIT, HCR_TC_BIT, HCR_TDIR_BIT, IccReg, has_bit};

/// Why an access was trapped to the hypervisor (IHI 0069, ICH_HCR_EL2).
#[derive(Clone, Copy, Debug, PartialEq, Eq, Hash)]
pub enum TrapCause {
    /// SGI1R, which is always trapped.
    Sgi,
    /// DIR while TDIR is 1.
    Dir,
    /// CTLR, PMR or RPR while TC is 1, and DIR while TC is 1 and TDIR is 0.
    Common,
    /// IAR0, EOIR0, HPPIR0, BPR0, AP0R0 or IGRPEN0 while TALL0 is 1.
    All0,
    /// IAR1, EOIR1, HPPIR1, BPR1, AP1R0 or IGRPEN1 while TALL1 is 1.
    All1,
}

fn is_set(hcr: u32, place: u32) -> bool
    requires { place < 64 }
    ensures { result ≡ bit_is_set hcr place }
{
    has_bit(u64::from(hcr), place)
}

fn where_set(hcr: u32, place: u32, cause: TrapCause) -> Option<TrapCause>
    requires { place < 64 }
    ensures { result ≡ cause_where hcr place cause }
{
    is_set(hcr, place).then_some(cause)
}

/// Why an access of a register is trapped where ICH_HCR is this, or None where it is not.
pub(crate) fn trap_cause(hcr: u32, reg: IccReg) -> Option<TrapCause>
    ensures { result ≡ cause_of hcr reg }
{
    match reg {
        IccReg::Sgi1r => Some(TrapCause::Sgi),
        IccReg::Dir if is_set(hcr, HCR_TDIR_BIT) => Some(TrapCause::Dir),
        IccReg::Dir | IccReg::Ctlr | IccReg::Pmr | IccReg::Rpr => {
            where_set(hcr, HCR_TC_BIT, TrapCause::Common)
        }
        IccReg::Iar0
        | IccReg::Eoir0
        | IccReg::Hppir0
        | IccReg::Bpr0
        | IccReg::Ap0r0
        | IccReg::Igrpen0 => where_set(hcr, HCR_TALL0_BIT, TrapCause::All0),
        IccReg::Iar1
        | IccReg::Eoir1
        | IccReg::Hppir1
        | IccReg::Bpr1
        | IccReg::Ap1r0
        | IccReg::Igrpen1 => where_set(hcr, HCR_TALL1_BIT, TrapCause::All1),
        IccReg::Sre => None,
    }
}
