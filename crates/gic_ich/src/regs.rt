//! The registers of a PE's virtual CPU interface, and how many list registers it has.
ghost use Rattle.std.specs.Prelude.{◌≡◌, ◌≤◌};
ghost use Rattle.gic_lr.specs.Status.{max_list_registers};
ghost use Rattle.gic_ich.specs.Regs.{vtr_of};

use gic_lr::{Field, MAX_LIST_REGISTERS, put_bit};

/// ICH_VTR.ListRegs, one less than the number of list registers: bits [4:0].
const LIST_REGS: Field = Field { place: 0, width: 5 };
/// ICH_VTR.TDS: DIR can be trapped by itself.
const TDS: u32 = 19;
/// ICH_VTR.nV4: no direct injection of virtual interrupts.
const NV4: u32 = 20;
/// ICH_VTR.PREbits, one less than the number of preemption bits: bits [28:26].
const PREBITS: Field = Field {
    place: 26,
    width: 3,
};
/// ICH_VTR.PRIbits, one less than the number of priority bits: bits [31:29].
const PRIBITS: Field = Field {
    place: 29,
    width: 3,
};
/// One less than the five priority bits, all of them for preemption.
const BITS: u64 = 4;

/// The registers of a PE's virtual CPU interface (IHI 0069, "AArch64 virtualization control system
/// registers").
#[derive(Clone, Copy, Debug)]
pub struct IchRegs {
    /// ICH_LR: the first `n` count.
    pub lr: [u64; MAX_LIST_REGISTERS],
    /// How many list registers the PE has, 1 to 16.
    pub n: u32,
    pub vmcr: u32,
    pub hcr: u32,
    /// ICH_AP0R0: the active levels of group 0.
    pub ap0r: u32,
    /// ICH_AP1R0: the active levels of group 1.
    pub ap1r: u32,
}

impl IchRegs {
    ghost use Rattle.gic_ich.specs.Regs.{listed_of};

    /// The list registers that the PE has.
    pub fn listed(&self) -> &[u64]
        requires { self.now.n ≤ max_list_registers }
        ensures { result.now ≡ listed_of self.now }
    {
        &self.lr[..self.n as usize]
    }
}

/// ICH_VTR of a PE with `n` list registers, 1 to 16.
pub fn vtr(n: u32) -> u32
    requires { 1 ≤ n × n ≤ max_list_registers }
    ensures { result ≡ vtr_of n }
{
    let fields = LIST_REGS.put(u64::from(n - 1)) + PREBITS.put(BITS) + PRIBITS.put(BITS);
    (fields + put_bit(true, TDS) + put_bit(true, NV4)) as u32
}
