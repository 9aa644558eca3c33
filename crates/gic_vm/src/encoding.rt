//! The encodings of the CPU interface registers.
ghost use Rattle.std.specs.Prelude.{◌≡◌};
ghost use Rattle.gic_vm.specs.Encoding.{register_at};

use ideal_guest::IccReg;

/// Which system register an instruction MRS or MSR names (IHI 0069, "AArch64 System register descriptions").
#[derive(Clone, Copy, Debug, PartialEq, Eq, Hash)]
pub struct Encoding {
    pub op0: u8,
    pub op1: u8,
    pub crn: u8,
    pub crm: u8,
    pub op2: u8,
}

impl Encoding {
    /// The register of the CPU interface that the encoding names. None exactly where it names none that the machine has.
    pub fn register(self) -> Option<IccReg>
        ensures { result ≡ register_at self }
    {
        match (self.op0, self.op1, self.crn, self.crm, self.op2) {
            (3, 0, 4, 6, 0) => Some(IccReg::Pmr),
            (3, 0, 12, 8, 0) => Some(IccReg::Iar0),
            (3, 0, 12, 8, 1) => Some(IccReg::Eoir0),
            (3, 0, 12, 8, 2) => Some(IccReg::Hppir0),
            (3, 0, 12, 8, 3) => Some(IccReg::Bpr0),
            (3, 0, 12, 8, 4) => Some(IccReg::Ap0r0),
            (3, 0, 12, 9, 0) => Some(IccReg::Ap1r0),
            (3, 0, 12, 11, 1) => Some(IccReg::Dir),
            (3, 0, 12, 11, 3) => Some(IccReg::Rpr),
            (3, 0, 12, 11, 5) => Some(IccReg::Sgi1r),
            (3, 0, 12, 12, 0) => Some(IccReg::Iar1),
            (3, 0, 12, 12, 1) => Some(IccReg::Eoir1),
            (3, 0, 12, 12, 2) => Some(IccReg::Hppir1),
            (3, 0, 12, 12, 3) => Some(IccReg::Bpr1),
            (3, 0, 12, 12, 4) => Some(IccReg::Ctlr),
            (3, 0, 12, 12, 5) => Some(IccReg::Sre),
            (3, 0, 12, 12, 6) => Some(IccReg::Igrpen0),
            (3, 0, 12, 12, 7) => Some(IccReg::Igrpen1),
            _ => None,
        }
    }
}
