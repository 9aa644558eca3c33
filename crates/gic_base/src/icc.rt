//! The registers of the CPU interface, and their names.
ghost use Rattle.std.specs.Prelude.{◌≡◌, ◌≢◌, IfSome, IfNone};
ghost use Rattle.gic_base.specs.Icc.{name_of, register_named, is_readable as can_be_read, is_writable as can_be_written};

/// The registers of the CPU interface (IHI 0069, "AArch64 System register descriptions"), named without
/// their prefix ICC_ and suffix _EL1.
#[derive(Clone, Copy, Debug, PartialEq, Eq, PartialOrd, Ord, Hash)]
pub enum IccReg {
    Iar0,
    Iar1,
    Hppir0,
    Hppir1,
    Eoir0,
    Eoir1,
    Dir,
    Rpr,
    Pmr,
    Bpr0,
    Bpr1,
    Ctlr,
    Igrpen0,
    Igrpen1,
    Ap0r0,
    Ap1r0,
    Sgi1r,
    Sre,
}

impl IccReg {
    /// The name, as scenarios and the architecture write it.
    pub fn name(self) -> &'static str
        ensures { result.now ≡ name_of self }
    {
        match self {
            IccReg::Iar0 => "IAR0",
            IccReg::Iar1 => "IAR1",
            IccReg::Hppir0 => "HPPIR0",
            IccReg::Hppir1 => "HPPIR1",
            IccReg::Eoir0 => "EOIR0",
            IccReg::Eoir1 => "EOIR1",
            IccReg::Dir => "DIR",
            IccReg::Rpr => "RPR",
            IccReg::Pmr => "PMR",
            IccReg::Bpr0 => "BPR0",
            IccReg::Bpr1 => "BPR1",
            IccReg::Ctlr => "CTLR",
            IccReg::Igrpen0 => "IGRPEN0",
            IccReg::Igrpen1 => "IGRPEN1",
            IccReg::Ap0r0 => "AP0R0",
            IccReg::Ap1r0 => "AP1R0",
            IccReg::Sgi1r => "SGI1R",
            IccReg::Sre => "SRE",
        }
    }

    /// The register of a name. None exactly where no register has it.
    pub fn named(name: &str) -> Option<IccReg>
        ensures value { result ≡ register_named name.now }
        ensures found { IfSome result (λ reg. name_of reg ≡ name.now) }
        ensures none { IfNone result ((reg : IccReg) → name_of reg ≢ name.now) }
    {
        match name {
            "IAR0" => Some(IccReg::Iar0),
            "IAR1" => Some(IccReg::Iar1),
            "HPPIR0" => Some(IccReg::Hppir0),
            "HPPIR1" => Some(IccReg::Hppir1),
            "EOIR0" => Some(IccReg::Eoir0),
            "EOIR1" => Some(IccReg::Eoir1),
            "DIR" => Some(IccReg::Dir),
            "RPR" => Some(IccReg::Rpr),
            "PMR" => Some(IccReg::Pmr),
            "BPR0" => Some(IccReg::Bpr0),
            "BPR1" => Some(IccReg::Bpr1),
            "CTLR" => Some(IccReg::Ctlr),
            "IGRPEN0" => Some(IccReg::Igrpen0),
            "IGRPEN1" => Some(IccReg::Igrpen1),
            "AP0R0" => Some(IccReg::Ap0r0),
            "AP1R0" => Some(IccReg::Ap1r0),
            "SGI1R" => Some(IccReg::Sgi1r),
            "SRE" => Some(IccReg::Sre),
            _ => None,
        }
    }

    /// Whether the architecture has a read of the register.
    pub fn is_readable(self) -> bool
        ensures { result ≡ can_be_read self }
    {
        !matches!(
            self,
            IccReg::Eoir0 | IccReg::Eoir1 | IccReg::Dir | IccReg::Sgi1r
        )
    }

    /// Whether the architecture has a write of the register.
    pub fn is_writable(self) -> bool
        ensures { result ≡ can_be_written self }
    {
        !matches!(
            self,
            IccReg::Iar0 | IccReg::Iar1 | IccReg::Hppir0 | IccReg::Hppir1 | IccReg::Rpr
        )
    }
}
