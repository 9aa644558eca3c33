//! Laws of runs of the core.
ghost use Rattle.law_lone_accesses_find_all.specs.Lone.{EaseIsUpToDate, LoneAccessesFindAll};
ghost use Rattle.law_lone_accesses_find_all.specs.Worked.{AVcpuIsAlone};

/// A law of every proper run in which accesses of registers of the CPU interface come before the other events of interrupts of
/// their calls, at a moment at which no actor is in a part, and each vCPU has nothing at its interface or is not kicked, gives
/// nothing back and owes no scan: no change is on its way to an interface, and nothing that is to leave one is late.
pub fn ease_is_up_to_date()
    ensures { EaseIsUpToDate }
{}

/// A law of every proper run, at a moment at which only one vCPU is in a part, and owes itself no kick: where it may ask for the
/// first interrupt, if its access does, and looked at one that it ends and that is at no interface, the access finds all that the
/// guest has for it at its interface.
pub fn lone_accesses_find_all()
    ensures { LoneAccessesFindAll }
{}

/// A worked run that meets the premises of both laws: a device made SPI 40 pending, a vCPU entered with it, and its read of
/// ICC_IAR1 begins.
pub fn a_vcpu_is_alone()
    ensures { AVcpuIsAlone }
{}
