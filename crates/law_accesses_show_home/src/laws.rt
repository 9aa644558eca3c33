//! Laws of histories.
ghost use Rattle.law_accesses_show_home.specs.Done.{ChangesAreDone};
ghost use Rattle.law_accesses_show_home.specs.UpToDate.{StaysUpToDate, UpToDateShowsHome};
ghost use Rattle.law_accesses_show_home.specs.Stay.{StandsAsReached};
ghost use Rattle.law_accesses_show_home.specs.Worked.{AVcpuFindsAll};

/// A law of every history of a good guest, of what stands at a vCPU's interface and was not changed since it got there: where it
/// is pending there, it is so with all its latched causes, and with them it is ripe for the vCPU, which takes interrupts of its
/// kind; and where it is neither pending nor active there, and pending in its record, it is to leave before the call ends.
pub fn stands_as_reached()
    ensures { StandsAsReached }
{}

/// A law of every history of a good guest at a moment at which no change is on its way to an interface and nothing that is to
/// leave one is late: an access of a vCPU's interface, before whose first interrupt no home one comes and which ends none that
/// is active by the vCPU and at no interface, shows the guest with all that stands at interfaces taken back.
pub fn up_to_date_shows_home()
    ensures { UpToDateShowsHome }
{}

/// A law of every history of a good guest, from a moment on at which no change is on its way to an interface and nothing that is
/// to leave one is late: so it is as long as interrupts only move to interfaces and from them, actors read, and calls begin and
/// end.
pub fn stays_up_to_date()
    ensures { StaysUpToDate }
{}

/// A worked history that meets the premises of `up_to_date_shows_home`: a message made interrupt 40 pending, it got to the interface
/// of vCPU 0, and that reads ICC_IAR1.
pub fn a_vcpu_finds_all()
    ensures { AVcpuFindsAll }
{}

/// A law of every history of a good guest, of an interrupt that is at a vCPU's interface: where it was changed, since it got
/// there, in a call or a command of one that goes on, that one has made an event of it.
pub fn changes_are_done()
    ensures { ChangesAreDone }
{}
