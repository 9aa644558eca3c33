//! Laws of what was done to a guest in one thread.
ghost use Rattle.law_one_thread_is_eager.specs.Laws.{CallsPassHome, GuestsOpenAtHome, RegistersShowHome, ResidencesKeepHome};

/// As a guest opens, nothing was done to it, and it is the guest of the ideal controller as it opens.
pub fn guests_open_at_home()
    ensures { GuestsOpenAtHome }
{}

/// Entries and exits of its vCPUs, and looks for kicks, leave the guest with all taken back as it is.
pub fn residences_keep_home()
    ensures { ResidencesKeepHome }
{}

/// A call does to the guest with all taken back what the ideal controller does, and answers the same.
pub fn calls_pass_home()
    ensures { CallsPassHome }
{}

/// The registers of a vCPU that left its PE and entered it again are those that the ideal controller shows of it.
pub fn registers_show_home()
    ensures { RegistersShowHome }
{}
