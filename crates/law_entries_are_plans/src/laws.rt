//! Laws of vCPUs that enter a PE.
ghost use Rattle.law_entries_are_plans.specs.Entry.{EntriesShowHome};
ghost use Rattle.law_entries_are_plans.specs.Worked.{WorkedEntryShowsHome};

/// A law of every proper run of a good guest that ends with a part in which a vCPU enters: where, before the part, no actor is in
/// one and each vCPU has nothing at its interface, or is not kicked, gives nothing back and owes no scan, and after it the vCPU is
/// not kicked, no claim of it failed and it began no scan of trap mode, its list registers and ICH_HCR are the plan over the guest
/// with all that stands at interfaces taken back: those that the ideal controller shows.
pub fn entries_show_home()
    ensures { EntriesShowHome }
{}

/// A worked run that meets the premises of `entries_show_home`: a device made SPI 40 pending, and the vCPU leaves and enters with it
/// on a PE with 4 list registers.
pub fn a_worked_entry_shows_home()
    ensures { WorkedEntryShowsHome }
{}
