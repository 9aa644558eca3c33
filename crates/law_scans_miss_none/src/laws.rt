//! Laws of every run of the core.
ghost use Rattle.law_scans_miss_none.specs.Copies.{CopiesAreCurrent};
ghost use Rattle.law_scans_miss_none.specs.Far.{FarEndsAreKnown};
ghost use Rattle.law_scans_miss_none.specs.First.{FirstComesFirst};
ghost use Rattle.law_scans_miss_none.specs.Index.{IndexIsComplete};
ghost use Rattle.law_scans_miss_none.specs.Scan.{ScanOverlooksNone};
ghost use Rattle.law_scans_miss_none.specs.Standing.{ChangesAreOwed};
ghost use Rattle.law_scans_miss_none.specs.Wants.{WantsAreKept};

/// A law of every run of a good guest's actors from its opening, in whatever order their steps come: an interrupt that nobody
/// holds, and that is ripe for a vCPU or active by it, has its bit in the vCPU's candidate index, or the vCPU took that bit and
/// did not settle it yet, or an actor owes the vCPU a mark of it. So a scan that looks at the bits that it finds overlooks none.
pub fn index_is_complete()
    ensures { IndexIsComplete }
{}

/// A law of every proper run, of a vCPU that is not kicked and of which no claim failed. An interrupt that waits for it is due
/// unless the actor that changed it last is in that call still and owes the vCPU a kick. While the vCPU scans, each interrupt
/// that is due is still to be found, or was found with the record that it has; and once it looked at all candidates, its
/// registers are those that its scan asks for of interrupts among which is each that is due.
pub fn scans_overlook_none()
    ensures { ScanOverlooksNone }
{}

/// A law of every proper run, of a vCPU that is not kicked and does not give back what it has: its own copy of EnableLPIs is
/// what its word says.
pub fn copies_are_current()
    ensures { CopiesAreCurrent }
{}

/// A law of every proper run, of an interrupt at the interface of a vCPU that is not kicked and does not give back what it has:
/// each change of the interrupt since it got there was made in a call that goes on, whose actor owes the vCPU a kick.
pub fn changes_are_owed()
    ensures { ChangesAreOwed }
{}

/// A law of every proper run, of a vCPU that is not kicked, looked at the interrupt that its call ends and found it not active by
/// it: where that is at no interface and active by the vCPU all the same, the actor that changed it last is in that call still
/// and owes the vCPU a kick.
pub fn far_ends_are_known()
    ensures { FarEndsAreKnown }
{}

/// A law of every proper run, of a vCPU that is not kicked, of which no claim failed, that may do accesses and owes no scan, and
/// in trap mode scanned since its last look for a kick: no interrupt that is due and deliverable to it comes before the first at
/// its interface, and there is a first one where any is due and deliverable.
pub fn first_comes_first()
    ensures { FirstComesFirst }
{}

/// A law of every run with its parts: an interrupt for which an access waits is wanted by an actor, which asked for it in its
/// part and did not touch it since.
pub fn wants_are_kept()
    ensures { WantsAreKept }
{}
