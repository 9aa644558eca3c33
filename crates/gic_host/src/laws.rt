//! Laws of linked interrupts.
ghost use Rattle.gic_host.specs.Laws.{PhysicalFollowsVirtual, LatchesAreTaken, LinksAreApart, OrderDoesNotMatter};

/// A law of links: whatever the steps are, after each of them a physical interrupt is active exactly where its virtual one
/// is pending or active.
pub fn physical_follows_virtual()
    ensures { PhysicalFollowsVirtual }
{}

/// A law of latches: no interrupt is lost. After each step, what is still latched is active or disabled; and a latch stays
/// until its link takes it, or a step clears it.
pub fn latches_are_taken()
    ensures { LatchesAreTaken }
{}

/// A law of links: a link changes by steps that name its physical interrupt, or by an access of its own vCPU.
pub fn links_are_apart()
    ensures { LinksAreApart }
{}

/// A law of what the hypervisor takes after a step: the order in which it goes over the links does not matter.
pub fn order_does_not_matter()
    ensures { OrderDoesNotMatter }
{}
