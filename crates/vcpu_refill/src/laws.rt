//! Laws of the plan.
ghost use Rattle.vcpu_refill.specs.Laws.{OrderedIsSorting, EveryActiveIsPlanned, EveryDeliverableIsPlanned, LeftOutComesAfter, BothLeavesNothingOut, PlannedIsEarned, PlannedOnce, PlanStands, OthersDoNotMatter, FirstIsFirst};

/// A law of the delivery order: the ordered interrupts are the same ones, and none of them is delivered
/// before one that stands earlier.
pub fn ordered_is_sorting()
    ensures { OrderedIsSorting }
{}

/// A law of the plan: out of trap mode it has every interrupt that is active by the vCPU.
pub fn every_active_is_planned()
    ensures { EveryActiveIsPlanned }
{}

/// A law of the plan: where nothing is cut off it has, out of trap mode, every interrupt that is
/// deliverable to the vCPU.
pub fn every_deliverable_is_planned()
    ensures { EveryDeliverableIsPlanned }
{}

/// A law of the plan: each deliverable interrupt that is left out comes after each that stands in a list
/// register with State 1.
pub fn left_out_comes_after()
    ensures { LeftOutComesAfter }
{}

/// A law of the plan: State 3 is used only where no deliverable interrupt is left out.
pub fn both_leaves_nothing_out()
    ensures { BothLeavesNothingOut }
{}

/// A law of the plan: what stands in a list register was offered, with that record, and is deliverable to the
/// vCPU where its State is 1, and active by the vCPU where its State is 2 or 3.
pub fn planned_is_earned()
    ensures { PlannedIsEarned }
{}

/// A law of the plan: no interrupt stands in two list registers, where none was offered twice.
pub fn planned_once()
    ensures { PlannedOnce }
{}

/// A law of the plan: the registers that an entry stores, with what is held, stand for the interface place by
/// place.
pub fn plan_stands()
    ensures { PlanStands }
{}

/// A law of the plan: an offer that is neither active by the vCPU nor deliverable to it changes nothing.
pub fn others_do_not_matter()
    ensures { OthersDoNotMatter }
{}

/// A law of the delivery order: the first of the deliverable interrupts is the first of them as candidates.
pub fn first_is_first()
    ensures { FirstIsFirst }
{}
