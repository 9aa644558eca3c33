//! Laws of registers that stand for an interface.
ghost use Rattle.gic_icv.specs.Agree.{PlacesAgree};

/// A law of the list registers: those that stand for an interface place by place stand for it.
pub fn places_agree()
    ensures { PlacesAgree }
{}
