//! Laws of what comes back.
ghost use Rattle.vcpu_state.specs.Fold.{EachComesBack};

/// A law of the fold: where the registers with what is held stand for an interface place by place, each held
/// interrupt brings back what the interface has of it.
pub fn each_comes_back()
    ensures { EachComesBack }
{}
