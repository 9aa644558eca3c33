//! The step that an operation makes, which exists in proofs alone.
ghost use Rattle.std.specs.Prelude.{ℕ};
ghost use Rattle.port_core.specs.declared.step.CoreStep.{CoreStep as Step};
ghost use Rattle.port_core.specs.declared.step.CoreStep.TheVariants.{CtlrEnd};
ghost use Rattle.port_ops.specs.declared.opened.Opened.{Opened as Opens};
ghost use Rattle.port_ops.specs.Opened.{no_opened};

use std::marker::Brand;

/// A step that is made, for proofs alone: in which guest, by which actor, and what it does.
pub trait Doing {
    ghost opened: { Opens };

    ghost actor: { ℕ };

    ghost step: { Step };
}

impl Doing for Brand {
    ghost opened = { no_opened };

    ghost actor = { 0 };

    ghost step = { CtlrEnd };
}
