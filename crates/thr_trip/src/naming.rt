//! Which run vCPUs and devices are of.
ghost use Rattle.std.specs.Prelude.{ℕ, List, []};
ghost use Rattle.port_table.specs.ScnBase.declared.step.Step.{Step};
ghost use Rattle.port_table.specs.Told.{WordsTold};

use std::marker::Brand;

/// Which run vCPUs and devices are of, for proofs alone. Each call of a run picks its own.
pub trait Naming {
    /// The words of its guests.
    ghost words: { List WordsTold };

    /// Its steps.
    ghost steps: { List Step };

    /// The list registers of its PEs.
    ghost lrs: { ℕ };
}

impl Naming for Brand {
    ghost words = { [] };

    ghost steps = { [] };

    ghost lrs = { 0 };
}
