//! Who watches runs.
ghost use Rattle.std.specs.Prelude.{◌≡◌, ℕ, ◌+◌, ◌<◌, Option, IfSome};
ghost use Rattle.law_ends_agree.specs.ScnBase.declared.scenario.Scenario.{Scenario as ScenarioOf};
ghost use Rattle.law_one_thread_is_eager.specs.PortSeq.Ports.{told_all};
ghost use Rattle.run_seq.specs.Run.{HasRun};

use law_ends_agree::{Done, Scenario};
use law_one_thread_is_eager::SeqPort;

/// Who is shown each scheduled run, before its words are closed.
pub trait SeqWatch {
    /// How many runs were shown so far.
    ghost scheduled: { Self → ℕ };

    /// The scenario of the run that was shown last, or none where the object does not tell it.
    ghost last_schedule: { Self → Option ScenarioOf };

    /// Shows a run: the scenario, the port on which all its steps were done, and what they answered. It takes no memory.
    fn show_schedule(&mut self, scenario: &Scenario, port: &SeqPort, done: &Done)
        requires room { scheduled self.old < 18446744073709551615 }
        requires run { HasRun scenario.now done.now (told_all port.now) }
        ensures counted { scheduled self.new ≡ scheduled self.old + 1 }
        ensures last { IfSome (last_schedule self.new) (λ shown. shown ≡ scenario.now) };
}
