//! Who watches runs on threads.
ghost use Rattle.std.specs.Prelude.{◌≡◌, ℕ, ◌+◌, ◌<◌, Option, IfSome};
ghost use Rattle.law_threads_are_history.specs.ScnBase.declared.scenario.Scenario.{Scenario as ScenarioOf};
ghost use Rattle.thr_cast.specs.PortTable.All.{told_words, told_root};
ghost use Rattle.run_thr.specs.Run.{HasRun};

use thr_cast::{Done, RootSeat, Scenario, SharedWords};

/// Who is shown each run on threads, before its words are closed.
pub trait ThrWatch {
    /// How many runs were shown so far.
    ghost threaded: { Self → ℕ };

    /// The scenario of the run that was shown last, or none where the object does not tell it.
    ghost last_threads: { Self → Option ScenarioOf };

    /// Shows a run: the scenario, the words on which all its steps were done, the seat that knows them, and what they answered.
    /// It takes no memory.
    fn show_threads(
        &mut self,
        scenario: &Scenario,
        words: &SharedWords,
        root: &RootSeat,
        done: &Done,
    )
        requires room { threaded self.old < 18446744073709551615 }
        requires run { HasRun scenario.now done.now (told_words words.now) (told_root root.now) }
        ensures counted { threaded self.new ≡ threaded self.old + 1 }
        ensures last { IfSome (last_threads self.new) (λ shown. shown ≡ scenario.now) };
}
