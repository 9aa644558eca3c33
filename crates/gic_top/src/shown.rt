//! A watch that only counts.

ghost use Rattle.std.specs.Prelude.{None};

use gic_host::scenarios::Scenario;
use run_saved::{Done, SeqPort, SeqWatch};
use run_thr::{RootSeat, SharedWords, ThrWatch};

/// How many runs were shown, of each kind. It keeps nothing else of them.
#[derive(Clone, Copy, Debug, PartialEq, Eq)]
pub struct Shown {
    /// Runs whose steps were done one after the other.
    pub scheduled: u64,
    /// Runs whose steps were done by threads.
    pub threaded: u64,
}

/// A watch that was shown no run.
pub const NOTHING_SHOWN: Shown = Shown {
    scheduled: 0,
    threaded: 0,
};

impl SeqWatch for Shown {
    ghost scheduled = { λ shown. shown.scheduled };

    ghost last_schedule = { λ shown. None };

    fn show_schedule(&mut self, _scenario: &Scenario, _port: &SeqPort, _done: &Done) {
        self.scheduled += 1;
    }
}

impl ThrWatch for Shown {
    ghost threaded = { λ shown. shown.threaded };

    ghost last_threads = { λ shown. None };

    fn show_threads(
        &mut self,
        _scenario: &Scenario,
        _words: &SharedWords,
        _root: &RootSeat,
        _done: &Done,
    ) {
        self.threaded += 1;
    }
}
