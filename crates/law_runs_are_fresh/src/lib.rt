//! Every interleaving of the core is fresh: a change reaches a CPU interface no later than its call ends.
#![tactic(auto)]

mod laws;

pub use laws::{
    a_read_is_alone, a_touch_is_awaited, acknowledges_find_the_first, fresh_runs, fresh_so_far,
};
