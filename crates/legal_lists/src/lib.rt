//! Legal lists: what a record of a guest's actors can be that breaks off anywhere, and laws of them.
#![tactic(auto)]

mod laws;

pub use laws::{
    made_was_to_come, open_calls_are_refused, parts_of_legal_are_legal, unfresh_ones_are_refused,
    what_may_be_made, whole_legal_is_fresh, worked_lists_are_legal,
};
