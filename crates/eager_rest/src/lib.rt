//! The rest of a saved run by the ideal controller: from what was saved on, each step done whole.
#![tactic(auto)]

mod rest;
mod told;

pub use law_saves_go_on::saved;
pub use rest::eager_saved;
pub use saved_check as check;
pub use told::all_told;
