//! What is amiss with a scenario that has a fault, or with links and their steps, for people: where it is, what its code means, and which field it is about; and why
//! bytes are no JSON.
#![tactic(auto)]

mod bytes;
mod field;
mod held;
mod hint;
mod host;
mod law;
mod limit;
mod nearest;
mod place;
mod step;
mod table;
mod text;

pub use bytes::Cause;
pub use field::{Amiss, Kind, Rule, What, first_amiss};
pub use gic_host::read_host;
pub use gic_host::scenarios::{Form, Mode, ReadRefusal, read};
pub use hint::{Hint, code_name, hint_of};
pub use host::{HostHint, HostPlace, host_hint_of};
pub use law::fields_are_told;
pub use limit::{Limit, Multiple};
pub use place::Place;
