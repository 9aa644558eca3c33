//! What the fields of a JSON object hold: numbers, flags, texts, lists and pairs.
#![tactic(auto)]

mod field;

pub use field::{
    elements_at, flag_at, flag_or, has_only, list_at, list_of, list_or_empty, number_at, number_of,
    number_or, other_field, pair_at, text_at,
};
