//! Trees of SVG elements, and the text of one: each element that is opened is closed, and each text is escaped.
#![tactic(auto)]

mod laws;
mod name;
mod node;
mod write;

pub use laws::texts_are_content;
pub use name::{Property, Tag};
pub use node::{Attribute, Node, Value};
pub use write::text;
