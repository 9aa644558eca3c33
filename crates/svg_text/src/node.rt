//! Trees of elements and texts.
use crate::name::{Property, Tag};

/// The value of an attribute.
#[derive(Debug, Drop)]
pub enum Value {
    /// A number, which is written in decimal digits.
    Number(u64),
    /// A text that the program has.
    Word(&'static str),
    /// A text that was made.
    Text(String),
}

/// An attribute of an element, with its value.
#[derive(Debug, Drop)]
pub struct Attribute {
    pub property: Property,
    pub value: Value,
}

/// An element with what stands in it, or a text.
#[derive(Debug, Drop)]
pub enum Node {
    /// A text, in the characters that a reader is to see.
    Text(String),
    Element {
        tag: Tag,
        /// In the order in which they are written. A reader takes an element with two attributes of one name for
        /// damaged: it is left to whoever builds a tree to give each once.
        attributes: Vec<Attribute>,
        /// In the order in which they are drawn.
        children: Vec<Node>,
    },
}
