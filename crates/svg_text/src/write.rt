//! The text of a tree.
ghost use Rattle.std.specs.Prelude.{◌≡◌, ◌++◌, OnOk, IfOk, string_bytes, codes};
ghost use Rattle.std.specs.List.{flat_map};
ghost use Rattle.svg_text.specs.Tree.{escape_of, escaped, value_text, attribute_text, start_of, end_of, node_text};
ghost use Rattle.svg_text.specs.Content.{IsContent};

use crate::name::Tag;
use crate::node::{Attribute, Node, Value};
use itoa::Buffer;
use std::alloc::{AllocError, Global};

/// The first byte of a character that a reader sees.
const FIRST_VISIBLE: u8 = b' ';

/// Writes a byte of a text.
fn write_byte(out: &mut Vec<u8>, byte: u8) -> Result<(), AllocError>
    ensures { OnOk result (out.new.items ≡ out.old.items ++ escape_of byte) }
{
    match byte {
        b'&' => out.extend_from_slice(b"&amp;"),
        b'<' => out.extend_from_slice(b"&lt;"),
        b'>' => out.extend_from_slice(b"&gt;"),
        b'"' => out.extend_from_slice(b"&quot;"),
        b'\t' | b'\n' | FIRST_VISIBLE.. => out.extend_from_slice(&[byte]),
        _ => out.extend_from_slice(b"?"),
    }
}

/// Writes a text.
fn write_escaped(out: &mut Vec<u8>, text: &[u8]) -> Result<(), AllocError>
    ensures { OnOk result (out.new.items ≡ out.old.items ++ escaped text.now) }
{
    for &byte in text {
        write_byte(out, byte)?;
    }
    Ok(())
}

/// Writes the value of an attribute.
fn write_value(out: &mut Vec<u8>, value: &Value) -> Result<(), AllocError>
    ensures { OnOk result (out.new.items ≡ out.old.items ++ value_text value.now) }
{
    match value {
        Value::Number(number) => {
            let mut buffer = Buffer::new();
            write_escaped(out, buffer.format(*number).as_bytes())
        }
        Value::Word(word) => write_escaped(out, word.as_bytes()),
        Value::Text(text) => write_escaped(out, text.as_bytes()),
    }
}

/// Writes an attribute after the name of its element.
fn write_attribute(out: &mut Vec<u8>, attribute: &Attribute) -> Result<(), AllocError>
    ensures { OnOk result (out.new.items ≡ out.old.items ++ attribute_text attribute.now) }
{
    out.extend_from_slice(b" ")?;
    out.extend_from_slice(attribute.property.name().as_bytes())?;
    out.extend_from_slice(b"=\"")?;
    write_value(out, &attribute.value)?;
    out.extend_from_slice(b"\"")
}

/// Writes the attributes of an element.
fn write_attributes(out: &mut Vec<u8>, attributes: &[Attribute]) -> Result<(), AllocError>
    ensures { OnOk result (out.new.items ≡ out.old.items ++ flat_map attribute_text attributes.now) }
{
    for attribute in attributes {
        write_attribute(out, attribute)?;
    }
    Ok(())
}

/// Writes the start of an element, to its last attribute.
fn write_start(out: &mut Vec<u8>, tag: Tag, attributes: &[Attribute]) -> Result<(), AllocError>
    ensures { OnOk result (out.new.items ≡ out.old.items ++ start_of tag attributes.now) }
{
    out.extend_from_slice(b"<")?;
    out.extend_from_slice(tag.name().as_bytes())?;
    write_attributes(out, attributes)
}

/// Writes the end of an element in which something stands.
fn write_end(out: &mut Vec<u8>, tag: Tag) -> Result<(), AllocError>
    ensures { OnOk result (out.new.items ≡ out.old.items ++ end_of tag) }
{
    out.extend_from_slice(b"</")?;
    out.extend_from_slice(tag.name().as_bytes())?;
    out.extend_from_slice(b">")
}

/// Writes an element or a text.
fn write_node(out: &mut Vec<u8>, node: &Node) -> Result<(), AllocError>
    ensures { OnOk result (out.new.items ≡ out.old.items ++ node_text node.now) }
{
    match node {
        Node::Text(text) => write_escaped(out, text.as_bytes()),
        Node::Element {
            tag,
            attributes,
            children,
        } => {
            write_start(out, *tag, attributes.as_slice())?;
            if children.is_empty() {
                return out.extend_from_slice(b"/>");
            }
            out.extend_from_slice(b">")?;
            for child in children {
                write_node(out, child)?;
            }
            write_end(out, *tag)
        }
    }
}

/// The text of a tree: of an element its name, its attributes and what stands in it, between `<` and `>`; of a text its
/// characters, with entities in place of `&`, `<`, `>` and `"`. A character that no text may have (a control character
/// but for a tab and a line feed) is written as a question mark. It takes time linear in what is written; an error where
/// memory is refused.
pub fn text(alloc: Global, node: &Node) -> Result<Vec<u8>, AllocError>
    ensures value { IfOk result (λ text. text.items ≡ node_text node.now) }
    ensures content { IfOk result (λ text. IsContent text.items) }
{
    let mut out = Vec::new(alloc);
    write_node(&mut out, node)?;
    Ok(out)
}
