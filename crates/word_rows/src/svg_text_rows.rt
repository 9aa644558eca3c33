//! A small picture.

use std::alloc::{AllocError, Global};
use std::test::Fail;
use svg_text::{Attribute, Node, Property, Tag, Value, text};

/// An element with one attribute and one text.
fn label(alloc: Global, words: &str) -> Result<Node, AllocError> {
    Ok(Node::Element {
        tag: Tag::Text,
        attributes: vec![in alloc;
            Attribute {
                property: Property::X,
                value: Value::Number(40)
            },
        ]?,
        children: vec![in alloc; Node::Text(String::from_str(alloc, words)?)]?,
    })
}

/// An element in which nothing stands.
fn bar(alloc: Global) -> Result<Node, AllocError> {
    let mut attributes = Vec::new(alloc);
    attributes.push(Attribute {
        property: Property::Class,
        value: Value::Word("a\"b"),
    })?;
    attributes.push(Attribute {
        property: Property::Transform,
        value: Value::Text(String::from_str(alloc, "M0 0<1\u{1}")?),
    })?;
    Ok(Node::Element {
        tag: Tag::Line,
        attributes,
        children: Vec::new(alloc),
    })
}

#[test]
fn elements_are_closed_and_texts_escaped(rt: HostRuntime) -> Result<(), Fail> {
    let alloc = rt.alloc();
    let picture = Node::Element {
        tag: Tag::Svg,
        attributes: Vec::new(alloc),
        children: vec![in alloc; label(alloc, "1 < 2 & 3 > \"0\"\n")?, bar(alloc)?]?,
    };
    let written = text(alloc, &picture)?;
    let expected = "<svg><text x=\"40\">1 &lt; 2 &amp; 3 &gt; &quot;0&quot;\n</text>\
        <line class=\"a&quot;b\" transform=\"M0 0&lt;1?\"/></svg>";
    assert_eq!(rt; written.as_slice(), expected.as_bytes());
    Ok(())
}
