//! Shapes of a drawing.
use std::alloc::{AllocError, Global};
use svg_text::{Attribute, Node, Property, Tag, Value};

/// The namespace of SVG.
const NAMESPACE: &str = "http://www.w3.org/2000/svg";

/// What the classes of shapes look like. Of vCPUs the colours are those of Okabe and Ito, which people tell apart whatever colours they see.
const RULES: &str = "
text{font-family:monospace;font-size:11px;fill:#222222}
.title,.guest{font-weight:bold}
.paper{fill:#ffffff}
.band{fill:#f3f3f3}
.tick{stroke:#d0d0d0}
.pending{fill:none;stroke:#222222;stroke-width:2}
.line{stroke:#222222;stroke-width:1}
.irq{fill:#222222}
.fiq{fill:none;stroke:#222222;stroke-width:1}
.change{stroke:#888888}
.v0{fill:#0072b2}.v1{fill:#e69f00}.v2{fill:#009e73}.v3{fill:#d55e00}
.v4{fill:#56b4e9}.v5{fill:#cc79a7}.v6{fill:#f0e442}.v7{fill:#555555}
.on0,.on2,.on3,.on7{fill:#ffffff}
";

/// An attribute with a number.
fn number(property: Property, value: u64) -> Attribute {
    Attribute {
        property,
        value: Value::Number(value),
    }
}

/// The class of a shape.
fn class(name: &'static str) -> Attribute {
    Attribute {
        property: Property::Class,
        value: Value::Word(name),
    }
}

/// A rectangle: its left upper corner and its size.
#[derive(Clone, Copy)]
pub(crate) struct Area {
    pub x: u64,
    pub y: u64,
    pub width: u64,
    pub height: u64,
}

/// The ends of a line.
#[derive(Clone, Copy)]
pub(crate) struct Stroke {
    pub x1: u64,
    pub y1: u64,
    pub x2: u64,
    pub y2: u64,
}

/// Shapes that are drawn one over the other.
#[derive(Drop)]
pub(crate) struct Drawing {
    alloc: Global,
    nodes: Vec<Node>,
}

impl Drawing {
    /// A drawing without shapes. It takes no memory.
    pub(crate) fn new(alloc: Global) -> Self {
        Drawing {
            alloc,
            nodes: Vec::new(alloc),
        }
    }

    /// Adds a shape, on a line of its own.
    fn add(
        &mut self,
        tag: Tag,
        attributes: Vec<Attribute>,
        children: Vec<Node>,
    ) -> Result<(), AllocError> {
        self.nodes
            .push(Node::Text(String::from_str(self.alloc, "\n")?))?;
        self.nodes.push(Node::Element {
            tag,
            attributes,
            children,
        })?;
        Ok(())
    }

    /// Adds a rectangle, with words that are shown where a reader points at it.
    pub(crate) fn rect(
        &mut self,
        name: &'static str,
        area: Area,
        words: Option<String>,
    ) -> Result<(), AllocError> {
        let alloc = self.alloc;
        let attributes = vec![in alloc;
            class(name),
            number(Property::X, area.x),
            number(Property::Y, area.y),
            number(Property::Width, area.width),
            number(Property::Height, area.height),
        ]?;
        let mut children = Vec::new(alloc);
        if let Some(words) = words {
            children.push(Node::Element {
                tag: Tag::Title,
                attributes: Vec::new(alloc),
                children: vec![in alloc; Node::Text(words)]?,
            })?;
        }
        self.add(Tag::Rect, attributes, children)
    }

    /// Adds a line.
    pub(crate) fn line(&mut self, name: &'static str, stroke: Stroke) -> Result<(), AllocError> {
        let attributes = vec![in self.alloc;
            class(name),
            number(Property::X1, stroke.x1),
            number(Property::Y1, stroke.y1),
            number(Property::X2, stroke.x2),
            number(Property::Y2, stroke.y2),
        ]?;
        self.add(Tag::Line, attributes, Vec::new(self.alloc))
    }

    /// Adds words whose first letter stands at a place, on its lower end.
    pub(crate) fn text(
        &mut self,
        name: &'static str,
        x: u64,
        y: u64,
        words: String,
    ) -> Result<(), AllocError> {
        let alloc = self.alloc;
        let attributes = vec![in alloc;
            class(name),
            number(Property::X, x),
            number(Property::Y, y),
        ]?;
        self.add(Tag::Text, attributes, vec![in alloc; Node::Text(words)]?)
    }

    /// Adds words that are read upwards, from a place on.
    pub(crate) fn upright(
        &mut self,
        name: &'static str,
        x: u64,
        y: u64,
        words: String,
    ) -> Result<(), AllocError> {
        let alloc = self.alloc;
        let attributes = vec![in alloc;
            class(name),
            number(Property::X, x),
            number(Property::Y, y),
            Attribute {
                property: Property::Transform,
                value: Value::Text(format!(in alloc; "rotate(-90 {x} {y})")?),
            },
        ]?;
        self.add(Tag::Text, attributes, vec![in alloc; Node::Text(words)]?)
    }

    /// Puts the shapes of another drawing over these.
    pub(crate) fn cover(&mut self, over: Drawing) -> Result<(), AllocError> {
        for node in over.nodes {
            self.nodes.push(node)?;
        }
        Ok(())
    }

    /// The drawing as a picture of a size, under a title.
    pub(crate) fn picture(self, width: u64, height: u64, title: &str) -> Result<Node, AllocError> {
        let alloc = self.alloc;
        let attributes = vec![in alloc;
            Attribute {
                property: Property::Xmlns,
                value: Value::Word(NAMESPACE)
            },
            number(Property::Width, width),
            number(Property::Height, height),
            Attribute {
                property: Property::ViewBox,
                value: Value::Text(format!(in alloc; "0 0 {width} {height}")?),
            },
            Attribute {
                property: Property::Role,
                value: Value::Word("img")
            },
        ]?;
        let mut children = Vec::new(alloc);
        for (tag, words) in [(Tag::Title, title), (Tag::Style, RULES)] {
            children.push(Node::Element {
                tag,
                attributes: Vec::new(alloc),
                children: vec![in alloc; Node::Text(String::from_str(alloc, words)?)]?,
            })?;
        }
        for node in self.nodes {
            children.push(node)?;
        }
        children.push(Node::Text(String::from_str(alloc, "\n")?))?;
        Ok(Node::Element {
            tag: Tag::Svg,
            attributes,
            children,
        })
    }
}
