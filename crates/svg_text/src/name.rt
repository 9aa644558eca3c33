//! The names of elements and of their attributes (SVG 2).
ghost use Rattle.std.specs.Prelude.{◌≡◌};
ghost use Rattle.svg_text.specs.Name.{tag_name, property_name};

/// An element.
#[derive(Clone, Copy, Debug, PartialEq, Eq, Hash)]
pub enum Tag {
    /// The picture as a whole.
    Svg,
    /// Rules of CSS.
    Style,
    /// Several elements as one.
    Group,
    /// What a reader is told of the element around it.
    Title,
    Rect,
    Line,
    /// A line of text.
    Text,
}

impl Tag {
    /// The name of the element.
    pub fn name(self) -> &'static str
        ensures { result.now ≡ tag_name self }
    {
        match self {
            Tag::Svg => "svg",
            Tag::Style => "style",
            Tag::Group => "g",
            Tag::Title => "title",
            Tag::Rect => "rect",
            Tag::Line => "line",
            Tag::Text => "text",
        }
    }
}

/// An attribute of an element.
#[derive(Clone, Copy, Debug, PartialEq, Eq, Hash)]
pub enum Property {
    /// The namespace of the elements.
    Xmlns,
    /// The part of the plane that is shown: left, top, width, height.
    ViewBox,
    Width,
    Height,
    /// The rules of CSS that hold for the element.
    Class,
    /// What the picture is to those who do not see it.
    Role,
    X,
    Y,
    X1,
    Y1,
    X2,
    Y2,
    /// How the element is turned.
    Transform,
}

impl Property {
    /// The name of the attribute.
    pub fn name(self) -> &'static str
        ensures { result.now ≡ property_name self }
    {
        match self {
            Property::Xmlns => "xmlns",
            Property::ViewBox => "viewBox",
            Property::Width => "width",
            Property::Height => "height",
            Property::Class => "class",
            Property::Role => "role",
            Property::X => "x",
            Property::Y => "y",
            Property::X1 => "x1",
            Property::Y1 => "y1",
            Property::X2 => "x2",
            Property::Y2 => "y2",
            Property::Transform => "transform",
        }
    }
}
