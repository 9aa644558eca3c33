//! A law of the texts of trees.
ghost use Rattle.svg_text.specs.Content.{TextsAreContent};

/// A law of every tree: its text is content of XML, in which each element that is opened is closed by its own name, in
/// order, and what stands between two tags or in the value of an attribute has no `<`, and `&` only as the first
/// character of an entity.
pub fn texts_are_content()
    ensures { TextsAreContent }
{}
