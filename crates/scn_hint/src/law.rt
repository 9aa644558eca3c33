//! That what is told fits what the reader finds.
ghost use Rattle.scn_hint.specs.Law.{FieldsAreTold};

/// A law of the tables: of a step that names a form a field is told exactly where the reader refuses it for its shape.
pub fn fields_are_told()
    ensures { FieldsAreTold }
{}
