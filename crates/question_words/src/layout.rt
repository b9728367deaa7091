//! Layouts: the names of fields.

ghost use Rattle.std.specs.Prelude.{◌≡◌};
ghost use Rattle.question_words.specs.Layout.{entries, field_named};

use record_questions::Field;

/// A field's name.
#[derive(Drop)]
pub struct NamedField {
    /// The name.
    pub name: Vec<u8>,
    /// Its field.
    pub field: Field,
}

/// The names by which a question can speak of fields. A name that no field can have, as `arg`, is of no use.
#[derive(Drop)]
pub struct Layout {
    /// Each name with its field. Of two that are the same the first counts.
    pub fields: Vec<NamedField>,
}

impl Layout {
    /// The field that has a name.
    pub fn field(&self, name: &[u8]) -> Option<Field>
        ensures { result ≡ field_named (entries self.now) name.now }
    {
        for named in &self.fields {
            if named.name.as_slice() == name {
                return Some(named.field);
            }
        }
        None
    }
}
