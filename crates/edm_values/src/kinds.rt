//! Kinds of types.
ghost use Rattle.std.specs.Prelude.{◌≡◌};
ghost use Rattle.edm_values.specs.Literals.{is_number_kind, same_kind};

use crate::EdmType;

impl EdmType {
    /// Whether it is a type of numbers.
    pub fn is_number(self) -> bool
        ensures value { result ≡ is_number_kind self }
    {
        matches!(self, EdmType::Int | EdmType::Dec { .. })
    }

    /// Whether the two are equal but for the precision.
    pub fn same_kind(self, other: EdmType) -> bool
        ensures value { result ≡ same_kind self other }
    {
        match (self, other) {
            (EdmType::Bool, EdmType::Bool)
            | (EdmType::Int, EdmType::Int)
            | (EdmType::Text, EdmType::Text)
            | (EdmType::Day, EdmType::Day) => true,
            (EdmType::Dec { scale, .. }, EdmType::Dec { scale: other, .. }) => scale == other,
            _ => false,
        }
    }
}
