//! What marks of keys of one value add.
ghost use Rattle.std.specs.Prelude.{◌≡◌};
ghost use Rattle.change_ops.specs.Values.{type_of};

use crate::attribute::{Color, Link};
use crate::keys::ValueType;
use crate::line_kind::LineKind;

/// What a mark of a key of one value adds.
#[derive(Clone, PartialEq, Eq)]
pub enum Value {
    /// The key holds, and has no value besides.
    Nothing,
    Link(Link),
    Color(Color),
    LineKind(LineKind),
}

impl Drop for Value {
    fn drop(self) {
        match self {
            Value::Link(_) => {}
            Value::Nothing | Value::Color(_) | Value::LineKind(_) => {}
        }
    }
}

impl Value {
    /// The type of which the value is.
    pub fn value_type(&self) -> ValueType
        ensures { result ≡ type_of self.now }
    {
        match self {
            Value::Nothing => ValueType::Nothing,
            Value::Link(_) => ValueType::Link,
            Value::Color(_) => ValueType::Color,
            Value::LineKind(_) => ValueType::LineKind,
        }
    }
}
