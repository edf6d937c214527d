//! What marks decide at a place.
ghost use Rattle.std.specs.Prelude.{◌≡◌, ◌↔◌, IsTrue, length, map};
ghost use Rattle.std.specs.Option.{option_copied};
ghost use Rattle.change_ops.specs.declared.keys.TheConstants.{KEYS};
ghost use Rattle.mark_anchors.specs.Resolution.{AreTyped};

use change_ops::keys::KEYS;
use change_ops::value::Value;
use std::marker::Model;

/// The value of each key but comments at a place, as the marks' operations have it.
#[derive(Drop)]
pub(crate) struct Decided<'a> {
    values: [Option<&'a Value>; KEYS],
}

impl<'a> Model for Decided<'a> {
    ghost use Rattle.std.specs.Prelude.{List, Option, map};
    ghost use Rattle.std.specs.Option.{option_copied};
    ghost use Rattle.change_ops.specs.declared.value.Value.{Value as ValueOf};
    ghost use Rattle.mark_anchors.specs.Resolution.{AreTyped};

    ghost Value = { List (Option ValueOf) };

    ghost view = { λ d. map option_copied d.values };

    ghost invariant = { λ d. AreTyped (map option_copied d.values) };
}

/// Whether a key has one value at both of two places, or at neither.
fn is_same_value(first: Option<&Value>, second: Option<&Value>) -> bool
    ensures { IsTrue result ↔ (option_copied first.entry ≡ option_copied second.entry) }
{
    match (first, second) {
        (Some(value), Some(other)) => value == other,
        (None, None) => true,
        _ => false,
    }
}

impl<'a> Decided<'a> {
    /// These values.
    pub(crate) fn new(values: [Option<&'a Value>; KEYS]) -> Decided<'a>
        requires { AreTyped (map option_copied values) }
        ensures { result ≡ map option_copied values.entry }
    {
        Decided { values }
    }

    /// The values, by row.
    pub(crate) fn values(&self) -> &[Option<&'a Value>]
        ensures value { map option_copied result.now ≡ self.now }
        ensures sized { length result.now ≡ KEYS }
        ensures typed { AreTyped self.now }
    {
        &self.values
    }

    /// Whether each key has the same value.
    pub(crate) fn is_same(&self, other: &Decided<'_>) -> bool
        ensures { IsTrue result ↔ (self.now ≡ other.now) }
    {
        let (held, others) = (self.values(), other.values());
        for row in 0..KEYS {
            if !is_same_value(held[row], others[row]) {
                return false;
            }
        }
        true
    }
}
