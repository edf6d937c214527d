//! The values of the keys at a place, as a format keeps them: by their types, so that they take few bytes.
ghost use Rattle.std.specs.Prelude.{◌≡◌, ◌<◌, ◌↔◌, IfOk, IsTrue, None, OnOk, Some, is_some, length, option_map};
ghost use Rattle.std.specs.Prelude.{replicate, slice_get, slice_index_or, slice_set};
ghost use Rattle.std.specs.Cmp.{partial_equiv_from_equiv};
ghost use Rattle.std.specs.Option.{option_copied};
ghost use Rattle.change_ops.specs.Keys.{type_of_row};
ghost use Rattle.change_ops.specs.Values.{is_of_type};
ghost use Rattle.change_ops.specs.declared.keys.TheConstants.{COLOR, KEYS, LINK};
ghost use Rattle.mark_anchors.specs.Formatting.{rgb_of, target_of, values_eq, values_eq_equiv};
ghost use Rattle.mark_anchors.specs.Values.{lent};

use crate::decided::Decided;
use crate::value_ref::ValueRef;
use change_ops::attribute::{Color, Link};
use change_ops::keys::{KEYS, KeyRow, ValueType};
use change_ops::line_kind::LineKind;
use change_ops::value::Value;
use std::alloc::AllocError;
use std::marker::Model;

/// How many keys have no value besides that they hold, how many have a color, and how many are a line's kind.
const FLAGS: usize = 5;

const COLORS: usize = 1;

const LINE_KINDS: usize = 1;

/// The place of each key among those whose values are of the same type.
static PLACES: [usize; KEYS] = [0, 1, 2, 0, 0, 3, 4, 0];

/// The values of the keys at a place, the smallest fields first: side by side they take no more bytes.
pub(crate) struct Values {
    flags: [bool; FLAGS],
    line_kinds: [Option<LineKind>; LINE_KINDS],
    link: Option<Link>,
    colors: [Option<Color>; COLORS],
}

impl Drop for Values {
    fn drop(self) {
        let Values {
            flags: _,
            line_kinds: _,
            link: _,
            colors: _,
        } = self;
    }
}

impl Model for Values {
    ghost use Rattle.std.specs.Prelude.{List, Option};
    ghost use Rattle.change_ops.specs.declared.value.Value.{Value as ValueOf};
    ghost use Rattle.mark_anchors.specs.Values.{AreSized, values_of};

    ghost Value = { List (Option ValueOf) };

    ghost view = { λ v. values_of (record {
      flags = v.flags;
      link = v.link;
      colors = v.colors;
      line_kinds = v.line_kinds;
    }) };

    ghost invariant = { λ v. AreSized (record {
      flags = v.flags;
      link = v.link;
      colors = v.colors;
      line_kinds = v.line_kinds;
    }) };
}

impl Clone for Values {
    ghost is_clone = { λ old new. new ≡ old };

    fn clone(&self) -> Result<Values, AllocError> {
        Ok(Values {
            flags: self.flags,
            link: self.link.clone()?,
            colors: self.colors.clone()?,
            line_kinds: self.line_kinds.clone()?,
        })
    }
}

impl PartialEq for Values {
    ghost eq = { values_eq };

    ghost laws = { partial_equiv_from_equiv values_eq_equiv };

    fn eq(&self, other: &Values) -> bool
        ensures eq { result ≡ values_eq self.now other.now }
        ensures same { IsTrue result ↔ (self.now ≡ other.now) }
    {
        self.flags == other.flags
            && self.link == other.link
            && self.colors == other.colors
            && self.line_kinds == other.line_kinds
    }
}

impl Eq for Values {
    ghost laws = { values_eq_equiv };
}

/// One of the places.
fn place_in(places: &[usize], row: usize) -> usize
    requires { row < length places.now }
    ensures { slice_get places.now row ≡ Some result }
{
    places[row]
}

/// Keeps a clone of the link.
fn keep_link(kept: &mut Option<Link>, link: &Link) -> Result<(), AllocError>
    ensures { OnOk result (kept.new ≡ Some link.now) }
{
    let link = link.clone()?;
    *kept = Some(link);
    Ok(())
}

impl Values {
    /// No key holds.
    pub(crate) fn none() -> Values
        ensures { result ≡ replicate KEYS None }
    {
        Values {
            flags: [false; FLAGS],
            line_kinds: [None; LINE_KINDS],
            link: None,
            colors: [None; COLORS],
        }
    }

    /// What was decided.
    pub(crate) fn of(decided: &Decided<'_>) -> Result<Values, AllocError>
        ensures { IfOk result (λ values. values ≡ decided.now) }
    {
        let held = decided.values();
        let mut values = Values::none();
        for row in 0..KEYS {
            if let Some(value) = held[row] {
                values.set(row, value)?;
            }
        }
        Ok(values)
    }

    /// Keeps the value of a row's key.
    fn set(&mut self, row: usize, value: &Value) -> Result<(), AllocError>
        requires row { row < KEYS }
        requires typed { IsTrue (is_of_type (type_of_row row) value.now) }
        ensures { OnOk result (self.new ≡ slice_set self.old row (Some value.now)) }
    {
        let place = place_in(&PLACES, row);
        match value {
            Value::Nothing => self.flags[place] = true,
            Value::Link(link) => keep_link(&mut self.link, link)?,
            Value::Color(color) => self.colors[place] = Some(*color),
            Value::LineKind(kind) => self.line_kinds[place] = Some(*kind),
        }
        Ok(())
    }

    /// The value of a key.
    pub(crate) fn value(&self, row: KeyRow) -> Option<ValueRef<'_>>
        ensures { option_map lent result ≡ slice_index_or self.now row None }
    {
        let place = place_in(&PLACES, row.row());
        match row.value_type() {
            ValueType::Nothing => {
                if self.flags[place] {
                    Some(ValueRef::Nothing)
                } else {
                    None
                }
            }
            ValueType::Link => {
                let link = self.link.as_ref()?;
                Some(ValueRef::Link(link))
            }
            ValueType::Color => {
                let color = self.colors[place]?;
                Some(ValueRef::Color(color))
            }
            ValueType::LineKind => {
                let kind = self.line_kinds[place]?;
                Some(ValueRef::LineKind(kind))
            }
        }
    }

    /// Whether the key of a row holds.
    pub(crate) fn has(&self, row: usize) -> bool
        ensures { result ≡ is_some (slice_index_or self.now row None) }
    {
        // Of a row beyond the last one nothing is stored.
        let _ = &self.flags;
        match KeyRow::new(row) {
            Some(row) => self.value(row).is_some(),
            None => false,
        }
    }

    /// Whether no key holds.
    pub(crate) fn is_none(&self) -> bool
        ensures { IsTrue result ↔ (self.now ≡ replicate KEYS None) }
    {
        *self == Values::none()
    }

    /// The link.
    pub(crate) fn link(&self) -> Option<&Link>
        ensures { option_copied result ≡ target_of (slice_index_or self.now LINK None) }
    {
        self.link.as_ref()
    }

    /// The color that a program's context has.
    pub(crate) fn color(&self) -> Option<Color>
        ensures { result ≡ rgb_of (slice_index_or self.now COLOR None) }
    {
        self.colors[0]
    }
}
