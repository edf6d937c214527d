ghost use Rattle.std.specs.Prelude.{◌≡◌, ◌<◌, IsTrue, ◌↔◌, List, length, option_map};
ghost use Rattle.std.specs.Option.{option_copied};
ghost use Rattle.std.specs.List.Sorted.{IsStrictlyIncreasing};
ghost use Rattle.std.specs.Cmp.{partial_equiv_from_equiv};
ghost use Rattle.change_ops.specs.declared.id.OpId.{OpId};
ghost use Rattle.change_ops.specs.declared.keys.TheConstants.{KEYS};
ghost use Rattle.change_ops.specs.declared.operation.Op.{Op};
ghost use Rattle.char_sequence.specs.Order.{SameSet};
ghost use Rattle.mark_anchors.specs.Format.{IsFormat};
ghost use Rattle.mark_anchors.specs.Formatting.{color_in, has, link_in, plain, value_in};
ghost use Rattle.mark_anchors.specs.Formatting.{formatting_eq, formatting_eq_equiv};
ghost use Rattle.mark_anchors.specs.Values.{lent};

use crate::comment_list::{CommentList, CommentNumbers};
use crate::value_ref::ValueRef;
use crate::values::Values;
use change_ops::attribute::{Color, Link};
use change_ops::keys::{KEYS, KeyRow};
use std::alloc::{AllocError, Global};
use std::marker::Model;

/// How a character is formatted: what holds of each key (Peritext, CSCW 2022).
pub struct Format {
    pub(crate) values: Values,
    pub(crate) comments: CommentList,
}

/// Each run of a version has one.
const _: () = prove!(size_of::<Format>() == 64);

impl Drop for Format {
    fn drop(self) {
        let Format {
            values: _,
            comments: _,
        } = self;
    }
}

impl Model for Format {
    ghost use Rattle.mark_anchors.specs.Formatting.{Format as FormatValue};

    ghost Value = { FormatValue };

    ghost view = { λ f. record { values = f.values; comments = f.comments } };
}

impl Clone for Format {
    ghost is_clone = { λ old new. new ≡ old };

    fn clone(&self) -> Result<Format, AllocError> {
        Ok(Format {
            values: self.values.clone()?,
            comments: self.comments.clone()?,
        })
    }
}

impl PartialEq for Format {
    ghost eq = { formatting_eq };

    ghost laws = { partial_equiv_from_equiv formatting_eq_equiv };

    fn eq(&self, other: &Format) -> bool
        ensures eq { result ≡ formatting_eq self.now other.now }
        ensures same { IsTrue result ↔ (self.now ≡ other.now) }
    {
        self.values == other.values && self.comments.is_same(&other.comments)
    }
}

impl Eq for Format {
    ghost laws = { formatting_eq_equiv };
}

impl Format {
    /// The format of a character that no mark covers.
    pub fn plain(alloc: Global) -> Format
        ensures { result ≡ plain }
    {
        Format {
            values: Values::none(),
            comments: CommentList::none(),
        }
    }

    /// Whether no key holds.
    pub fn is_plain(&self) -> bool
        ensures { IsTrue result ↔ (self.now ≡ plain) }
    {
        self.values.is_none() && self.comments.count() == 0
    }

    /// The value of a key, where it holds.
    pub fn value(&self, row: KeyRow) -> Option<ValueRef<'_>>
        ensures { option_map lent result ≡ value_in self.now row }
    {
        self.values.value(row)
    }

    /// Whether the key of a row holds.
    pub fn has(&self, row: usize) -> bool
        ensures { result ≡ has self.now row }
    {
        self.values.has(row)
    }

    /// The link that the character is part of.
    pub fn link(&self) -> Option<&Link>
        ensures { option_copied result ≡ link_in self.now }
    {
        self.values.link()
    }

    /// The character's color.
    pub fn color(&self) -> Option<Color>
        ensures { result ≡ color_in self.now }
    {
        self.values.color()
    }

    /// How many comments are on the character.
    pub fn comment_count(&self) -> u32
        ensures { result ≡ length self.now.comments }
    {
        self.comments.count()
    }

    /// The numbers of the comments on the character, rising.
    pub fn comments(&self) -> CommentNumbers<'_>
        ensures value { result ≡ self.now.comments }
        ensures rising { IsStrictlyIncreasing result }
    {
        self.comments.numbers()
    }
}

/// Replicas that hold one set of operations format a character alike.
pub fn same_set_same_format(first: &Format, second: &Format)
    ensures { (ops others : List Op) (e : OpId) → SameSet ops others → IsFormat ops e first.now
        → IsFormat others e second.now → first.now ≡ second.now }
{}
