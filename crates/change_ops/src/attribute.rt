ghost use Rattle.std.specs.Prelude.{◌≡◌, ◌≤◌, ℕ, IsTrue, IfOk, OnOk, Ok, Some, IsSome, IfSome, ◌↔◌};
ghost use Rattle.std.specs.Arc.{arc_str_bytes};
ghost use Rattle.std.specs.Option.{option_map};
ghost use Rattle.std.specs.Prelude.{nat_eq};
ghost use Rattle.std.specs.List.{list_all};
ghost use Rattle.std.specs.Cmp.{partial_equiv_from_equiv};
ghost use Rattle.std.specs.Cmp.Lexicographic.{pointwise, nat_list_eq_equiv};
ghost use Rattle.change_ops.specs.Ids.{checked};
ghost use Rattle.change_ops.specs.Attributes.{is_color, is_comment_number, is_link, is_link_byte};

use crate::keys::KeyRow;
use crate::row_value::RowValue;
use std::alloc::{AllocError, Global};
use std::marker::Model;
use std::sync::ArcStr;

/// The target of a link: 1 to 1,024 bytes of 0x21 to 0x7e, which its clones share.
pub struct Link {
    target: ArcStr<Global>,
}

impl Drop for Link {
    fn drop(self) {
        let Link { target: _ } = self;
    }
}

impl Model for Link {
    ghost use Rattle.std.specs.Prelude.{ℕ, List, IsTrue};
    ghost use Rattle.std.specs.Arc.{arc_str_bytes};
    ghost use Rattle.change_ops.specs.Attributes.{is_link};

    ghost Value = { List ℕ };

    ghost view = { λ l. arc_str_bytes l.target };

    ghost invariant = { λ l. IsTrue (is_link (arc_str_bytes l.target)) };
}

fn is_target_byte(byte: u8) -> bool
    ensures { result ≡ is_link_byte byte }
{
    byte >= 0x21 && byte <= 0x7e
}

/// Whether each byte may stand in a link.
pub(crate) fn are_target_bytes(bytes: &[u8]) -> bool
    ensures { result ≡ list_all is_link_byte bytes.now }
{
    bytes.iter().all(|byte| is_target_byte(*byte))
}

fn is_target(bytes: &[u8]) -> bool
    ensures { result ≡ is_link bytes.now }
{
    if bytes.is_empty() || bytes.len() > 1024 {
        return false;
    }
    are_target_bytes(bytes)
}

impl Clone for Link {
    ghost is_clone = { λ old new. new ≡ old };

    fn clone(&self) -> Result<Link, AllocError> {
        let target = self.target.clone()?;
        Ok(Link { target })
    }
}

impl PartialEq for Link {
    ghost eq = { pointwise nat_eq };

    ghost laws = { partial_equiv_from_equiv nat_list_eq_equiv };

    fn eq(&self, other: &Link) -> bool {
        self.target == other.target
    }
}

impl Eq for Link {
    ghost laws = { nat_list_eq_equiv };
}

impl Link {
    /// The link with this target, if it is one; the error is want of memory.
    pub fn new(alloc: Global, target: &str) -> Result<Option<Link>, AllocError>
        ensures { IfOk result (λ link. link ≡ checked is_link target.now) }
    {
        if !is_target(target.as_bytes()) {
            return Ok(None);
        }
        let target = ArcStr::from_str(alloc, target)?;
        Ok(Some(Link { target }))
    }

    /// The target's text.
    pub fn target(&self) -> &str
        ensures value { result.now ≡ self.now }
        ensures valid { IsTrue (is_link self.now) }
    {
        self.target.as_str()
    }
}

/// A color: three bytes, red, green and blue, 0 to 0xffffff.
#[derive(Clone, Copy, PartialEq, Eq)]
pub struct Color {
    rgb: u32,
}

impl Model for Color {
    ghost use Rattle.std.specs.Prelude.{ℕ, ◌≤◌};

    ghost Value = { ℕ };

    ghost view = { λ c. c.rgb };

    ghost invariant = { λ c. c.rgb ≤ 0xffffff };

    ghost inverse = { λ n. record { rgb = n } };
}

impl Color {
    /// The color of a number, if it has three bytes.
    pub fn new(rgb: u64) -> Option<Self>
        ensures { result ≡ checked is_color rgb }
    {
        if rgb <= 0xff_ffff {
            Some(Color { rgb: rgb as u32 })
        } else {
            None
        }
    }

    /// The color's number.
    pub fn rgb(self) -> u32
        ensures value { result ≡ self }
        ensures limit { result ≤ 0xffffff }
    {
        self.rgb
    }
}

/// The number of a comment, 1 to 4,294,967,295.
#[derive(Clone, Copy, PartialEq, Eq, PartialOrd, Ord)]
pub struct CommentNumber {
    number: u32,
}

impl Model for CommentNumber {
    ghost use Rattle.std.specs.Prelude.{ℕ, ◌≤◌};

    ghost Value = { ℕ };

    ghost view = { λ c. c.number };

    ghost invariant = { λ c. 1 ≤ c.number };

    ghost inverse = { λ n. record { number = n } };
}

impl Default for CommentNumber {
    ghost is_default = { λ c. c ≡ 1 };

    /// The least number, which fills unused slots of a short list.
    fn default() -> Self {
        CommentNumber { number: 1 }
    }
}

impl CommentNumber {
    /// The comment of a number, if it is within the limits.
    pub fn new(number: u64) -> Option<Self>
        ensures { result ≡ checked is_comment_number number }
    {
        if number >= 1 && number <= 0xffff_ffff {
            Some(CommentNumber {
                number: number as u32,
            })
        } else {
            None
        }
    }

    /// The comment's number.
    pub fn number(self) -> u32
        ensures value { result ≡ self }
        ensures limit { 1 ≤ result }
    {
        self.number
    }
}

/// What a mark says something about: marks of different keys stand together.
#[derive(Clone, Copy, PartialEq, Eq)]
pub enum Key {
    /// A key of one value.
    Row(KeyRow),
    Comment(CommentNumber),
}

/// A key with its value, as a mark adds it.
#[derive(Clone)]
pub enum Attribute {
    Row(RowValue),
    Comment(CommentNumber),
}

impl Drop for Attribute {
    fn drop(self) {
        match self {
            Attribute::Row(_) => {}
            Attribute::Comment(_) => {}
        }
    }
}

impl Attribute {
    ghost use Rattle.change_ops.specs.Operations.{key_of};

    /// The attribute's key.
    pub fn key(&self) -> Key
        ensures { result ≡ key_of self.now }
    {
        match self {
            Attribute::Row(valued) => Key::Row(valued.row()),
            Attribute::Comment(number) => Key::Comment(*number),
        }
    }
}
