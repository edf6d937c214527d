//! Values of keys, as a format lends them.

use change_ops::attribute::{Color, Link};
use change_ops::line_kind::LineKind;

/// What holds of a key of one value.
#[derive(Clone, Copy)]
pub enum ValueRef<'a> {
    /// The key holds, and has no value besides.
    Nothing,
    Link(&'a Link),
    Color(Color),
    LineKind(LineKind),
}
