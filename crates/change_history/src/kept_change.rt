//! An accepted change, kept as its text.
ghost use Rattle.std.specs.Prelude.{◌≡◌, IfOk};
ghost use Rattle.change_ops.specs.Changes.{Change, IsChange};
ghost use Rattle.change_ops.specs.Spelling.{change_text};

use change_log::text::ChangeText;
use change_ops::change::Change;
use change_ops::writing::write_change;
use std::alloc::{AllocError, Global};
use std::marker::Model;

/// A change, of which only the text is kept: it takes far less room than the lines, and no other change has it.
pub(crate) struct KeptChange {
    text: ChangeText,
}

// By hand, so that a proof of a function that lets several go sees one call there.
impl Drop for KeptChange {
    fn drop(self) {
        let KeptChange { text: _ } = self;
    }
}

impl Model for KeptChange {
    ghost use Rattle.change_ops.specs.Changes.{Change};
    ghost use Rattle.change_history.specs.Texts.{change_of};

    ghost Value = { Change };

    ghost view = { λ kept. change_of kept.text };
}

impl KeptChange {
    /// The change that a text is the one spelling of, kept as that text.
    pub(crate) fn of(text: ChangeText) -> KeptChange
        ensures { (change : Change) → IsChange change → text ≡ change_text change → result ≡ change }
    {
        KeptChange { text }
    }
}

/// The one spelling of a change.
pub(crate) fn text_of(alloc: Global, change: &Change) -> Result<ChangeText, AllocError>
    ensures { IfOk result (λ text. text ≡ change_text change.now) }
{
    let mut text = String::new(alloc);
    write_change(change, &mut text)?;
    ChangeText::of(text)
}
