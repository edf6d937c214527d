//! Changes and their texts.
ghost use Rattle.std.specs.Prelude.{◌≡◌, ◌<◌, IfOk, OnOk, MatchResult, vec_len, vec_capacity};
ghost use Rattle.change_ops.specs.Changes.{Change};
ghost use Rattle.stored_history.specs.Texts.{IsTextOf, IsOnlyTextOf, IsNoText};

use crate::error::OpenError;
use change_log::text::ChangeText;
use change_ops::change::{Change, read_change};
use change_ops::refusal::ChangeError;
use change_ops::writing::write_change;
use std::alloc::{AllocError, Global};

/// The text of a change, and a copy of the change.
#[derive(Drop)]
pub(crate) struct Written {
    pub(crate) text: ChangeText,
    pub(crate) change: Change,
}

/// The text of a change.
fn text_of(alloc: Global, change: &Change) -> Result<ChangeText, AllocError>
    ensures { IfOk result (λ text. IsTextOf text change.now) }
{
    // For its contract: the change is within the limits, as what its text is read as has to be.
    let _node = change.node();
    let mut text = String::new(alloc);
    write_change(change, &mut text)?;
    ChangeText::of(text)
}

/// A copy of the change that a text is of.
pub(crate) fn copy_of(alloc: Global, text: &str) -> Result<Change, AllocError>
    ensures { (change : Change) → IsTextOf text.now change → IfOk result (λ copy. copy ≡ change) }
{
    match read_change(alloc, text) {
        Ok((copy, _)) => Ok(copy),
        Err(_) => Err(AllocError),
    }
}

/// The text of a change, which it is read from again.
fn write_again(alloc: Global, change: &Change) -> Result<Written, AllocError>
    ensures { IfOk result (λ written. IsTextOf written.text change.now × (written.change ≡ change.now)) }
{
    let text = text_of(alloc, change)?;
    let copy = copy_of(alloc, text.as_str())?;
    Ok(Written { text, change: copy })
}

/// The same, once there is room for the text behind these.
pub(crate) fn write_next(
    alloc: Global,
    texts: &mut Vec<ChangeText>,
    change: &Change,
) -> Result<Written, AllocError>
    ensures written { IfOk result (λ written. IsTextOf written.text change.now × (written.change ≡ change.now)) }
    ensures room { OnOk result (vec_len texts.new < vec_capacity texts.new) }
    ensures same { texts.new.items ≡ texts.old.items }
{
    texts.reserve(1)?;
    write_again(alloc, change)
}

/// The change that a text is of. The text's number is for the error.
pub(crate) fn change_of(alloc: Global, number: usize, text: &str) -> Result<Change, OpenError>
    ensures { MatchResult result (IsOnlyTextOf text.now) (IsNoText text.now number) }
{
    match read_change(alloc, text) {
        Ok((change, rest)) => {
            if rest.is_empty() {
                Ok(change)
            } else {
                Err(OpenError::Damaged(number))
            }
        }
        Err(ChangeError::OutOfMemory) => Err(OpenError::OutOfMemory),
        Err(_) => Err(OpenError::Damaged(number)),
    }
}
