ghost use Rattle.std.specs.Prelude.{◌≡◌, ◌<◌, ◌≤◌, IfOk, OnOk, take, drop, length, vec_len, vec_capacity};
ghost use Rattle.change_ops.specs.Spelling.{change_text};

use change_log::text::ChangeText;
use change_ops::change::Change;
use change_ops::writing::write_change;
use std::alloc::{AllocError, Global};

/// The text of a change, its one spelling.
fn text_of(alloc: Global, change: &Change) -> Result<ChangeText, AllocError>
    ensures { IfOk result (λ text. text ≡ change_text change.now) }
{
    let mut text = String::new(alloc);
    write_change(change, &mut text)?;
    ChangeText::of(text)
}

/// The text of a change, once there is room for it behind these, and the same text again, which isn't copied.
pub(crate) fn next_text(
    alloc: Global,
    texts: &mut Vec<ChangeText>,
    change: &Change,
) -> Result<(ChangeText, ChangeText), AllocError>
    ensures text { IfOk result (λ both. (both.0 ≡ change_text change.now) × (both.1 ≡ change_text change.now)) }
    ensures room { OnOk result (vec_len texts.new < vec_capacity texts.new) }
    ensures same { texts.new.items ≡ texts.old.items }
{
    texts.reserve(1)?;
    let text = text_of(alloc, change)?;
    let again = text.again()?;
    Ok((text, again))
}

/// `most` of these texts from the index `first` on, or as many as there are.
pub(crate) fn some_texts(
    alloc: Global,
    texts: &[ChangeText],
    first: usize,
    most: usize,
) -> Result<Vec<ChangeText>, AllocError>
    requires { first ≤ length texts.now }
    ensures { IfOk result (λ some. some.items ≡ take most (drop first texts.now)) }
{
    let count = most.min(texts.len() - first);
    let mut some = Vec::with_capacity(alloc, count)?;
    for text in &texts[first..first + count] {
        some.push_reserved(text.again()?);
    }
    Ok(some)
}
