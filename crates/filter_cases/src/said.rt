//! What stands behind a case's text.
ghost use Rattle.std.specs.Prelude.{◌≡◌, IfOk, MatchOption};
ghost use Rattle.filter_cases.specs.declared.marks.Marks.{Marks as TheMarks};
ghost use Rattle.filter_cases.specs.declared.wanted.Wanted.{Wanted as TheWanted};
ghost use Rattle.filter_cases.specs.Marks.{plain};
ghost use Rattle.filter_cases.specs.Said.{Says};

use crate::lines::split;
use crate::mark_words::with_word;
use crate::marks::Marks;
use crate::wanted::Wanted;
use std::alloc::{AllocError, Global};

/// What stands between what is said of the span and what is wanted.
const ARROW: &[u8] = b"->";

/// What a line says from here on of the span, and what is wanted; None where it goes on in another way.
pub fn said(alloc: Global, text: &[u8]) -> Result<Option<(Marks, Wanted)>, AllocError>
    ensures { IfOk result (λ told. MatchOption told
        ((marks : TheMarks) (wanted : TheWanted) → ¬ Says plain text.now marks wanted)
        (λ told. Says plain text.now told.0 told.1)) }
{
    let mut marks = Marks::plain();
    let mut rest = text;
    loop {
        let Some((word, behind)) = split(b' ', rest) else {
            return Ok(None);
        };
        if word == ARROW {
            return match Wanted::of_word(behind) {
                Some(wanted) => Ok(Some((marks, wanted))),
                None => Ok(None),
            };
        }
        let Some(next) = with_word(alloc, marks, word)? else {
            return Ok(None);
        };
        marks = next;
        rest = behind;
    }
}
