//! The text of a case, between quotation marks.
ghost use Rattle.std.specs.Prelude.{◌≡◌, ℕ, List, IfOk, MatchOption};
ghost use Rattle.filter_cases.specs.Escapes.{Quoted};

use crate::escapes::escape;
use std::alloc::{AllocError, Global};

/// The text behind a quotation mark up to the next one, and what stands after that. None where no text ends.
pub fn quoted(alloc: Global, input: &[u8]) -> Result<Option<(Vec<u8>, &[u8])>, AllocError>
    ensures { IfOk result (λ read. MatchOption read ((text rest : List ℕ) → ¬ Quoted text rest input.now)
        (λ found. Quoted found.0.items found.1.now input.now)) }
{
    let mut text = Vec::new(alloc);
    let mut rest = input;
    loop {
        let Some((first, behind)) = rest.split_first() else {
            return Ok(None);
        };
        if *first == b'"' {
            return Ok(Some((text, behind)));
        }
        if *first == b'\\' {
            let Some((byte, after)) = escape(behind) else {
                return Ok(None);
            };
            text.push(byte)?;
            rest = after;
        } else {
            text.push(*first)?;
            rest = behind;
        }
    }
}
