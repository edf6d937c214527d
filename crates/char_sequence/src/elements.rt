ghost use Rattle.std.specs.Prelude.{◌≡◌, IfSome, Some, length};
ghost use Rattle.std.specs.Iterator.{UpTo, YieldsFirst, item_count};
ghost use Rattle.std.specs.Iterator.SizeHint.{IsWithinCount};

use crate::chunk::Chunk;
use crate::sequence::Element;
use std::marker::Model;

/// The characters that are left, seen as their list.
#[derive(Drop)]
pub struct Elements<'a> {
    pub(crate) items: &'a [Element],
    pub(crate) chunks: &'a [Chunk],
    pub(crate) count: usize,
}

impl<'a> Model for Elements<'a> {
    ghost use Rattle.std.specs.Prelude.{◌≡◌, ◌++◌, List, length};
    ghost use Rattle.char_sequence.specs.declared.sequence.Element.{Element};
    ghost use Rattle.char_sequence.specs.Chunks.{joined};

    ghost Value = { List Element };

    ghost view = { λ e. e.items.now ++ joined e.chunks.now };

    ghost invariant = { λ e. e.count ≡ length (e.items.now ++ joined e.chunks.now) };
}

impl<'a> Iterator for Elements<'a> {
    type Item = Element;

    ghost next_gives = { YieldsFirst (λ rest. rest) };

    ghost remaining = { item_count (λ rest. rest) };

    fn next(&mut self) -> Option<Element> {
        if self.items.is_empty() {
            let (chunk, chunks) = self.chunks.split_first()?;
            self.items = chunk.as_slice();
            self.chunks = chunks;
        }
        let (first, rest) = self.items.split_first().unwrap();
        let element = *first;
        self.items = rest;
        self.count -= 1;
        Some(element)
    }

    fn size_hint(&self) -> (usize, Option<usize>)
        ensures exact { result ≡ (length self.now, Some (length self.now)) }
        ensures lower { IsWithinCount result.0 (item_count (λ rest. rest) self.now) }
        ensures upper { IfSome result.1 (UpTo (item_count (λ rest. rest) self.now)) }
    {
        (self.count, Some(self.count))
    }
}
