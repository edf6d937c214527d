//! The tags of files, by which a client says what it has already.
ghost use Rattle.std.specs.Prelude.{◌↔◌, ◌⊎◌, ◌≡◌, ℕ, codes, IsTrue};
ghost use Rattle.memchr.specs.Find.{OccursAt};
ghost use Rattle.web_door.specs.Tags.{Names};

use memchr::memmem;

/// Whether bytes stand within others.
fn occurs(value: &[u8], tag: &[u8]) -> bool
    ensures { IsTrue result ↔ ((at : ℕ) × OccursAt value.now tag.now at) }
{
    match memmem::find(value, tag) {
        Some(_) => true,
        None => false,
    }
}

/// Whether the value of `If-None-Match` names the file of this tag, which stands in quotes.
pub fn is_known(value: &[u8], tag: &[u8]) -> bool
    ensures { IsTrue result ↔ Names value.now tag.now }
{
    value == b"*".as_slice() || occurs(value, tag)
}
