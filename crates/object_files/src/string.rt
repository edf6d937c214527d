//! String tables: names, each of which ends with a 0.
ghost use Rattle.std.specs.Prelude.{◌≡◌, ◌==◌, ◌↔◌, ◌+◌, ◌-◌, ◌≤◌, ◌<◌};
ghost use Rattle.std.specs.Prelude.{IsTrue, IfSome, MatchResult, length, slice_index, position};
ghost use Rattle.object_files.specs.Sections.{section_at, count, name_table, HasSections};
ghost use Rattle.object_files.specs.Strings.{IsStringTable, HasNameTable, HasName, HasNames, name_in};
ghost use Rattle.object_files.specs.Object.{IsFirstFault};

use crate::fault::ObjectFault;
use crate::section::{count_of, name_table_of, section_of};

const STRING_TABLE: u32 = 3;

/// Whether the section of an index is a string table.
pub(crate) fn is_string_table(bytes: &[u8], index: usize) -> bool
    requires { HasSections bytes.now }
    ensures { IsTrue result ↔ IsStringTable bytes.now index }
{
    if index >= count_of(bytes) {
        return false;
    }
    let section = section_of(bytes, index);
    section.kind == STRING_TABLE
        && section.size > 0
        && bytes[section.offset as usize + section.size as usize - 1] == 0
}

/// Looks at the name of each section.
pub(crate) fn check_names(bytes: &[u8]) -> Result<(), ObjectFault>
    requires { HasSections bytes.now }
    ensures { MatchResult result (λ _. HasNames bytes.now) (IsFirstFault bytes.now) }
{
    let names = name_table_of(bytes);
    if !is_string_table(bytes, names) {
        return Err(ObjectFault::NameTable);
    }
    let size = section_of(bytes, names).size;
    for index in 0..count_of(bytes) {
        if section_of(bytes, index).name as u64 >= size {
            return Err(ObjectFault::SectionName { section: index });
        }
    }
    Ok(())
}

/// Where the first 0 is.
fn zero_in(strings: &[u8]) -> Option<usize>
    ensures index { result ≡ position (λ byte. byte == 0) strings.now }
    ensures bound { IfSome result (λ at. at < length strings.now) }
{
    strings.iter().position(|byte| *byte == 0)
}

/// The name that begins at an offset of a string table.
pub(crate) fn name_at(strings: &[u8], offset: usize) -> &[u8]
    requires within { offset < length strings.now }
    requires last { slice_index strings.now (length strings.now - 1) ≡ 0 }
    ensures name { result.now ≡ name_in strings.now offset }
    ensures ends { slice_index strings.now (offset + length result.now) ≡ 0 }
{
    let rest = &strings[offset..];
    match zero_in(rest) {
        Some(end) => &rest[..end],
        None => rest,
    }
}
