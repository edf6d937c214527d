//! The section table, and the bytes of sections.
ghost use Rattle.std.specs.Prelude.{◌≡◌, ◌↔◌, ℕ, ◌+◌, ◌*◌, ◌≤◌, ◌<◌, IsTrue, MatchResult, length};
ghost use Rattle.object_files.specs.Header.{number_at, IsBpf};
ghost use Rattle.object_files.specs.Object.{IsFirstFault};

use crate::fault::ObjectFault;
use crate::header::HEADER_BYTES;
use crate::number::{u16_at, u32_at, u64_at};

/// How many bytes a row of the section table has.
const ROW_BYTES: usize = 64;

/// The first index of a section that is reserved.
const RESERVED: usize = 0xff00;

const NO_SECTION: u32 = 0;

const ZEROES: u32 = 8;

/// A row of the section table.
#[derive(Clone, Copy)]
pub struct Section {
    /// Where its name begins in the names of sections.
    pub name: u32,
    /// What it is: 0 none, 1 bytes of the program, 2 symbols, 3 strings, 4 and 9 relocations, 8 zeroes.
    pub kind: u32,
    /// Who uses it: the bits are 1 for written, 2 for what a running program has, 4 for instructions.
    pub flags: u64,
    /// Where its bytes begin in the file.
    pub offset: u64,
    /// How many bytes it has.
    pub size: u64,
    /// Another section, by its index: of symbols their names, of relocations the symbols.
    pub link: u32,
    /// Of relocations, the section that they apply to.
    pub info: u32,
    /// What its address is to be a multiple of.
    pub alignment: u64,
    /// How many bytes each of its entries has, in a table.
    pub entry_size: u64,
}

ghost use Rattle.object_files.specs.Sections.{table, count, name_table, row_at, section_at, is_empty, IsEmpty};
ghost use Rattle.object_files.specs.Sections.{HasEntries, IsCounted, IsPlaced, IsTable, IsWithin, IsApart, file_size};
ghost use Rattle.object_files.specs.Sections.{total_size, HasBytes, HasOwnBytes, HasSections, contents};

/// How many sections there are.
#[tactic(auto, unfolding(crate::specs::Sections::count))]
pub(crate) fn count_of(bytes: &[u8]) -> usize
    requires { 64 ≤ length bytes.now }
    ensures value { result ≡ count bytes.now }
    ensures small { result < 65536 }
{
    u16_at(bytes, 60) as usize
}

/// Which section has the names of sections.
#[tactic(auto, unfolding(crate::specs::Sections::name_table))]
pub(crate) fn name_table_of(bytes: &[u8]) -> usize
    requires { 64 ≤ length bytes.now }
    ensures value { result ≡ name_table bytes.now }
    ensures small { result < 65536 }
{
    u16_at(bytes, 62) as usize
}

/// Where the section table begins.
#[tactic(auto, unfolding(crate::specs::Sections::table))]
fn table_of(bytes: &[u8]) -> u64
    requires { 64 ≤ length bytes.now }
    ensures { result ≡ table bytes.now }
{
    u64_at(bytes, 40)
}

#[tactic(auto, unfolding(crate::specs::Sections::row_at))]
fn row_of(bytes: &[u8], offset: usize) -> Section
    requires { offset + 64 ≤ length bytes.now }
    ensures { result ≡ row_at offset bytes.now }
{
    Section {
        name: u32_at(bytes, offset),
        kind: u32_at(bytes, offset + 4),
        flags: u64_at(bytes, offset + 8),
        offset: u64_at(bytes, offset + 24),
        size: u64_at(bytes, offset + 32),
        link: u32_at(bytes, offset + 40),
        info: u32_at(bytes, offset + 44),
        alignment: u64_at(bytes, offset + 48),
        entry_size: u64_at(bytes, offset + 56),
    }
}

/// The section of an index.
#[tactic(auto, unfolding(crate::specs::Sections::section_at))]
pub(crate) fn section_of(bytes: &[u8], index: usize) -> Section
    requires placed { IsPlaced bytes.now }
    requires below { index < count bytes.now }
    ensures { result ≡ section_at bytes.now index }
{
    row_of(bytes, table_of(bytes) as usize + ROW_BYTES * index)
}

fn is_counted(bytes: &[u8]) -> bool
    requires { HasEntries bytes.now }
    ensures { IsTrue result ↔ IsCounted bytes.now }
{
    let count = count_of(bytes);
    0 < count && count < RESERVED
}

fn is_placed(bytes: &[u8]) -> bool
    requires { IsCounted bytes.now }
    ensures { IsTrue result ↔ IsPlaced bytes.now }
{
    let rows = ROW_BYTES * count_of(bytes);
    let start = table_of(bytes);
    start >= HEADER_BYTES as u64 && rows <= bytes.len() && start <= (bytes.len() - rows) as u64
}

/// Looks at what the header says of the section table, and at section 0.
pub(crate) fn check_table(bytes: &[u8]) -> Result<(), ObjectFault>
    requires { IsBpf bytes.now }
    ensures { MatchResult result (λ _. IsTable bytes.now) (IsFirstFault bytes.now) }
{
    if u16_at(bytes, 58) as usize != ROW_BYTES {
        return Err(ObjectFault::SectionEntrySize);
    }
    if !is_counted(bytes) {
        return Err(ObjectFault::SectionCount);
    }
    if !is_placed(bytes) {
        return Err(ObjectFault::SectionTable);
    }
    if section_of(bytes, 0).kind != NO_SECTION {
        return Err(ObjectFault::FirstSection);
    }
    Ok(())
}

fn is_empty(section: &Section) -> bool
    ensures value { result ≡ is_empty section.now }
    ensures fact { IsTrue result ↔ IsEmpty section.now }
{
    section.kind == NO_SECTION || section.kind == ZEROES
}

fn is_within(bytes: &[u8], section: &Section) -> bool
    ensures { IsTrue result ↔ IsWithin bytes.now section.now }
{
    is_empty(section)
        || match section.offset.checked_add(section.size) {
            Some(end) => end <= bytes.len() as u64,
            None => false,
        }
}

/// Looks whether the bytes of each section are in the file.
fn check_within(bytes: &[u8]) -> Result<(), ObjectFault>
    requires { IsTable bytes.now }
    ensures { MatchResult result (λ _. HasBytes bytes.now) (IsFirstFault bytes.now) }
{
    for index in 0..count_of(bytes) {
        if !is_within(bytes, &section_of(bytes, index)) {
            return Err(ObjectFault::SectionOutside { section: index });
        }
    }
    Ok(())
}

fn is_apart(bytes: &[u8], section: &Section) -> bool
    requires placed { IsPlaced bytes.now }
    requires within { IsWithin bytes.now section.now }
    ensures { IsTrue result ↔ IsApart bytes.now section.now }
{
    let start = table_of(bytes);
    let end = start + (ROW_BYTES * count_of(bytes)) as u64;
    is_empty(section)
        || section.size == 0
        || (section.offset >= HEADER_BYTES as u64
            && (section.offset + section.size <= start || end <= section.offset))
}

/// Looks whether each section has bytes of its own, apart from the header's and the section table's.
fn check_apart(bytes: &[u8]) -> Result<(), ObjectFault>
    requires { HasBytes bytes.now }
    ensures { MatchResult result (λ _. HasOwnBytes bytes.now) (IsFirstFault bytes.now) }
{
    for index in 0..count_of(bytes) {
        if !is_apart(bytes, &section_of(bytes, index)) {
            return Err(ObjectFault::SectionOverTable { section: index });
        }
    }
    Ok(())
}

fn file_size(section: &Section) -> u64
    ensures { result ≡ file_size section.now }
{
    if is_empty(section) { 0 } else { section.size }
}

/// Looks whether the sections have no more bytes than the file.
#[tactic(auto, unfolding(crate::specs::Sections::total_size))]
fn check_total(bytes: &[u8]) -> Result<(), ObjectFault>
    requires { HasOwnBytes bytes.now }
    ensures { MatchResult result (λ _. HasSections bytes.now) (IsFirstFault bytes.now) }
{
    let mut room = bytes.len() as u64;
    for index in 0..count_of(bytes) {
        let size = file_size(&section_of(bytes, index));
        if room < size {
            return Err(ObjectFault::SectionsOverlap { section: index });
        }
        room -= size;
    }
    Ok(())
}

/// Looks at the sections of a table.
pub(crate) fn check_sections(bytes: &[u8]) -> Result<(), ObjectFault>
    requires { IsTable bytes.now }
    ensures { MatchResult result (λ _. HasSections bytes.now) (IsFirstFault bytes.now) }
{
    check_within(bytes)?;
    check_apart(bytes)?;
    check_total(bytes)
}

/// The bytes of a section.
pub(crate) fn contents_of(bytes: &[u8], index: usize) -> &[u8]
    requires sections { HasSections bytes.now }
    requires below { index < count bytes.now }
    ensures { result.now ≡ contents bytes.now (section_at bytes.now index) }
{
    let section = section_of(bytes, index);
    if is_empty(&section) {
        &[]
    } else {
        &bytes[section.offset as usize..section.offset as usize + section.size as usize]
    }
}
