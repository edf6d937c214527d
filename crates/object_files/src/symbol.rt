//! The symbol table.
ghost use Rattle.std.specs.Prelude.{◌≡◌, ◌↔◌, ◌+◌, ◌≤◌, ◌<◌, IsTrue, MatchResult, IfOk, length};
ghost use Rattle.object_files.specs.Sections.{section_at, count};
ghost use Rattle.object_files.specs.Strings.{HasNames};
ghost use Rattle.object_files.specs.Object.{IsFirstFault};

use crate::fault::ObjectFault;
use crate::number::{u16_at, u32_at, u64_at};
use crate::section::{Section, count_of, section_of};
use crate::string::is_string_table;

const SYMBOL_TABLE: u32 = 2;

/// How many bytes a symbol has.
const ENTRY_BYTES: usize = 24;

/// The section of symbols that the object doesn't have.
const UNDEFINED: u16 = 0;

/// The section of symbols that are numbers.
const ABSOLUTE: u16 = 0xfff1;

/// The section of symbols whose place a linker chooses.
const COMMON: u16 = 0xfff2;

/// Where a symbol stands.
#[derive(Clone, Copy)]
pub enum SymbolPlace {
    /// In another object.
    Undefined,
    /// Nowhere: its value is a number.
    Absolute,
    /// Where a linker puts it.
    Common,
    /// In this section.
    InSection(usize),
}

/// An entry of the symbol table.
#[derive(Clone, Copy)]
pub struct Symbol {
    /// Where its name begins in the names of symbols.
    pub name: u32,
    /// What it names: 2 a function, 3 a section.
    pub kind: u8,
    /// Who sees it: 0 this object alone, 1 every object, 2 every object that has no other.
    pub binding: u8,
    /// The section, or one of the numbers of `SymbolPlace`.
    pub section: u16,
    /// Where it begins in its section.
    pub value: u64,
    /// How many bytes it has.
    pub size: u64,
}

ghost use Rattle.object_files.specs.Symbols.{last_symbol_table, symbol_table, symbol_names, symbol_count};
ghost use Rattle.object_files.specs.Symbols.{symbol_entry_at, symbol_at, place_of, HasSymbolTable, HasSymbolEntries};
ghost use Rattle.object_files.specs.Symbols.{HasSymbolNames, IsSymbolNamed, HasSection, HasSymbols};

impl Symbol {
    /// Where it stands.
    pub fn place(&self) -> SymbolPlace
        ensures { result ≡ place_of self.now.section }
    {
        match self.section {
            UNDEFINED => SymbolPlace::Undefined,
            ABSOLUTE => SymbolPlace::Absolute,
            COMMON => SymbolPlace::Common,
            section => SymbolPlace::InSection(section as usize),
        }
    }
}

/// The symbol table, which is the only one.
#[tactic(auto, unfolding(crate::specs::Symbols::last_symbol_table, crate::specs::Symbols::symbol_table))]
pub(crate) fn check_symbol_table(bytes: &[u8]) -> Result<usize, ObjectFault>
    requires { HasNames bytes.now }
    ensures table { MatchResult result (λ _. HasSymbolTable bytes.now) (IsFirstFault bytes.now) }
    ensures value { IfOk result (λ table. table ≡ symbol_table bytes.now) }
{
    let mut found = None;
    for index in 0..count_of(bytes) {
        if section_of(bytes, index).kind == SYMBOL_TABLE {
            if found.is_some() {
                return Err(ObjectFault::SecondSymbolTable { section: index });
            }
            found = Some(index);
        }
    }
    found.ok_or(ObjectFault::NoSymbolTable)
}

#[tactic(auto, unfolding(crate::specs::Symbols::symbol_entry_at))]
fn symbol_entry(bytes: &[u8], offset: usize) -> Symbol
    requires { offset + 24 ≤ length bytes.now }
    ensures { result ≡ symbol_entry_at offset bytes.now }
{
    Symbol {
        name: u32_at(bytes, offset),
        kind: bytes[offset + 4] % 16,
        binding: bytes[offset + 4] / 16,
        section: u16_at(bytes, offset + 6),
        value: u64_at(bytes, offset + 8),
        size: u64_at(bytes, offset + 16),
    }
}

/// How many symbols there are.
#[tactic(auto, unfolding(crate::specs::Symbols::symbol_count))]
pub(crate) fn symbol_count_of(bytes: &[u8], table: usize) -> usize
    requires symbols { HasSymbolTable bytes.now }
    requires table { table ≡ symbol_table bytes.now }
    ensures { result ≡ symbol_count bytes.now }
{
    section_of(bytes, table).size as usize / ENTRY_BYTES
}

/// Which section has the names of symbols.
#[tactic(auto, unfolding(crate::specs::Symbols::symbol_names))]
pub(crate) fn symbol_names_of(bytes: &[u8], table: usize) -> usize
    requires symbols { HasSymbolTable bytes.now }
    requires table { table ≡ symbol_table bytes.now }
    ensures { result ≡ symbol_names bytes.now }
{
    section_of(bytes, table).link as usize
}

/// The symbol of an index.
#[tactic(auto, unfolding(crate::specs::Symbols::symbol_count, crate::specs::Symbols::symbol_at))]
pub(crate) fn symbol_of(bytes: &[u8], table: usize, index: usize) -> Symbol
    requires symbols { HasSymbolTable bytes.now }
    requires table { table ≡ symbol_table bytes.now }
    requires below { index < symbol_count bytes.now }
    ensures { result ≡ symbol_at bytes.now index }
{
    symbol_entry(
        bytes,
        section_of(bytes, table).offset as usize + ENTRY_BYTES * index,
    )
}

fn has_symbol_entries(bytes: &[u8], table: usize) -> bool
    requires symbols { HasSymbolTable bytes.now }
    requires table { table ≡ symbol_table bytes.now }
    ensures { IsTrue result ↔ HasSymbolEntries bytes.now }
{
    let section = section_of(bytes, table);
    section.entry_size == ENTRY_BYTES as u64 && section.size % ENTRY_BYTES as u64 == 0
}

fn has_section(bytes: &[u8], symbol: &Symbol) -> bool
    requires { 64 ≤ length bytes.now }
    ensures { IsTrue result ↔ HasSection bytes.now symbol.now }
{
    (symbol.section as usize) < count_of(bytes)
        || symbol.section == ABSOLUTE
        || symbol.section == COMMON
}

/// Looks at each symbol of the table.
pub(crate) fn check_symbols(bytes: &[u8], table: usize) -> Result<(), ObjectFault>
    requires symbols { HasSymbolTable bytes.now }
    requires table { table ≡ symbol_table bytes.now }
    ensures { MatchResult result (λ _. HasSymbols bytes.now) (IsFirstFault bytes.now) }
{
    if !has_symbol_entries(bytes, table) {
        return Err(ObjectFault::SymbolEntrySize);
    }
    let names = symbol_names_of(bytes, table);
    if !is_string_table(bytes, names) {
        return Err(ObjectFault::SymbolNameTable);
    }
    let size = section_of(bytes, names).size;
    for index in 0..symbol_count_of(bytes, table) {
        let symbol = symbol_of(bytes, table, index);
        if symbol.name as u64 >= size {
            return Err(ObjectFault::SymbolName { symbol: index });
        }
        if !has_section(bytes, &symbol) {
            return Err(ObjectFault::SymbolSection { symbol: index });
        }
    }
    Ok(())
}
