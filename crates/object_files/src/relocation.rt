//! The tables of relocations.
ghost use Rattle.std.specs.Prelude.{◌≡◌, ◌↔◌, ◌+◌, ◌≤◌, ◌<◌, IsTrue, MatchResult};
ghost use Rattle.std.specs.Prelude.{OnOk, IfErr, IfSome, IfOk, length, replicate, true};
ghost use Rattle.object_files.specs.Sections.{section_at, count, IsPlaced};
ghost use Rattle.object_files.specs.Symbols.{symbol_table, symbol_count, HasSymbolTable, HasSymbols};
ghost use Rattle.object_files.specs.Object.{IsFirstFault, IsReached, IsApplied, IsRefused};

use crate::fault::{ObjectError, ObjectFault};
use crate::number::{u32_at, u64_at};
use crate::section::{Section, count_of, section_of};
use crate::symbol::symbol_count_of;
use std::alloc::{AllocError, Global};

const WITH_ADDENDS: u32 = 4;

const WITHOUT_ADDENDS: u32 = 9;

/// How many bytes a relocation has.
const ENTRY_BYTES: usize = 16;

/// An entry of a table of relocations.
#[derive(Clone, Copy)]
pub struct Relocation {
    /// Where in the section the address goes.
    pub offset: u64,
    /// How it goes there.
    pub kind: u32,
    /// Whose address it is.
    pub symbol: u32,
}

ghost use Rattle.object_files.specs.Relocations.{is_relocating, is_allocated, target, relocation_entry_at};
ghost use Rattle.object_files.specs.Relocations.{relocation_count, relocation_at};
ghost use Rattle.object_files.specs.Relocations.{HasRelocations, IsRelocationTable};
ghost use Rattle.object_files.specs.Relocations.{RelocatesWell, AllRelocateWell, HasRelocationTables};
ghost use Rattle.object_files.specs.Relocations.{applied_to, last_relocation_table, ApplyOnce, IsIndex};

fn is_relocating(section: &Section) -> bool
    ensures { result ≡ is_relocating section.now }
{
    section.kind == WITH_ADDENDS || section.kind == WITHOUT_ADDENDS
}

/// Whether a running program has the section.
fn is_allocated(section: &Section) -> bool
    ensures { result ≡ is_allocated section.now }
{
    section.flags / 2 % 2 == 1
}

#[tactic(auto, unfolding(crate::specs::Relocations::relocation_entry_at))]
fn relocation_entry(bytes: &[u8], offset: usize) -> Relocation
    requires { offset + 16 ≤ length bytes.now }
    ensures { result ≡ relocation_entry_at offset bytes.now }
{
    Relocation {
        offset: u64_at(bytes, offset),
        kind: u32_at(bytes, offset + 8),
        symbol: u32_at(bytes, offset + 12),
    }
}

/// How many relocations a table has.
#[tactic(auto, unfolding(crate::specs::Relocations::relocation_count))]
pub(crate) fn relocation_count_of(bytes: &[u8], table: usize) -> usize
    requires symbols { HasSymbolTable bytes.now }
    requires below { table < count bytes.now }
    requires kind { (section_at bytes.now table).kind ≡ 9 }
    ensures { result ≡ relocation_count bytes.now table }
{
    section_of(bytes, table).size as usize / ENTRY_BYTES
}

/// The relocation of an index in a table.
#[tactic(auto, unfolding(crate::specs::Relocations::relocation_count, crate::specs::Relocations::relocation_at))]
pub(crate) fn relocation_of(bytes: &[u8], table: usize, index: usize) -> Relocation
    requires symbols { HasSymbolTable bytes.now }
    requires table { table < count bytes.now }
    requires kind { (section_at bytes.now table).kind ≡ 9 }
    requires below { index < relocation_count bytes.now table }
    ensures { result ≡ relocation_at bytes.now table index }
{
    relocation_entry(
        bytes,
        section_of(bytes, table).offset as usize + ENTRY_BYTES * index,
    )
}

fn has_relocations(bytes: &[u8], symbols: usize, table: usize) -> bool
    requires placed { IsPlaced bytes.now }
    requires symbols { symbols ≡ symbol_table bytes.now }
    requires below { table < count bytes.now }
    ensures { IsTrue result ↔ HasRelocations bytes.now table }
{
    let section = section_of(bytes, table);
    section.entry_size == ENTRY_BYTES as u64
        && section.size % ENTRY_BYTES as u64 == 0
        && section.link as usize == symbols
}

/// Looks at the relocations of a table without addends.
fn check_relocations(bytes: &[u8], symbols: usize, table: usize) -> Result<(), ObjectFault>
    requires applied { IsApplied bytes.now table }
    requires symbols { symbols ≡ symbol_table bytes.now }
    requires kind { (section_at bytes.now table).kind ≡ 9 }
    ensures { MatchResult result (λ _. IsRelocationTable bytes.now table) (IsFirstFault bytes.now) }
{
    if !has_relocations(bytes, symbols, table) {
        return Err(ObjectFault::RelocationTable { section: table });
    }
    let count = symbol_count_of(bytes, symbols);
    for index in 0..relocation_count_of(bytes, table) {
        if relocation_of(bytes, table, index).symbol as usize >= count {
            return Err(ObjectFault::RelocationSymbol {
                section: table,
                relocation: index,
            });
        }
    }
    Ok(())
}

/// Looks at a section that is a table of relocations.
fn check_relocating(bytes: &[u8], symbols: usize, table: usize) -> Result<(), ObjectFault>
    requires reached { IsReached bytes.now table }
    requires symbols { symbols ≡ symbol_table bytes.now }
    ensures { MatchResult result (λ _. RelocatesWell bytes.now table) (IsFirstFault bytes.now) }
{
    let section = section_of(bytes, table);
    if section.info as usize >= count_of(bytes) {
        return Err(ObjectFault::RelocationTarget { section: table });
    }
    if !is_allocated(&section_of(bytes, section.info as usize)) {
        return Ok(());
    }
    if section.kind == WITH_ADDENDS {
        return Err(ObjectFault::RelocationAddends { section: table });
    }
    check_relocations(bytes, symbols, table)
}

/// Looks at a section, which may be a table of relocations.
fn check_section(bytes: &[u8], symbols: usize, table: usize) -> Result<(), ObjectFault>
    requires symbols { HasSymbols bytes.now }
    requires table { symbols ≡ symbol_table bytes.now }
    requires below { table < count bytes.now }
    requires before { AllRelocateWell bytes.now table }
    ensures { MatchResult result (λ _. RelocatesWell bytes.now table) (IsFirstFault bytes.now) }
{
    if !is_relocating(&section_of(bytes, table)) {
        return Ok(());
    }
    check_relocating(bytes, symbols, table)
}

/// Looks at all tables of relocations.
pub(crate) fn check_relocation_tables(bytes: &[u8], symbols: usize) -> Result<(), ObjectFault>
    requires symbols { HasSymbols bytes.now }
    requires table { symbols ≡ symbol_table bytes.now }
    ensures { MatchResult result (λ _. HasRelocationTables bytes.now) (IsFirstFault bytes.now) }
{
    for table in 0..count_of(bytes) {
        check_section(bytes, symbols, table)?;
    }
    Ok(())
}

/// Which section a table of relocations applies to, where a running program has it.
#[tactic(auto, unfolding(crate::specs::Relocations::applied_to))]
fn applied_to(bytes: &[u8], table: usize) -> Option<usize>
    requires sound { HasRelocationTables bytes.now }
    requires below { table < count bytes.now }
    ensures value { result ≡ applied_to bytes.now table }
    ensures bound { IfSome result (λ section. section < count bytes.now) }
    ensures target { IfSome result (λ section. section ≡ (section_at bytes.now table).info) }
{
    let section = section_of(bytes, table);
    if is_relocating(&section) && is_allocated(&section_of(bytes, section.info as usize)) {
        Some(section.info as usize)
    } else {
        None
    }
}

/// Notes the table for the section that it applies to, where it is the only one.
#[tactic(auto, using(crate::proofs::Latest::noted))]
fn note_table(
    tables: &mut Vec<Option<usize>>,
    bytes: &[u8],
    table: usize,
) -> Result<(), ObjectFault>
    requires sound { HasRelocationTables bytes.now }
    requires below { table < count bytes.now }
    requires index { IsIndex bytes.now tables.old.items table }
    requires once { ApplyOnce bytes.now table }
    ensures index { OnOk result (IsIndex bytes.now tables.new.items (table + 1)) }
    ensures once { OnOk result (ApplyOnce bytes.now (table + 1)) }
    ensures second { IfErr result (IsFirstFault bytes.now) }
{
    let Some(section) = applied_to(bytes, table) else {
        return Ok(());
    };
    if tables[section].is_some() {
        return Err(ObjectFault::SecondRelocationTable { section: table });
    }
    tables[section] = Some(table);
    Ok(())
}

/// So many sections that no table applies to.
fn no_tables(alloc: Global, count: usize) -> Result<Vec<Option<usize>>, AllocError>
    ensures { IfOk result (λ tables. tables.items ≡ replicate count None) }
{
    vec![in alloc; None; count]
}

/// For each section the table of relocations that applies to it.
#[tactic(auto, using(crate::proofs::Latest::unnoted))]
pub(crate) fn relocation_tables_of(
    alloc: Global,
    bytes: &[u8],
) -> Result<Vec<Option<usize>>, ObjectError>
    requires { HasRelocationTables bytes.now }
    ensures index { MatchResult result (λ tables. IsIndex bytes.now tables.items (count bytes.now))
        (IsRefused bytes.now) }
    ensures once { IfOk result (λ _. ApplyOnce bytes.now (count bytes.now)) }
{
    let mut tables = no_tables(alloc, count_of(bytes))?;
    for table in 0..count_of(bytes) {
        note_table(&mut tables, bytes, table)?;
    }
    Ok(tables)
}
