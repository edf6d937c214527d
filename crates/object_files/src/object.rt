//! An object, whose bytes are borrowed.
ghost use Rattle.std.specs.Prelude.{◌≡◌, ◌+◌, ◌<◌, ℕ, List, IfSome, MatchResult, length};
ghost use Rattle.object_files.specs.Sections.{count, name_table, section_at, contents};
ghost use Rattle.object_files.specs.Strings.{IsNameOf};
ghost use Rattle.object_files.specs.Symbols.{symbol_table, symbol_names, symbol_count, symbol_at, IsSymbol};
ghost use Rattle.object_files.specs.Relocations.{HasRelocationTables, relocation_table, relocations_in, relocation_at};
ghost use Rattle.object_files.specs.Object.{IsFirstFault, IsObject, IsRefused, IsRead};

use crate::fault::{ObjectError, ObjectFault};
use crate::header::check_header;
use crate::relocation::{
    Relocation, check_relocation_tables, relocation_count_of, relocation_of, relocation_tables_of,
};
use crate::section::{
    Section, check_sections, check_table, contents_of, count_of, name_table_of, section_of,
};
use crate::string::{check_names, name_at};
use crate::symbol::{
    Symbol, check_symbol_table, check_symbols, symbol_count_of, symbol_names_of, symbol_of,
};
use std::alloc::Global;
use std::marker::Model;

/// A relocatable object of BPF: each section's bytes lie in the file, each name ends in its string table, each symbol
/// names a section, and each relocation of a section that a running program has names a symbol.
#[derive(Drop)]
pub struct Object<'o> {
    bytes: &'o [u8],
    symbols: usize,
    tables: Vec<Option<usize>>,
}

impl<'o> Model for Object<'o> {
    ghost Value = { List ℕ };

    ghost view = { λ o. o.bytes.now };

    ghost invariant = { λ o. IsRead o.bytes.now o.symbols o.tables.items };
}

/// Looks at everything but which tables of relocations apply to one section, and finds the symbol table.
fn check(bytes: &[u8]) -> Result<usize, ObjectFault>
    ensures { MatchResult result (λ symbols. HasRelocationTables bytes.now × (symbols ≡ symbol_table bytes.now))
        (IsFirstFault bytes.now) }
{
    check_header(bytes)?;
    check_table(bytes)?;
    check_sections(bytes)?;
    check_names(bytes)?;
    let symbols = check_symbol_table(bytes)?;
    check_symbols(bytes, symbols)?;
    check_relocation_tables(bytes, symbols)?;
    Ok(symbols)
}

impl<'o> Object<'o> {
    /// Reads an object, or names its first fault.
    #[tactic(auto, using(crate::proofs::Refused::refused))]
    pub fn read(alloc: Global, bytes: &'o [u8]) -> Result<Object<'o>, ObjectError>
        ensures value { MatchResult result (λ object. (object ≡ bytes.now) × IsObject bytes.now) (IsRefused bytes.now) }
        ensures refused { (fault : ObjectFault) → IsFirstFault bytes.now fault → IsObject bytes.now → ⊥ }
    {
        let symbols = check(bytes)?;
        let tables = relocation_tables_of(alloc, bytes)?;
        Ok(Object {
            bytes,
            symbols,
            tables,
        })
    }

    /// How many sections there are, section 0, which is none, among them.
    pub fn section_count(&self) -> usize
        ensures value { result ≡ count self.now }
        ensures sound { IsObject self.now }
    {
        count_of(self.bytes)
    }

    /// The section of an index.
    pub fn section(&self, index: usize) -> Section
        requires { index < count self.now }
        ensures { result ≡ section_at self.now index }
    {
        section_of(self.bytes, index)
    }

    /// The bytes of a section: none of section 0 and of zeroes.
    pub fn section_bytes(&self, index: usize) -> &'o [u8]
        requires { index < count self.now }
        ensures { result.now ≡ contents self.now (section_at self.now index) }
    {
        contents_of(self.bytes, index)
    }

    /// The name of a section.
    pub fn section_name(&self, index: usize) -> &'o [u8]
        requires { index < count self.now }
        ensures { IsNameOf self.now (name_table self.now) (section_at self.now index).name result.now }
    {
        let names = contents_of(self.bytes, name_table_of(self.bytes));
        name_at(names, self.section(index).name as usize)
    }

    /// How many symbols there are, symbol 0, which is none, among them.
    pub fn symbol_count(&self) -> usize
        ensures value { result ≡ symbol_count self.now }
        ensures sound { IsObject self.now }
    {
        symbol_count_of(self.bytes, self.symbols)
    }

    /// The symbol of an index.
    pub fn symbol(&self, index: usize) -> Symbol
        requires { index < symbol_count self.now }
        ensures value { result ≡ symbol_at self.now index }
        ensures sound { IsSymbol self.now result }
    {
        symbol_of(self.bytes, self.symbols, index)
    }

    /// The name of a symbol.
    pub fn symbol_name(&self, index: usize) -> &'o [u8]
        requires { index < symbol_count self.now }
        ensures { IsNameOf self.now (symbol_names self.now) (symbol_at self.now index).name result.now }
    {
        let names = contents_of(self.bytes, symbol_names_of(self.bytes, self.symbols));
        name_at(names, self.symbol(index).name as usize)
    }

    /// The table of relocations of a section.
    #[tactic(auto, unfolding(crate::specs::Relocations::relocation_table))]
    fn relocation_table(&self, section: usize) -> Option<usize>
        requires { section < count self.now }
        ensures { result ≡ relocation_table self.now section }
    {
        self.tables[section]
    }

    /// How many relocations apply to a section: none where a running program doesn't have the section.
    #[tactic(auto, using(crate::proofs::Latest::known_table))]
    pub fn relocation_count(&self, section: usize) -> usize
        requires { section < count self.now }
        ensures { result ≡ relocations_in self.now (relocation_table self.now section) }
    {
        match self.relocation_table(section) {
            Some(table) => relocation_count_of(self.bytes, table),
            None => 0,
        }
    }

    /// A relocation of a section.
    #[tactic(auto, using(crate::proofs::Latest::known_table))]
    pub fn relocation(&self, section: usize, index: usize) -> Relocation
        requires section { section < count self.now }
        requires index { index < relocations_in self.now (relocation_table self.now section) }
        ensures value { IfSome (relocation_table self.now section)
            (λ table. result ≡ relocation_at self.now table index) }
        ensures symbol { result.symbol < symbol_count self.now }
    {
        let table = self.relocation_table(section).unwrap();
        relocation_of(self.bytes, table, index)
    }
}
