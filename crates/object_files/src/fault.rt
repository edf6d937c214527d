//! What is wrong with an object.
use std::alloc::AllocError;

/// The first fault of an object, in the order in which it is looked at.
#[derive(Clone, Copy, Debug, PartialEq, Eq)]
pub enum ObjectFault {
    /// More than 16 MiB.
    TooLong,
    /// No whole header, or one that doesn't begin as an ELF file.
    NotElf,
    /// Not 64-bit, little-endian, version 1.
    NotElf64,
    /// An executable, a shared library or a core file.
    NotRelocatable,
    /// Of another machine than BPF.
    NotBpf,
    /// Rows of the section table that don't have 64 bytes.
    SectionEntrySize,
    /// No section, or 65,280 and more.
    SectionCount,
    /// A section table that isn't behind the header within the bytes.
    SectionTable,
    /// A section 0 that is one.
    FirstSection,
    /// A section whose bytes aren't all in the file.
    SectionOutside { section: usize },
    /// A section that has bytes of the header or of the section table.
    SectionOverTable { section: usize },
    /// The sections up to this one have more bytes than the file, so some share them.
    SectionsOverlap { section: usize },
    /// No string table for the names of sections.
    NameTable,
    /// A section whose name doesn't begin in the names.
    SectionName { section: usize },
    /// A second symbol table.
    SecondSymbolTable { section: usize },
    /// No symbol table.
    NoSymbolTable,
    /// Symbols that don't have 24 bytes each.
    SymbolEntrySize,
    /// No string table for the names of symbols.
    SymbolNameTable,
    /// A symbol whose name doesn't begin in the names.
    SymbolName { symbol: usize },
    /// A symbol of a section that the object doesn't have.
    SymbolSection { symbol: usize },
    /// Relocations of a section that the object doesn't have.
    RelocationTarget { section: usize },
    /// Relocations with addends, of a section that a running program has.
    RelocationAddends { section: usize },
    /// Relocations that don't have 16 bytes each, or of other symbols.
    RelocationTable { section: usize },
    /// A relocation of a symbol that the object doesn't have.
    RelocationSymbol { section: usize, relocation: usize },
    /// A second table of relocations for one section.
    SecondRelocationTable { section: usize },
}

/// Why an object wasn't read.
#[derive(Clone, Copy, Debug, PartialEq, Eq)]
pub enum ObjectError {
    /// The object is at fault.
    Fault(ObjectFault),
    /// An allocation was refused.
    OutOfMemory,
}

impl From<AllocError> for ObjectError {
    ghost use Rattle.std.specs.Prelude.{◌≡◌};
    ghost use Rattle.object_files.specs.declared.fault.ObjectError.TheVariants.{OutOfMemory};

    ghost from_gives = { λ _ error. error ≡ OutOfMemory };

    fn from(_error: AllocError) -> ObjectError {
        ObjectError::OutOfMemory
    }
}

impl From<ObjectFault> for ObjectError {
    ghost use Rattle.std.specs.Prelude.{◌≡◌};
    ghost use Rattle.object_files.specs.declared.fault.ObjectError.TheVariants.{Fault};

    ghost from_gives = { λ fault error. error ≡ Fault fault };

    fn from(fault: ObjectFault) -> ObjectError {
        ObjectError::Fault(fault)
    }
}
