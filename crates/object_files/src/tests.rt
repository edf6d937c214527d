//! An object that is read, and what is wrong with it where a byte is another.
use crate::fault::{ObjectError, ObjectFault};
use crate::object::Object;
use crate::symbol::SymbolPlace;
use std::alloc::Global;
use std::test::Fail;

/// Two slots named `filter`, with a relocation of the second. The sections: none, .strtab, .text, .rel.text, .symtab.
static OBJECT: [u8; 528] = [
    127, 69, 76, 70, 2, 1, 1, 0, 0, 0, 0, 0, 0, 0, 0, 0, 1, 0, 247, 0, 1, 0, 0, 0, 0, 0, 0, 0, 0,
    0, 0, 0, 0, 0, 0, 0, 0, 0, 0, 0, 208, 0, 0, 0, 0, 0, 0, 0, 0, 0, 0, 0, 64, 0, 0, 0, 0, 0, 64,
    0, 5, 0, 1, 0, 0, 46, 115, 116, 114, 116, 97, 98, 0, 46, 116, 101, 120, 116, 0, 46, 114, 101,
    108, 46, 116, 101, 120, 116, 0, 46, 115, 121, 109, 116, 97, 98, 0, 102, 105, 108, 116, 101,
    114, 0, 183, 0, 0, 0, 1, 0, 0, 0, 149, 0, 0, 0, 0, 0, 0, 0, 0, 0, 0, 0, 0, 0, 0, 0, 0, 0, 0, 0,
    0, 0, 0, 0, 0, 0, 0, 0, 0, 0, 0, 0, 0, 0, 0, 0, 3, 0, 2, 0, 0, 0, 0, 0, 0, 0, 0, 0, 0, 0, 0, 0,
    0, 0, 0, 0, 33, 0, 0, 0, 18, 0, 2, 0, 0, 0, 0, 0, 0, 0, 0, 0, 16, 0, 0, 0, 0, 0, 0, 0, 8, 0, 0,
    0, 0, 0, 0, 0, 10, 0, 0, 0, 2, 0, 0, 0, 0, 0, 0, 0, 0, 0, 0, 0, 0, 0, 0, 0, 0, 0, 0, 0, 0, 0,
    0, 0, 0, 0, 0, 0, 0, 0, 0, 0, 0, 0, 0, 0, 0, 0, 0, 0, 0, 0, 0, 0, 0, 0, 0, 0, 0, 0, 0, 0, 0, 0,
    0, 0, 0, 0, 0, 0, 0, 0, 0, 0, 0, 0, 0, 0, 1, 0, 0, 0, 3, 0, 0, 0, 0, 0, 0, 0, 0, 0, 0, 0, 0, 0,
    0, 0, 0, 0, 0, 0, 64, 0, 0, 0, 0, 0, 0, 0, 40, 0, 0, 0, 0, 0, 0, 0, 0, 0, 0, 0, 0, 0, 0, 0, 1,
    0, 0, 0, 0, 0, 0, 0, 0, 0, 0, 0, 0, 0, 0, 0, 9, 0, 0, 0, 1, 0, 0, 0, 6, 0, 0, 0, 0, 0, 0, 0, 0,
    0, 0, 0, 0, 0, 0, 0, 104, 0, 0, 0, 0, 0, 0, 0, 16, 0, 0, 0, 0, 0, 0, 0, 0, 0, 0, 0, 0, 0, 0, 0,
    8, 0, 0, 0, 0, 0, 0, 0, 0, 0, 0, 0, 0, 0, 0, 0, 15, 0, 0, 0, 9, 0, 0, 0, 64, 0, 0, 0, 0, 0, 0,
    0, 0, 0, 0, 0, 0, 0, 0, 0, 192, 0, 0, 0, 0, 0, 0, 0, 16, 0, 0, 0, 0, 0, 0, 0, 4, 0, 0, 0, 2, 0,
    0, 0, 8, 0, 0, 0, 0, 0, 0, 0, 16, 0, 0, 0, 0, 0, 0, 0, 25, 0, 0, 0, 2, 0, 0, 0, 0, 0, 0, 0, 0,
    0, 0, 0, 0, 0, 0, 0, 0, 0, 0, 0, 120, 0, 0, 0, 0, 0, 0, 0, 72, 0, 0, 0, 0, 0, 0, 0, 1, 0, 0, 0,
    2, 0, 0, 0, 8, 0, 0, 0, 0, 0, 0, 0, 24, 0, 0, 0, 0, 0, 0, 0,
];

/// What is wrong where the byte at an offset is this one.
static SPOILED: [(usize, u8, ObjectFault); 23] = [
    (3, 0, ObjectFault::NotElf),
    (4, 1, ObjectFault::NotElf64),
    (20, 0, ObjectFault::NotElf64),
    (16, 2, ObjectFault::NotRelocatable),
    (18, 62, ObjectFault::NotBpf),
    (58, 63, ObjectFault::SectionEntrySize),
    (60, 0, ObjectFault::SectionCount),
    (60, 6, ObjectFault::SectionTable),
    (212, 1, ObjectFault::FirstSection),
    (305, 16, ObjectFault::SectionOutside { section: 1 }),
    (360, 200, ObjectFault::SectionOverTable { section: 2 }),
    (62, 2, ObjectFault::NameTable),
    (336, 40, ObjectFault::SectionName { section: 2 }),
    (340, 2, ObjectFault::SecondSymbolTable { section: 4 }),
    (468, 1, ObjectFault::NoSymbolTable),
    (520, 23, ObjectFault::SymbolEntrySize),
    (504, 2, ObjectFault::SymbolNameTable),
    (168, 40, ObjectFault::SymbolName { symbol: 2 }),
    (174, 5, ObjectFault::SymbolSection { symbol: 2 }),
    (444, 5, ObjectFault::RelocationTarget { section: 3 }),
    (404, 4, ObjectFault::RelocationAddends { section: 3 }),
    (440, 1, ObjectFault::RelocationTable { section: 3 }),
    (
        204,
        3,
        ObjectFault::RelocationSymbol {
            section: 3,
            relocation: 0,
        },
    ),
];

#[test]
fn reads_an_object(rt: HostRuntime) -> Result<(), Fail> {
    let object = Object::read(rt.alloc(), &OBJECT)?;
    assert_eq!(rt; object.section_count(), 5);
    assert_eq!(rt; object.section_name(3), b".rel.text".as_slice());
    assert_eq!(rt; object.section_bytes(2), &OBJECT[104..120]);
    assert_eq!(rt; object.symbol_count(), 3);
    assert_eq!(rt; object.symbol_name(2), b"filter".as_slice());
    let symbol = object.symbol(2);
    assert_eq!(rt; (symbol.kind, symbol.binding, symbol.size), (2, 1, 16));
    assert!(rt; matches!(symbol.place(), SymbolPlace::InSection(2)));
    assert_eq!(rt; object.relocation_count(1), 0);
    assert_eq!(rt; object.relocation_count(2), 1);
    let relocation = object.relocation(2, 0);
    assert_eq!(rt;
        (relocation.offset, relocation.kind, relocation.symbol),
        (8, 10, 2)
    );
    Ok(())
}

/// What is wrong with the object where the byte at an offset is this one.
fn error_where(alloc: Global, at: usize, byte: u8) -> Option<ObjectError> {
    let mut bytes = OBJECT;
    if let Some(place) = bytes.get_mut(at) {
        *place = byte;
    }
    Object::read(alloc, &bytes).err()
}

#[test]
fn names_the_first_fault(rt: HostRuntime) -> Result<(), Fail> {
    for (at, byte, fault) in &SPOILED {
        let error = error_where(rt.alloc(), *at, *byte);
        assert!(rt; error == Some(ObjectError::Fault(*fault)), "the byte {at}");
    }
    Ok(())
}
