use assembler::fault::AsmError;
use assembler_lines::fault::LineFault;
use bpf_words::refusal::{SlotFault, WordError};
use change_history::refusal::{Refusal, SubmitError};
use change_ops::refusal::ChangeError;
use char_sequence::sequence::SequenceError;
use std::alloc::{AllocError, Global};
use std::fmt::Display;
use std::test::Fail;

// Numbers and names as docs/REFUSALS.md has them.

/// How an error is printed.
fn printed<E: Display>(alloc: Global, error: &E) -> Result<String, AllocError> {
    format!(in alloc; "{error}")
}

/// The first of the errors that is printed in another way.
fn first_wrong<E: Display>(
    alloc: Global,
    rows: &[(E, &'static str)],
) -> Result<Option<&'static str>, AllocError> {
    for (error, want) in rows {
        if printed(alloc, error)?.as_str() != *want {
            return Ok(Some(*want));
        }
    }
    Ok(None)
}

#[test]
fn refusals_have_their_numbers(rt: HostRuntime) -> Result<(), Fail> {
    let read = [
        (ChangeError::BadLine(1), "40 BadLine line 1"),
        (ChangeError::Truncated, "41 Truncated"),
        (ChangeError::Limit(2), "42 Limit line 2"),
        (ChangeError::CharRefused(3), "43 CharRefused line 3"),
        (ChangeError::WrongPeer(257), "44 WrongPeer line 257"),
        (ChangeError::OutOfMemory, "45 OutOfMemory"),
    ];
    assert_eq!(rt; first_wrong(rt.alloc(), &read)?, None);
    Ok(())
}

/// The refusal of an operation.
fn refused(refusal: Refusal) -> SubmitError {
    SubmitError::Refused { index: 0, refusal }
}

#[test]
fn refusals_of_acceptance_have_their_numbers(rt: HostRuntime) -> Result<(), Fail> {
    let accepted = [
        (SubmitError::OutOfMemory, "45 OutOfMemory"),
        (refused(Refusal::StaleCounter), "46 StaleCounter"),
        (refused(Refusal::UnknownRef), "47 UnknownRef"),
        (refused(Refusal::DocumentFull), "48 DocumentFull"),
        (refused(Refusal::MarksFull), "49 MarksFull"),
        (SubmitError::HistoryFull, "50 HistoryFull"),
    ];
    assert_eq!(rt; first_wrong(rt.alloc(), &accepted)?, None);
    Ok(())
}

#[test]
fn refusals_of_a_sequence_have_their_numbers(rt: HostRuntime) -> Result<(), Fail> {
    let refused = [
        (SequenceError::StaleCounter, "46 StaleCounter"),
        (SequenceError::UnknownRef, "47 UnknownRef"),
        (SequenceError::DocumentFull, "48 DocumentFull"),
    ];
    assert_eq!(rt; first_wrong(rt.alloc(), &refused)?, None);
    Ok(())
}

/// A fault of a slot.
fn slot(fault: SlotFault) -> WordError {
    WordError::Slot { slot: 12, fault }
}

#[test]
fn refusals_of_words_have_their_numbers(rt: HostRuntime) -> Result<(), Fail> {
    let refused = [
        (WordError::Empty, "1 Empty"),
        (WordError::TooLong, "2 TooLong"),
        (WordError::LengthNotEight, "3 LengthNotEight"),
        (slot(SlotFault::UnknownOpcode), "4 UnknownOpcode slot 12"),
        (slot(SlotFault::OutOfProfile), "5 OutOfProfile slot 12"),
        (slot(SlotFault::UnusedField), "6 UnusedField slot 12"),
        (slot(SlotFault::BadRegister), "7 BadRegister slot 12"),
        (slot(SlotFault::BadWidth), "8 BadWidth slot 12"),
        (slot(SlotFault::TruncatedWide), "9 TruncatedWide slot 12"),
    ];
    assert_eq!(rt; first_wrong(rt.alloc(), &refused)?, None);
    Ok(())
}

/// A fault of a line.
fn line(fault: LineFault) -> AsmError {
    AsmError::Line { line: 34, fault }
}

#[test]
fn refusals_of_a_source_have_their_numbers(rt: HostRuntime) -> Result<(), Fail> {
    let refused = [
        (line(LineFault::Syntax), "30 Syntax line 34"),
        (line(LineFault::UnknownName), "31 UnknownName line 34"),
        (line(LineFault::NumberRange), "32 NumberRange line 34"),
        (line(LineFault::UnknownLabel), "33 UnknownLabel line 34"),
        (line(LineFault::LabelTwice), "34 LabelTwice line 34"),
        (line(LineFault::JumpRange), "35 JumpRange line 34"),
        (AsmError::OutOfMemory, "36 OutOfMemory"),
    ];
    assert_eq!(rt; first_wrong(rt.alloc(), &refused)?, None);
    Ok(())
}
