//! Programs that loop.

use crate::error::LoopError;
use crate::verify::verify_loops;
use bpf_words::words::Words;
use loop_check::label::Bound;
use std::test::Fail;

/// `r2 = text; r3 = end; r0 = 0`, and then as long as r2 isn't the end: `r0 = *(u8 *)r2; r2 += 1`.
const ADDRESSES: [u8; 64] = [
    0x79, 0x12, 0, 0, 0, 0, 0, 0, // r2 = *(u64 *)(r1 + 0)
    0x79, 0x13, 8, 0, 0, 0, 0, 0, // r3 = *(u64 *)(r1 + 8)
    0xb7, 0, 0, 0, 0, 0, 0, 0, // r0 = 0
    0x1d, 0x32, 3, 0, 0, 0, 0, 0, // if r2 == r3 goto +3
    0x71, 0x20, 0, 0, 0, 0, 0, 0, // r0 = *(u8 *)(r2 + 0)
    0x07, 0x02, 0, 0, 1, 0, 0, 0, // r2 += 1
    0x05, 0, 0xfc, 0xff, 0, 0, 0, 0, // goto -4
    0x95, 0, 0, 0, 0, 0, 0, 0, // exit
];

/// `r2 = 0; r4 = length; r0 = 0`, and then as long as r2 is less: `r5 = text + r2; r0 = *(u8 *)r5; r2 += 1`.
const INDEX: [u8; 80] = [
    0xb7, 0x02, 0, 0, 0, 0, 0, 0, // r2 = 0
    0x61, 0x14, 16, 0, 0, 0, 0, 0, // r4 = *(u32 *)(r1 + 16)
    0xb7, 0, 0, 0, 0, 0, 0, 0, // r0 = 0
    0x3d, 0x42, 5, 0, 0, 0, 0, 0, // if r2 >= r4 goto +5
    0x79, 0x15, 0, 0, 0, 0, 0, 0, // r5 = *(u64 *)(r1 + 0)
    0x0f, 0x25, 0, 0, 0, 0, 0, 0, // r5 += r2
    0x71, 0x50, 0, 0, 0, 0, 0, 0, // r0 = *(u8 *)(r5 + 0)
    0x07, 0x02, 0, 0, 1, 0, 0, 0, // r2 += 1
    0x05, 0, 0xfa, 0xff, 0, 0, 0, 0, // goto -6
    0x95, 0, 0, 0, 0, 0, 0, 0, // exit
];

/// `r2 = text; r3 = end; r0 = 0`, and then as long as r2 is less than the end: `r2 += *(u8 *)r2 + 1`.
const RECORDS: [u8; 72] = [
    0x79, 0x12, 0, 0, 0, 0, 0, 0, // r2 = *(u64 *)(r1 + 0)
    0x79, 0x13, 8, 0, 0, 0, 0, 0, // r3 = *(u64 *)(r1 + 8)
    0xb7, 0, 0, 0, 0, 0, 0, 0, // r0 = 0
    0x3d, 0x32, 4, 0, 0, 0, 0, 0, // if r2 >= r3 goto +4
    0x71, 0x24, 0, 0, 0, 0, 0, 0, // r4 = *(u8 *)(r2 + 0)
    0x07, 0x04, 0, 0, 1, 0, 0, 0, // r4 += 1
    0x0f, 0x42, 0, 0, 0, 0, 0, 0, // r2 += r4
    0x05, 0, 0xfb, 0xff, 0, 0, 0, 0, // goto -5
    0x95, 0, 0, 0, 0, 0, 0, 0, // exit
];

/// Counts lines: r1 goes on within a line, r2 keeps a copy, from which the next line begins.
const LINES: [u8; 104] = [
    0x79, 0x12, 0, 0, 0, 0, 0, 0, // r2 = *(u64 *)(r1 + 0)
    0x79, 0x13, 8, 0, 0, 0, 0, 0, // r3 = *(u64 *)(r1 + 8)
    0xb7, 0, 0, 0, 0, 0, 0, 0, // r0 = 0
    0x3d, 0x32, 8, 0, 0, 0, 0, 0, // if r2 >= r3 goto +8
    0xbf, 0x21, 0, 0, 0, 0, 0, 0, // r1 = r2
    0xbd, 0x13, 6, 0, 0, 0, 0, 0, // if r3 <= r1 goto +6
    0x07, 0x01, 0, 0, 1, 0, 0, 0, // r1 += 1
    0xbf, 0x12, 0, 0, 0, 0, 0, 0, // r2 = r1
    0x71, 0x14, 0xff, 0xff, 0, 0, 0, 0, // r4 = *(u8 *)(r1 - 1)
    0x55, 0x04, 0xfb, 0xff, 10, 0, 0, 0, // if r4 != 10 goto -5
    0x07, 0, 0, 0, 1, 0, 0, 0, // r0 += 1
    0x2d, 0x13, 0xf8, 0xff, 0, 0, 0, 0, // if r3 > r1 goto -8
    0x95, 0, 0, 0, 0, 0, 0, 0, // exit
];

/// `r0 = 0; goto -1`
const FOR_EVER: [u8; 24] = [
    0xb7, 0, 0, 0, 0, 0, 0, 0, // r0 = 0
    0x05, 0, 0xff, 0xff, 0, 0, 0, 0, // goto -1
    0x95, 0, 0, 0, 0, 0, 0, 0, // exit
];

fn with(code: &[u8; 64], place: usize, value: u8) -> [u8; 64] {
    let mut changed = *code;
    if place < 64 {
        changed[place] = value;
    }
    changed
}

fn refused_at(verified: &Result<Bound, LoopError>) -> Option<usize> {
    match verified {
        Err(LoopError::Refused { slot, .. }) => Some(*slot),
        _ => None,
    }
}

/// The bound as three numbers.
fn numbers(verified: &Result<Bound, LoopError>) -> Option<(u64, u32, u32)> {
    match verified {
        Ok(bound) => Some((bound.constant, bound.per_byte, bound.per_link_byte)),
        Err(_) => None,
    }
}

#[test]
fn a_scan_of_the_text_is_accepted(rt: HostRuntime) -> Result<(), Fail> {
    let words = Words::new(&ADDRESSES)?;
    let found = numbers(&verify_loops(rt.alloc(), &words));
    let Some((constant, per_byte, per_link_byte)) = found else {
        assert!(rt; false, "refused");
        return Ok(());
    };
    // of n bytes a run takes 5 + 4 * n steps, so that no bound is less, and one that is a turn more is loose
    assert_eq!(rt; (per_byte, per_link_byte), (4, 0));
    assert!(rt; constant >= 5 && constant <= 9);
    Ok(())
}

#[test]
fn steps_of_several_lengths_are_counted_as_the_shortest(rt: HostRuntime) -> Result<(), Fail> {
    let words = Words::new(&RECORDS)?;
    let found = numbers(&verify_loops(rt.alloc(), &words));
    assert_eq!(rt; found, Some((5_242_888, 0, 0)));
    Ok(())
}

#[test]
fn a_value_and_its_copy_are_one(rt: HostRuntime) -> Result<(), Fail> {
    let words = Words::new(&LINES)?;
    let found = numbers(&verify_loops(rt.alloc(), &words));
    assert_eq!(rt; found, Some((8, 8, 0)));
    Ok(())
}

fn has_no_measure(verified: &Result<Bound, LoopError>) -> bool {
    match verified {
        Err(LoopError::NoMeasure) => true,
        _ => false,
    }
}

fn takes_too_many_steps(verified: &Result<Bound, LoopError>) -> bool {
    match verified {
        Err(LoopError::TooManySteps) => true,
        _ => false,
    }
}

#[test]
fn a_loop_without_end_is_refused(rt: HostRuntime) -> Result<(), Fail> {
    let words = Words::new(&FOR_EVER)?;
    assert!(rt; has_no_measure(&verify_loops(rt.alloc(), &words)));
    Ok(())
}

/// `r2 = 0`, `r2 += 1` until r2 isn't less than the limit, `r0 = 0`.
fn counting_to(limit: [u8; 4]) -> [u8; 40] {
    let mut code = [
        0xb7, 0x02, 0, 0, 0, 0, 0, 0, // r2 = 0
        0x07, 0x02, 0, 0, 1, 0, 0, 0, // r2 += 1
        0xa5, 0x02, 0xfe, 0xff, 0, 0, 0, 0, // if r2 < limit goto -2
        0xb7, 0, 0, 0, 0, 0, 0, 0, // r0 = 0
        0x95, 0, 0, 0, 0, 0, 0, 0, // exit
    ];
    for (place, digit) in limit.iter().enumerate() {
        if place < 4 {
            code[20 + place] = *digit;
        }
    }
    code
}

#[test]
fn a_count_is_accepted_within_the_limit_of_steps(rt: HostRuntime) -> Result<(), Fail> {
    // to 1,000,000, and to 2^31 - 1
    let short = counting_to([0x40, 0x42, 0x0f, 0]);
    let long = counting_to([0xff, 0xff, 0xff, 0x7f]);
    let first = Words::new(&short)?;
    let second = Words::new(&long)?;
    let Some((constant, per_byte, per_link_byte)) = numbers(&verify_loops(rt.alloc(), &first))
    else {
        assert!(rt; false, "refused");
        return Ok(());
    };
    // a run takes 2,000,003 steps
    assert_eq!(rt; (per_byte, per_link_byte), (0, 0));
    assert!(rt; constant >= 2_000_003 && constant <= 8_000_012);
    assert!(rt; takes_too_many_steps(&verify_loops(rt.alloc(), &second)));
    Ok(())
}

#[test]
fn an_index_is_accepted(rt: HostRuntime) -> Result<(), Fail> {
    let words = Words::new(&INDEX)?;
    let found = numbers(&verify_loops(rt.alloc(), &words));
    let Some((constant, per_byte, per_link_byte)) = found else {
        assert!(rt; false, "refused");
        return Ok(());
    };
    // of n bytes a run takes 5 + 6 * n steps
    assert_eq!(rt; (per_byte, per_link_byte), (6, 0));
    assert!(rt; constant >= 5 && constant <= 11);
    Ok(())
}

#[test]
fn a_load_behind_the_end_is_refused(rt: HostRuntime) -> Result<(), Fail> {
    // r0 = *(u8 *)(r2 + 1)
    let behind = with(&ADDRESSES, 34, 1);
    // r2 += 2, which may go past the end
    let double = with(&ADDRESSES, 44, 2);
    let first = Words::new(&behind)?;
    let second = Words::new(&double)?;
    assert_eq!(rt;
        refused_at(&verify_loops(rt.alloc(), &first)),
        Some(4),
        "one byte too far"
    );
    assert_eq!(rt;
        refused_at(&verify_loops(rt.alloc(), &second)),
        Some(4),
        "two bytes a turn"
    );
    Ok(())
}
