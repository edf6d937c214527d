//! What grew at a head of a loop goes on to a threshold, so that the search ends.

ghost use Rattle.std.specs.Prelude.{◌≤◌};

use crate::thresholds::{Pace, Thresholds};
use abstract_state::bounds::Bounds;
use abstract_state::known::{Known, lent};
use abstract_state::quantity::Quantity;
use abstract_state::region::{Region, Tails};
use abstract_state::slot::Slot;
use abstract_state::state::{AbsReg, AbsState};
use intervals::Range;
use known_bits::Bits;

/// How often what stands at each place grew, and each bound of a region.
#[derive(Clone, Copy)]
pub(crate) struct Ages {
    registers: [u8; 11],
    slots: [u8; 64],
    text: u8,
    link: u8,
}

impl Ages {
    pub(crate) fn none() -> Ages {
        Ages {
            registers: [0; 11],
            slots: [0; 64],
            text: 0,
            link: 0,
        }
    }
}

/// How often a place grows as it does, and then to the program's own numbers.
const FREE: u8 = 2;

/// How many growths more go to a few limits.
const COARSE: u8 = 4;

/// The thresholds for what grew so often, where the first `fine` growths go to fine ones.
fn pace_of(age: u8, fine: u8) -> Option<Pace> {
    if age <= FREE {
        None
    } else if age <= fine {
        Some(Pace::Fine)
    } else if age <= fine.saturating_add(COARSE) {
        Some(Pace::Coarse)
    } else {
        Some(Pace::All)
    }
}

/// All bits up to the highest one that is set.
fn filled(bits: u64) -> u64 {
    if bits == 0 {
        0
    } else {
        u64::MAX >> bits.leading_zeros()
    }
}

fn widened_tail(
    thresholds: &Thresholds,
    pace: Pace,
    old: Option<u32>,
    new: Option<u32>,
) -> Option<u32> {
    let tail = new?;
    match old {
        Some(before) if tail < before => thresholds.tail_below(pace, tail),
        _ => Some(tail),
    }
}

fn widened_range(thresholds: &Thresholds, pace: Pace, old: Range, new: Range) -> Option<Range> {
    let low = if new.low < old.low {
        thresholds.below(pace, new.low)
    } else {
        new.low
    };
    let high = if new.high > old.high {
        thresholds.above(pace, new.high)
    } else {
        new.high
    };
    Range::new(low, high)
}

/// The bits that stay known where the interval grew, or others became unknown: those above all these.
fn widened_bits(old: Bits, new: Bits, range: Range, grew: bool) -> Option<Bits> {
    if !grew && new.unknown == old.unknown {
        return Some(new);
    }
    let low = filled(range.low ^ range.high) | filled(new.unknown);
    let around = Range::new(new.value & !low, new.value | low)?;
    Some(new.join(Bits::between(around.low, around.high)))
}

fn widened_quantity(
    thresholds: &Thresholds,
    pace: Pace,
    old: &Quantity,
    new: &Quantity,
) -> Option<Quantity> {
    let range = widened_range(thresholds, pace, old.range, new.range)?;
    let grew = range.low != new.range.low || range.high != new.range.high;
    let bits = widened_bits(old.bits, new.bits, range, grew)?;
    let tails = Tails {
        text: widened_tail(thresholds, pace, old.tails.text, new.tails.text),
        link: widened_tail(thresholds, pace, old.tails.link, new.tails.link),
    };
    Quantity::normal(bits, range, tails)
}

fn is_same_region(one: Region, other: Region) -> bool {
    match (one, other) {
        (Region::Text, Region::Text) => true,
        (Region::Link, Region::Link) => true,
        _ => false,
    }
}

fn is_same_tail(one: Option<u32>, other: Option<u32>) -> bool {
    match (one, other) {
        (Some(one), Some(other)) => one == other,
        (None, None) => true,
        _ => false,
    }
}

fn is_same_quantity(one: &Quantity, other: &Quantity) -> bool {
    one.range.low == other.range.low
        && one.range.high == other.range.high
        && one.bits.value == other.bits.value
        && one.bits.unknown == other.bits.unknown
        && is_same_tail(one.tails.text, other.tails.text)
        && is_same_tail(one.tails.link, other.tails.link)
}

/// Of two numbers, or two addresses of one region, the numbers or offsets.
fn pair_of(old: Known, new: Known) -> Option<(Quantity, Quantity)> {
    match (old, new) {
        (Known::Number(old), Known::Number(new)) => Some((old, new)),
        (Known::Lent(old), Known::Lent(new)) if is_same_region(old.region, new.region) => {
            Some((old.offset, new.offset))
        }
        _ => None,
    }
}

/// An address goes no further than the rules allow.
fn with_quantity(known: Known, quantity: Quantity) -> Known {
    match known {
        Known::Number(_) => Known::Number(quantity),
        Known::Lent(address) => {
            lent(address.region, Some(quantity))
                .unwrap_or(None)
                .unwrap_or(known)
        }
        _ => known,
    }
}

fn widened_known(thresholds: &Thresholds, fine: u8, age: &mut u8, old: Known, new: Known) -> Known {
    let Some((before, now)) = pair_of(old, new) else {
        return new;
    };
    if is_same_quantity(&before, &now) {
        return new;
    }
    *age = age.saturating_add(1);
    let Some(pace) = pace_of(*age, fine) else {
        return new;
    };
    match widened_quantity(thresholds, pace, &before, &now) {
        Some(quantity) => with_quantity(new, quantity),
        None => new,
    }
}

fn widened_register(
    thresholds: &Thresholds,
    fine: u8,
    age: &mut u8,
    old: AbsReg,
    new: AbsReg,
) -> AbsReg {
    match (old, new) {
        (AbsReg::Set(old), AbsReg::Set(new)) => {
            AbsReg::Set(widened_known(thresholds, fine, age, old, new))
        }
        _ => new,
    }
}

fn widened_slot(thresholds: &Thresholds, fine: u8, age: &mut u8, old: Slot, new: Slot) -> Slot {
    match (old, new) {
        (Slot::Spilled(old), Slot::Spilled(new)) => {
            Slot::Spilled(widened_known(thresholds, fine, age, old, new))
        }
        _ => new,
    }
}

fn widened_bound(thresholds: &Thresholds, fine: u8, age: &mut u8, old: u64, new: u64) -> u64
    ensures { result ≤ new }
{
    if new >= old {
        return new;
    }
    *age = age.saturating_add(1);
    let Ok(bound) = u32::try_from(new) else {
        return new;
    };
    let pace = if *age > fine {
        Pace::Coarse
    } else {
        Pace::Fine
    };
    match thresholds.tail_below(pace, bound) {
        Some(least) => u64::from(least),
        None => 0,
    }
}

/// Widens what grew since the old state.
pub(crate) fn widen(
    thresholds: &Thresholds,
    fine: u8,
    ages: &mut Ages,
    old: &AbsState,
    new: &mut AbsState,
) {
    for i in 0..11 {
        new.registers[i] = widened_register(
            thresholds,
            fine,
            &mut ages.registers[i],
            old.registers[i],
            new.registers[i],
        );
    }
    for i in 0..64 {
        new.stack[i] = widened_slot(
            thresholds,
            fine,
            &mut ages.slots[i],
            old.stack[i],
            new.stack[i],
        );
    }
    new.bounds = Bounds {
        text: widened_bound(
            thresholds,
            fine,
            &mut ages.text,
            old.bounds.text,
            new.bounds.text,
        ),
        link: widened_bound(
            thresholds,
            fine,
            &mut ages.link,
            old.bounds.link,
            new.bounds.link,
        ),
    };
}
