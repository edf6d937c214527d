//! Tails that follow from how long a region is at least: they are kept where ways join, when the bounds differ.

use abstract_state::bounds::Bounds;
use abstract_state::known::{Known, lent};
use abstract_state::quantity::Quantity;
use abstract_state::region::{Region, Tails};
use abstract_state::slot::Slot;
use abstract_state::state::{AbsReg, AbsState};

/// A tail, and what is left of so many bytes behind a number up to `high`: the greater.
fn greater_tail(tail: Option<u32>, bound: u64, high: u64) -> Option<u32> {
    let Some(behind) = bound.checked_sub(high) else {
        return tail;
    };
    let Ok(behind) = u32::try_from(behind) else {
        return tail;
    };
    match tail {
        Some(tail) => Some(tail.max(behind)),
        None => Some(behind),
    }
}

fn lengthened(bounds: Bounds, quantity: &Quantity) -> Quantity {
    let high = quantity.range.high;
    let tails = Tails {
        text: greater_tail(quantity.tails.text, bounds.text, high),
        link: greater_tail(quantity.tails.link, bounds.link, high),
    };
    match Quantity::normal(quantity.bits, quantity.range, tails) {
        Some(quantity) => quantity,
        None => *quantity,
    }
}

/// An offset has tails in its own region.
fn lengthened_in(region: Region, bounds: Bounds, offset: &Quantity) -> Quantity {
    let high = offset.range.high;
    let tails = match region {
        Region::Text => Tails {
            text: greater_tail(offset.tails.text, bounds.text, high),
            link: offset.tails.link,
        },
        Region::Link => Tails {
            text: offset.tails.text,
            link: greater_tail(offset.tails.link, bounds.link, high),
        },
    };
    match Quantity::normal(offset.bits, offset.range, tails) {
        Some(quantity) => quantity,
        None => *offset,
    }
}

fn with_tails(bounds: Bounds, known: Known) -> Known {
    match known {
        Known::Number(quantity) => Known::Number(lengthened(bounds, &quantity)),
        Known::Lent(address) => {
            let offset = lengthened_in(address.region, bounds, &address.offset);
            lent(address.region, Some(offset))
                .unwrap_or(None)
                .unwrap_or(known)
        }
        _ => known,
    }
}

/// Gives each number and address the tails that follow from the bounds.
pub(crate) fn add_tails(state: &mut AbsState) {
    let bounds = state.bounds;
    for i in 0..11 {
        if let AbsReg::Set(known) = state.registers[i] {
            state.registers[i] = AbsReg::Set(with_tails(bounds, known));
        }
    }
    for i in 0..64 {
        if let Slot::Spilled(known) = state.stack[i] {
            state.stack[i] = Slot::Spilled(with_tails(bounds, known));
        }
    }
}
