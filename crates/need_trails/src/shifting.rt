//! Sums and differences of a register's value and a constant, where none wraps.
ghost use Rattle.std.specs.Prelude.{◌≡◌, option_and_then};
ghost use Rattle.intervals.specs.Interval.{interval_of};
ghost use Rattle.abstract_state.specs.Estimate.{estimate_of};
ghost use Rattle.abstract_state.specs.Addresses.{content_of};
ghost use Rattle.need_trails.specs.Origins.{in_register, most_of, is_no_more, stays, shifted, shifted_content};

use crate::adding::before_adding;
use crate::numbers::moved;
use crate::origin::Origin;
use abstract_state::known::Known;
use abstract_state::quantity::Quantity;
use bpf_words::instruction::Width;
use bpf_words::register::Register;
use intervals::Range;
use refusal_needs::wanted::{Need, Place, Wanted, quantity_of};

pub(crate) fn in_register(register: Register, need: Need) -> Origin
    ensures { result ≡ in_register register need }
{
    Origin::Of(Wanted {
        place: Place::Register(register.number()),
        need,
    })
}

fn most_of(width: Width) -> u64
    ensures { result ≡ most_of width }
{
    match width {
        Width::Narrow => 0xffff_ffff,
        Width::Full => 0xffff_ffff_ffff_ffff,
    }
}

fn is_no_more(most: u64, n: Option<u64>) -> bool
    ensures { result ≡ is_no_more most n }
{
    match n {
        Some(n) => n <= most,
        None => false,
    }
}

/// Whether the numbers of a range and their sums with a constant are of that width.
#[tactic(auto, unfolding(crate::specs::Origins::stays))]
fn stays(width: Width, range: Range, by: i64) -> bool
    ensures { result ≡ stays width (interval_of range) by }
{
    let most = most_of(width);
    moved(range.low, by).is_some() && range.high <= most && is_no_more(most, moved(range.high, by))
}

/// A sum of a register's value and a constant, where none wraps.
#[tactic(auto, unfolding(crate::specs::Origins::shifted))]
fn shifted_number(
    quantity: &Quantity,
    register: Register,
    width: Width,
    by: i64,
    need: Need,
) -> Option<Origin>
    ensures { result ≡ shifted register width by need (estimate_of quantity.now) }
{
    if stays(width, quantity.range, by) {
        Some(in_register(register, before_adding(need, by)?))
    } else {
        None
    }
}

pub(crate) fn shifted(
    known: Known,
    register: Register,
    width: Width,
    by: i64,
    need: Need,
) -> Option<Origin>
    ensures { result ≡ shifted_content register width by need (content_of known) }
{
    shifted_number(&quantity_of(known)?, register, width, by, need)
}
