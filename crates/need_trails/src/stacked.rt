//! Which bytes of the stack a load or a store takes.
ghost use Rattle.std.specs.Prelude.{◌≡◌, ℤ, option_and_then, pos};
ghost use Rattle.abstract_state.specs.Addresses.{content_of};
ghost use Rattle.abstract_state.specs.Situation.{situation_of};
ghost use Rattle.need_trails.specs.Origins.{stack_offset, first_at, eighth, eight_at, reaches, may_write};

use crate::numbers::moved;
use abstract_state::known::Known;
use abstract_state::state::AbsState;
use bpf_words::register::Register;
use refusal_needs::refused_for::bytes_of;
use refusal_needs::wanted::{Place, held};
use span_context::size::Size;

fn stack_offset(known: Known) -> Option<u64>
    ensures { result ≡ stack_offset (content_of known) }
{
    match known {
        Known::Stack(address) => Some(address.offset),
        Known::Number(_) | Known::Context(_) | Known::Lent(_) => None,
    }
}

/// The first byte of the stack that a load or a store takes.
#[tactic(auto, unfolding(crate::specs::Origins::first_at))]
fn first_at(state: &AbsState, base: Register, offset: i16) -> Option<u64>
    ensures { result ≡ first_at (situation_of state.now) base offset }
{
    let known = held(state, Place::Register(base.number()))?;
    moved(stack_offset(known)?, i64::from(offset))
}

fn eighth(first: u64) -> Option<usize>
    ensures { result ≡ eighth first }
{
    if first % 8 == 0 {
        Some((first / 8) as usize)
    } else {
        None
    }
}

/// The index of the eight bytes of the stack at which a load or a store of all eight begins.
pub(crate) fn eight_at(state: &AbsState, base: Register, offset: i16) -> Option<usize>
    ensures { result ≡ eight_at (situation_of state.now) base offset }
{
    eighth(first_at(state, base, offset)?)
}

/// Whether bytes from the first on reach into eight bytes of an index.
fn reaches(first: u64, count: usize, index: usize) -> bool
    ensures { result ≡ reaches first count index }
{
    let first = first as u128;
    let begin = 8 * (index as u128);
    first < begin + 8 && begin < first + count as u128
}

/// Whether a store may write one of eight bytes of the stack.
#[tactic(auto, unfolding(crate::specs::Origins::may_write))]
pub(crate) fn may_write(
    state: &AbsState,
    size: Size,
    base: Register,
    offset: i16,
    index: usize,
) -> bool
    ensures { result ≡ may_write (situation_of state.now) size base offset index }
{
    match first_at(state, base, offset) {
        Some(first) => reaches(first, bytes_of(size), index),
        None => true,
    }
}
