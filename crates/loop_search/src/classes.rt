//! Marks where two ways join: what two holders are apart on both ways, they are apart behind, whatever they are named.

ghost use Rattle.std.specs.Prelude.{◌<◌};

use bpf_words::instruction::Width;
use length_marks::names::TEXT_LENGTH;
use state_inclusion::partners::{Holder, holder_at};
use tracked_state::state::TrackedState;
use value_marks::mark::Mark;
use value_marks::marks::Marks;

/// How many places have marks: eleven registers, and then 64 slots of the stack.
pub(crate) const PLACES: usize = 75;

const REGISTERS: usize = 11;

/// The last slot that a program may have.
const LAST_SLOT: usize = TEXT_LENGTH - 1;

/// A place's value as a number added to a named value; of one number alone, to none.
#[derive(Clone, Copy)]
struct Difference {
    name: Option<usize>,
    addend: u64,
    width: Width,
}

fn difference_of(holder: Holder) -> Option<Difference> {
    if let Some(mark) = holder.mark {
        return Some(Difference {
            name: Some(mark.origin),
            addend: mark.addend,
            width: mark.width,
        });
    }
    let number = holder.number?;
    Some(Difference {
        name: None,
        addend: number,
        width: Width::Full,
    })
}

/// The low bits of a number.
fn cut_to(width: Width, number: u64) -> u64 {
    match width {
        Width::Full => number,
        Width::Narrow => number % (1 << 32),
    }
}

fn common_width(one: Width, other: Width) -> Width {
    match one {
        Width::Full => other,
        Width::Narrow => Width::Narrow,
    }
}

fn is_full(width: Width) -> bool {
    match width {
        Width::Full => true,
        Width::Narrow => false,
    }
}

fn is_same_name(one: Option<usize>, other: Option<usize>) -> bool {
    match (one, other) {
        (Some(one), Some(other)) => one == other,
        (None, None) => true,
        _ => false,
    }
}

/// What the places of a class have in common: the two values by which they are told on either way, and how far these
/// are apart.
#[derive(Clone, Copy)]
struct Pair {
    first: Option<usize>,
    second: Option<usize>,
    width: Width,
    apart: u64,
    /// What is added to the first.
    addend: u64,
}

fn pair_of(one: Difference, other: Difference) -> Pair {
    let width = common_width(one.width, other.width);
    Pair {
        first: one.name,
        second: other.name,
        width,
        apart: cut_to(width, one.addend.wrapping_sub(other.addend)),
        addend: one.addend,
    }
}

impl Pair {
    fn is_of_class(&self, other: &Pair) -> bool {
        is_same_name(self.first, other.first)
            && is_same_name(self.second, other.second)
            && is_full(self.width) == is_full(other.width)
            && self.apart == other.apart
    }

    /// Whether it is one number on both ways.
    fn is_number(&self) -> bool {
        self.first.is_none() && self.second.is_none() && self.apart == 0
    }

    /// The length, if it is told by it on both ways.
    fn length(&self) -> Option<usize> {
        let name = self.first?;
        if name >= TEXT_LENGTH && is_same_name(self.first, self.second) && self.apart == 0 {
            Some(name)
        } else {
            None
        }
    }
}

/// What the places are told by on both ways.
#[derive(Drop)]
struct Pairs {
    pairs: [Option<Pair>; PLACES],
}

fn pair_at(first: &TrackedState, second: &TrackedState, place: usize) -> Option<Pair>
    requires { place < 75 }
{
    let one = difference_of(holder_at(first, place))?;
    let other = difference_of(holder_at(second, place))?;
    Some(pair_of(one, other))
}

impl Pairs {
    fn of(first: &TrackedState, second: &TrackedState) -> Pairs {
        let mut pairs = [None; PLACES];
        for place in 0..PLACES {
            pairs[place] = pair_at(first, second, place);
        }
        Pairs { pairs }
    }

    /// The places of a pair's class: the first one, if there are others.
    fn first_of(&self, pair: &Pair) -> Option<(usize, Pair)> {
        let mut first = None;
        for (place, other) in self.pairs.iter().enumerate() {
            let Some(other) = other else {
                continue;
            };
            if !pair.is_of_class(other) {
                continue;
            }
            if first.is_some() {
                return first;
            }
            first = Some((place, *other));
        }
        None
    }

    /// The mark of a place behind the join. Names are taken from above, since slots name by their own number.
    fn mark_at(&self, place: usize) -> Option<Mark>
        requires { place < 75 }
    {
        let pair = self.pairs[place]?;
        if pair.is_number() {
            return None;
        }
        if let Some(origin) = pair.length() {
            return Some(Mark {
                origin,
                addend: pair.addend,
                width: pair.width,
            });
        }
        let (first, base) = self.first_of(&pair)?;
        Some(Mark {
            origin: LAST_SLOT.wrapping_sub(first),
            addend: pair.addend.wrapping_sub(base.addend),
            width: pair.width,
        })
    }
}

/// The marks that hold behind both states.
pub(crate) fn joined_marks(first: &TrackedState, second: &TrackedState) -> Marks {
    let pairs = Pairs::of(first, second);
    let mut marks = Marks::none();
    for register in 0..REGISTERS {
        marks.registers[register] = pairs.mark_at(register);
    }
    for slot in 0..64 {
        marks.slots[slot] = pairs.mark_at(REGISTERS + slot);
    }
    marks
}
