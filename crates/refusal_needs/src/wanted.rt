//! What is wanted of a value, and whether it is known.
ghost use Rattle.std.specs.Prelude.{◌≡◌, ◌&&◌, ◌<◌, ◌+◌, ◌^◌, nat_le, nat_lt, if◌then◌else◌, None, false, option_map};
ghost use Rattle.std.specs.Option.{option_map_or};
ghost use Rattle.abstract_state.specs.Estimate.{estimate_of};
ghost use Rattle.abstract_state.specs.Addresses.{content_of};
ghost use Rattle.abstract_state.specs.Stacks.{eight_of, whole_in, are_set};
ghost use Rattle.abstract_state.specs.Situation.{register_of, situation_of, least_of};
ghost use Rattle.refusal_needs.specs.Wanted.{held, is_number, is_in_stack};
ghost use Rattle.refusal_needs.specs.Wanted.{estimate_in, one_in, is_same_region, by_tail};
ghost use Rattle.refusal_needs.specs.Wanted.{by_length, ends_within, is_within};
ghost use Rattle.refusal_needs.specs.Wanted.{begins_behind, is_behind, is_at_most, is_met};
ghost use Rattle.refusal_needs.specs.Wanted.{is_known_at, is_known};

use crate::signed::{moved, signed, small};
use abstract_state::bounds::Bounds;
use abstract_state::known::Known;
use abstract_state::quantity::Quantity;
use abstract_state::region::Region;
use abstract_state::slot::Slot;
use abstract_state::stack::are_set;
use abstract_state::state::{AbsReg, AbsState};

/// Where a value stands.
#[derive(Clone, Copy, PartialEq, Eq)]
pub enum Place {
    /// A register, by its number.
    Register(u8),
    /// Eight bytes of the stack, by their index from its lowest byte on.
    Eight(usize),
    /// Bytes of the stack, by the first one's distance from its lowest, and how many they are.
    Bytes(usize, usize),
}

/// What is wanted of a value.
#[derive(Clone, Copy)]
pub enum Need {
    Set,
    Number,
    /// One number for sure.
    OneNumber,
    Address,
    StackAddress,
    /// That the value and these bytes aren't behind the region's end; of a number, not above its length.
    Within(Region, i64),
    /// That the address is at least these bytes behind its region's start; of a number, that it is at least so much.
    Behind(Region, i64),
    AtMost(u64),
}

/// What is wanted of the value at a place.
#[derive(Clone, Copy)]
pub struct Wanted {
    pub place: Place,
    pub need: Need,
}

/// What is known of a register.
fn known_in(register: AbsReg) -> Option<Known>
    ensures { option_map content_of result ≡ register_of register }
{
    match register {
        AbsReg::Set(known) => Some(known),
        AbsReg::Unset => None,
    }
}

/// What stands in eight bytes of the stack, if it is one value.
fn whole_in(slot: Slot) -> Option<Known>
    ensures { option_map content_of result ≡ whole_in (eight_of slot) }
{
    match slot {
        Slot::Spilled(known) => Some(known),
        Slot::Marks(_) => None,
    }
}

/// What is known of a register of a number, where there is one.
pub(crate) fn held_register(state: &AbsState, number: usize) -> Option<Known>
    ensures { option_map content_of result
        ≡ (if nat_lt number 11 then (situation_of state.now).registers number else None) }
{
    if number < 11 {
        known_in(state.registers[number])
    } else {
        None
    }
}

fn held_eight(state: &AbsState, index: usize) -> Option<Known>
    ensures { option_map content_of result
        ≡ (if nat_lt index 64 then whole_in ((situation_of state.now).slots index) else None) }
{
    if index < 64 {
        whole_in(state.stack[index])
    } else {
        None
    }
}

/// What is known of the value at a place, if it is one value.
pub fn held(state: &AbsState, place: Place) -> Option<Known>
    ensures { option_map content_of result ≡ held (situation_of state.now) place }
{
    match place {
        Place::Register(number) => held_register(state, usize::from(number)),
        Place::Eight(index) => held_eight(state, index),
        Place::Bytes(_, _) => None,
    }
}

pub(crate) fn is_number(known: Known) -> bool
    ensures { result ≡ is_number (content_of known) }
{
    match known {
        Known::Number(_) => true,
        Known::Context(_) => false,
        Known::Stack(_) => false,
        Known::Lent(_) => false,
    }
}

fn is_in_stack(known: Known) -> bool
    ensures { result ≡ is_in_stack (content_of known) }
{
    match known {
        Known::Number(_) => false,
        Known::Context(_) => false,
        Known::Stack(_) => true,
        Known::Lent(_) => false,
    }
}

/// What is known of a number, or of how far an address is behind its region's start.
pub fn quantity_of(known: Known) -> Option<Quantity>
    ensures { option_map estimate_of result ≡ estimate_in (content_of known) }
{
    match known {
        Known::Number(quantity) => Some(quantity),
        Known::Context(_) => None,
        Known::Stack(_) => None,
        Known::Lent(address) => Some(address.offset),
    }
}

/// The number at a place, or the distance from its region's start of an address there, where it is one for sure.
pub fn one_of(known: Known) -> Option<i64>
    ensures { result ≡ one_in (content_of known) }
{
    let quantity = quantity_of(known)?;
    signed(quantity.only()?)
}

fn is_same_region(a: Region, b: Region) -> bool
    ensures { result ≡ is_same_region a b }
{
    match (a, b) {
        (Region::Text, Region::Text) => true,
        (Region::Text, Region::Link) => false,
        (Region::Link, Region::Text) => false,
        (Region::Link, Region::Link) => true,
    }
}

/// Whether a number of which this is the tail and these bytes are within the region.
fn by_tail(tail: Option<u32>, bytes: i64) -> bool
    ensures { result ≡ by_tail tail bytes }
{
    match tail {
        Some(tail) => bytes <= i64::from(tail),
        None => false,
    }
}

/// Whether this end is within a region that has at least so many bytes.
fn by_length(least: u64, end: Option<i64>) -> bool
    requires { least < 2 ^ 63 }
    ensures { result ≡ by_length least end }
{
    match end {
        Some(end) => end <= small(least),
        None => false,
    }
}

/// Whether a number, or as far behind the region's start, and these bytes are within the region.
#[tactic(auto, unfolding(crate::specs::Wanted::ends_within))]
fn ends_within(bounds: Bounds, region: Region, bytes: i64, quantity: &Quantity) -> bool
    ensures { result ≡ ends_within (least_of bounds) region bytes (estimate_of quantity.now) }
{
    by_tail(quantity.tails.of(region), bytes)
        || by_length(bounds.of(region), moved(quantity.range.high, bytes))
}

/// Whether a number and these bytes, or an address and these bytes, are within the region.
fn is_within(bounds: Bounds, region: Region, bytes: i64, known: Known) -> bool
    ensures { result ≡ is_within (least_of bounds) region bytes (content_of known) }
{
    match known {
        Known::Number(quantity) => ends_within(bounds, region, bytes, &quantity),
        Known::Context(_) => false,
        Known::Stack(_) => false,
        Known::Lent(address) => {
            is_same_region(address.region, region)
                && ends_within(bounds, region, bytes, &address.offset)
        }
    }
}

/// Whether an address is at least so far behind its region's start.
fn is_behind(bytes: i64, known: Known) -> bool
    ensures { result ≡ is_behind bytes (content_of known) }
{
    match quantity_of(known) {
        Some(quantity) => begins_behind(bytes, signed(quantity.range.low)),
        None => false,
    }
}

fn begins_behind(bytes: i64, low: Option<i64>) -> bool
    ensures { result ≡ begins_behind bytes low }
{
    match low {
        Some(low) => bytes <= low,
        None => false,
    }
}

fn is_at_most(most: u64, known: Known) -> bool
    ensures { result ≡ is_at_most most (content_of known) }
{
    match known {
        Known::Number(quantity) => quantity.range.high <= most,
        Known::Context(_) => false,
        Known::Stack(_) => false,
        Known::Lent(_) => false,
    }
}

#[tactic(auto, unfolding(crate::specs::Wanted::is_met))]
fn is_met(bounds: Bounds, need: Need, known: Known) -> bool
    ensures { result ≡ is_met (least_of bounds) need (content_of known) }
{
    match need {
        Need::Set => true,
        Need::Number => is_number(known),
        Need::OneNumber => is_number(known) && one_of(known).is_some(),
        Need::Address => !is_number(known),
        Need::StackAddress => is_in_stack(known),
        Need::Within(region, bytes) => is_within(bounds, region, bytes, known),
        Need::Behind(_, bytes) => is_behind(bytes, known),
        Need::AtMost(most) => is_at_most(most, known),
    }
}

/// Whether all these bytes of the stack are set.
fn are_known(state: &AbsState, first: usize, count: usize) -> bool
    ensures { result ≡ (nat_le (first + count) 512 && are_set (situation_of state.now).slots first count) }
{
    match first.checked_add(count) {
        Some(end) => end <= 512 && are_set(&state.stack, first, count),
        None => false,
    }
}

/// Whether a value meets it, if it is one.
fn is_met_by(bounds: Bounds, need: Need, known: Option<Known>) -> bool
    ensures { result ≡ option_map_or (is_met (least_of bounds) need) (option_map content_of known) false }
{
    match known {
        Some(known) => is_met(bounds, need, known),
        None => false,
    }
}

fn is_known_at(state: &AbsState, place: Place, need: Need) -> bool
    ensures { result ≡ is_known_at (situation_of state.now) place need }
{
    match place {
        Place::Register(_) => is_met_by(state.bounds, need, held(state, place)),
        Place::Eight(_) => is_met_by(state.bounds, need, held(state, place)),
        Place::Bytes(first, count) => are_known(state, first, count),
    }
}

impl Wanted {
    /// Whether it is known.
    pub fn is_known(&self, state: &AbsState) -> bool
        ensures { result ≡ is_known (situation_of state.now) self.now }
    {
        is_known_at(state, self.place, self.need)
    }
}
