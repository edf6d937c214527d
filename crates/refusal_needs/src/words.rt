//! What is wanted, in words.
ghost use Rattle.std.specs.Prelude.{◌≡◌, ◌++◌, ◌+◌, ◌-◌, ◌<◌, codes, OnOk, string_bytes};
ghost use Rattle.std.specs.Fmt.{decimal};
ghost use Rattle.abstract_state.specs.Situation.{situation_of};
ghost use Rattle.refusal_needs.specs.Wanted.{byte_text, last_text, place_text, difference_text, region_text, end_text};
ghost use Rattle.refusal_needs.specs.Wanted.{behind_text, need_text, is_number_at, wanted_text};

use crate::wanted::{Need, Place, Wanted, held, is_number};
use abstract_state::region::Region;
use abstract_state::state::AbsState;
use std::alloc::AllocError;

/// Appends a byte of the stack that is so far below the stack's end.
fn push_below(text: &mut String, below: usize) -> Result<(), AllocError>
    ensures { OnOk result (string_bytes text.new ≡ string_bytes text.old
        ++ codes "[stack-" ++ decimal below ++ codes "]") }
{
    write!(text, "[stack-{below}]")
}

/// Appends a byte of the stack, by how far it is below the stack's end.
fn push_byte(text: &mut String, offset: usize) -> Result<(), AllocError>
    ensures { OnOk result (string_bytes text.new ≡ string_bytes text.old ++ byte_text offset) }
{
    push_below(text, 512_usize.saturating_sub(offset))
}

/// How far the last of bytes is below the stack's end.
fn last_below(first: usize, count: usize) -> usize
    requires { 1 < count }
    ensures { result ≡ 512 - (first + count - 1) }
{
    512_usize.saturating_sub(first.saturating_add(count - 1))
}

/// Appends the last of bytes behind the first.
fn push_last(text: &mut String, first: usize, count: usize) -> Result<(), AllocError>
    ensures { OnOk result (string_bytes text.new ≡ string_bytes text.old ++ last_text first count) }
{
    if count > 1 {
        text.push_str(" to ")?;
        push_below(text, last_below(first, count))?;
    }
    Ok(())
}

/// Appends the first and the last of bytes of the stack.
fn push_bytes(text: &mut String, first: usize, count: usize) -> Result<(), AllocError>
    ensures { OnOk result (string_bytes text.new ≡ string_bytes text.old ++ place_text (Place.Bytes first count)) }
{
    push_byte(text, first)?;
    push_last(text, first, count)
}

pub fn push_place(text: &mut String, place: Place) -> Result<(), AllocError>
    ensures { OnOk result (string_bytes text.new ≡ string_bytes text.old ++ place_text place) }
{
    match place {
        Place::Register(number) => write!(text, "r{number}"),
        Place::Eight(index) => push_byte(text, index.saturating_mul(8)),
        Place::Bytes(first, count) => push_bytes(text, first, count),
    }
}

/// Appends what is added to a value, or taken from it.
pub fn push_difference(text: &mut String, bytes: i64) -> Result<(), AllocError>
    ensures { OnOk result (string_bytes text.new ≡ string_bytes text.old ++ difference_text bytes) }
{
    if bytes > 0 {
        write!(text, " + {bytes}")
    } else if bytes < 0 {
        let taken = bytes.unsigned_abs();
        write!(text, " - {taken}")
    } else {
        Ok(())
    }
}

/// The name of a lent region.
fn name_of(region: Region) -> &'static str
    ensures { result.now ≡ region_text region }
{
    match region {
        Region::Text => "text",
        Region::Link => "link",
    }
}

fn end_of(number: bool) -> &'static str
    ensures { result.now ≡ end_text number }
{
    if number { " length" } else { " end" }
}

/// Whether the value at a place is a number; also where nothing is known of it.
fn is_number_at(state: &AbsState, place: Place) -> bool
    ensures { result ≡ is_number_at (situation_of state.now) place }
{
    match held(state, place) {
        Some(known) => is_number(known),
        None => true,
    }
}

fn push_set(text: &mut String, place: Place) -> Result<(), AllocError>
    ensures { OnOk result (string_bytes text.new ≡ string_bytes text.old ++ place_text place ++ codes " set") }
{
    push_place(text, place)?;
    text.push_str(" set")
}

/// Appends which kind of value is wanted at a place.
fn push_kind(text: &mut String, kind: &str, place: Place) -> Result<(), AllocError>
    ensures { OnOk result (string_bytes text.new ≡ string_bytes text.old ++ kind.now ++ place_text place) }
{
    text.push_str(kind)?;
    push_place(text, place)
}

fn push_stack_address(text: &mut String, place: Place) -> Result<(), AllocError>
    ensures { OnOk result (string_bytes text.new ≡ string_bytes text.old
        ++ codes "an address in the stack in " ++ place_text place) }
{
    text.push_str("an address in the stack in ")?;
    push_place(text, place)
}

fn push_within(
    text: &mut String,
    number: bool,
    place: Place,
    region: Region,
    bytes: i64,
) -> Result<(), AllocError>
    ensures { OnOk result (string_bytes text.new ≡ string_bytes text.old
        ++ need_text number (place_text place) (Need.Within region bytes)) }
{
    push_place(text, place)?;
    push_difference(text, bytes)?;
    text.push_str(" <= ")?;
    text.push_str(name_of(region))?;
    text.push_str(end_of(number))
}

/// Appends with what a value is compared that is to be no less than that.
fn push_start(text: &mut String, number: bool, region: Region, bytes: i64) -> Result<(), AllocError>
    ensures { OnOk result (string_bytes text.new ≡ string_bytes text.old ++ behind_text number region bytes) }
{
    if number {
        return write!(text, "{bytes}");
    }
    text.push_str(name_of(region))?;
    text.push_str(" start")?;
    push_difference(text, bytes)
}

fn push_behind(
    text: &mut String,
    number: bool,
    place: Place,
    region: Region,
    bytes: i64,
) -> Result<(), AllocError>
    ensures { OnOk result (string_bytes text.new ≡ string_bytes text.old
        ++ need_text number (place_text place) (Need.Behind region bytes)) }
{
    push_place(text, place)?;
    text.push_str(" >= ")?;
    push_start(text, number, region, bytes)
}

fn push_at_most(text: &mut String, place: Place, most: u64) -> Result<(), AllocError>
    ensures { OnOk result (string_bytes text.new ≡ string_bytes text.old
        ++ place_text place ++ codes " <= " ++ decimal most) }
{
    push_place(text, place)?;
    write!(text, " <= {most}")
}

/// Appends what is wanted of the value at a place, which is a number or an address.
fn push_need(text: &mut String, number: bool, place: Place, need: Need) -> Result<(), AllocError>
    ensures { OnOk result (string_bytes text.new ≡ string_bytes text.old
        ++ need_text number (place_text place) need) }
{
    match need {
        Need::Set => push_set(text, place),
        Need::Number => push_kind(text, "a number in ", place),
        Need::OneNumber => push_kind(text, "one number in ", place),
        Need::Address => push_kind(text, "an address in ", place),
        Need::StackAddress => push_stack_address(text, place),
        Need::Within(region, bytes) => push_within(text, number, place, region, bytes),
        Need::Behind(region, bytes) => push_behind(text, number, place, region, bytes),
        Need::AtMost(most) => push_at_most(text, place, most),
    }
}

impl Wanted {
    /// Appends it in words, by what is known of the value.
    #[tactic(auto, unfolding(crate::specs::Wanted::wanted_text))]
    pub fn push(&self, text: &mut String, state: &AbsState) -> Result<(), AllocError>
        ensures { OnOk result (string_bytes text.new ≡ string_bytes text.old
            ++ wanted_text (situation_of state.now) self.now) }
    {
        push_need(text, is_number_at(state, self.place), self.place, self.need)
    }
}
