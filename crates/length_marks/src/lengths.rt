//! Fields of the context that say a region's length, or the address of its end.
ghost use Rattle.std.specs.Prelude.{◌≡◌};
ghost use Rattle.abstract_state.specs.Situation.{register_of, registers_of};
ghost use Rattle.length_marks.specs.Lengths as rules;

use crate::names::name_of;
use abstract_state::known::Known;
use abstract_state::region::Region;
use abstract_state::state::{AbsReg, AbsState};
use bpf_words::instruction::Width;
use bpf_words::register::Register;
use span_context::context_field::ContextField;
use span_context::size::Size;
use value_marks::mark::Mark;

/// The mark of a region's length.
fn length_mark(region: Region) -> Mark
    ensures { result ≡ rules.length_mark region }
{
    Mark {
        origin: name_of(region),
        addend: 0,
        width: Width::Full,
    }
}

/// The mark of the address of a region's end.
fn end_mark(region: Region) -> Mark
    ensures { result ≡ rules.end_mark region }
{
    Mark {
        origin: name_of(region),
        addend: region.base(),
        width: Width::Full,
    }
}

/// The mark of what a load of the size gives at an offset in the context.
#[tactic(auto, unfolding(crate::specs::Lengths::mark_of_field))]
fn mark_of_field(size: Size, offset: u64) -> Option<Mark>
    ensures { result ≡ rules.mark_of_field size offset }
{
    match size {
        Size::Word => {
            if offset == ContextField::Length.offset() {
                Some(length_mark(Region::Text))
            } else if offset == ContextField::LinkLength.offset() {
                Some(length_mark(Region::Link))
            } else {
                None
            }
        }
        Size::Double => {
            if offset == ContextField::End.offset() {
                Some(end_mark(Region::Text))
            } else if offset == ContextField::LinkEnd.offset() {
                Some(end_mark(Region::Link))
            } else {
                None
            }
        }
        Size::Byte | Size::Half => None,
    }
}

/// The mark of what a load of the size gives at an offset from what a register holds.
#[tactic(auto, unfolding(crate::specs::Lengths::mark_at))]
fn mark_at(size: Size, base: AbsReg, offset: i16) -> Option<Mark>
    ensures { result ≡ rules.mark_at size (register_of base) offset }
{
    let AbsReg::Set(Known::Context(address)) = base else {
        return None;
    };
    let place = address
        .offset
        .wrapping_add(i64::from(offset).cast_unsigned());
    mark_of_field(size, place)
}

/// The mark of what a load gives, by what its base holds.
pub fn mark_by(size: Size, known: &AbsState, base: Register, offset: i16) -> Option<Mark>
    ensures { result ≡ rules.mark_at size (registers_of known.now.registers base) offset }
{
    mark_at(size, known.registers[base.index()], offset)
}
