//! Names that no slot has, and those that are made anew.
ghost use Rattle.std.specs.Prelude.{◌≡◌, ℕ, ◌<◌};
ghost use Rattle.abstract_state.specs.declared.region.Region.{Region as TheRegion};
ghost use Rattle.value_marks.specs.Mark.{mark_at};
ghost use Rattle.value_marks.specs.Marking.{Marking, IsMarking};
ghost use Rattle.length_marks.specs.Names as rules;

use abstract_state::region::Region;
use value_marks::mark::Mark;
use value_marks::marks::Marks;

/// The name of the text's length.
pub const TEXT_LENGTH: usize = 4096;

/// The name of the length of the link's text.
pub const LINK_LENGTH: usize = 4097;

/// The name of a region's length.
pub fn name_of(region: Region) -> usize
    ensures { result ≡ rules.name_of region }
{
    match region {
        Region::Text => TEXT_LENGTH,
        Region::Link => LINK_LENGTH,
    }
}

/// A mark, unless its name is that of the slot.
fn unless_named(at: usize, mark: Option<Mark>) -> Option<Mark>
    ensures { result ≡ rules.unless_named at mark }
{
    let mark = mark?;
    if mark.origin == at { None } else { Some(mark) }
}

fn drop_registers(registers: &mut [Option<Mark>; 11], at: usize)
    ensures { (k : ℕ) → k < 11 → mark_at registers.new k ≡ rules.unless_named at (mark_at registers.old k) }
{
    for i in 0..11 {
        registers[i] = unless_named(at, registers[i]);
    }
}

fn drop_slots(slots: &mut [Option<Mark>; 64], at: usize)
    ensures { (k : ℕ) → k < 64 → mark_at slots.new k ≡ rules.unless_named at (mark_at slots.old k) }
{
    for i in 0..64 {
        slots[i] = unless_named(at, slots[i]);
    }
}

/// Drops the marks whose name is that of the slot.
pub fn drop_name(marks: &mut Marks, at: usize)
    ensures { (w : Marking) → IsMarking marks.old w → IsMarking marks.new (rules.without at w) }
{
    drop_registers(&mut marks.registers, at);
    drop_slots(&mut marks.slots, at);
}
