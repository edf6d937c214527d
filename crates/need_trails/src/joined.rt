//! On which of the ways that join at a slot what is wanted is known.
ghost use Rattle.std.specs.Prelude.{◌≡◌, ◌++◌, OnOk, false, string_bytes};
ghost use Rattle.std.specs.Fmt.{decimal};
ghost use Rattle.known_ways.specs.Told.{ways_seen};
ghost use Rattle.need_trails.specs.Trail.{agrees, between, slots_text, others_text, joined_text};

use crate::knowing::is_unknown_on_some;
use known_ways::way::KnownWay;
use refusal_needs::wanted::Wanted;
use std::alloc::AllocError;

fn agrees(known: bool, is: bool) -> bool
    ensures { result ≡ agrees known is }
{
    if known { is } else { !is }
}

fn between(some: bool) -> &'static str
    ensures { result.now ≡ between some }
{
    if some { ", " } else { " " }
}

/// Appends a slot, behind some others or not.
fn push_slot(text: &mut String, some: bool, slot: usize) -> Result<(), AllocError>
    ensures { OnOk result (string_bytes text.new ≡ string_bytes text.old ++ (between some ++ decimal slot)) }
{
    text.push_str(between(some))?;
    write!(text, "{slot}")
}

/// Appends the slots from which ways lead, those on which what is wanted is known or the others.
fn push_slots(
    text: &mut String,
    ways: &[KnownWay],
    wanted: &Wanted,
    known: bool,
) -> Result<(), AllocError>
    ensures { OnOk result (string_bytes text.new ≡ string_bytes text.old
        ++ slots_text wanted.now known false (ways_seen ways.now)) }
{
    let mut some = false;
    for way in ways {
        if agrees(known, wanted.is_known(&way.known)) {
            push_slot(text, some, way.from)?;
            some = true;
        }
    }
    Ok(())
}

/// Appends on which of the ways it isn't.
fn push_others(text: &mut String, ways: &[KnownWay], wanted: &Wanted) -> Result<(), AllocError>
    ensures { OnOk result (string_bytes text.new ≡ string_bytes text.old
        ++ others_text wanted.now (ways_seen ways.now)) }
{
    if is_unknown_on_some(wanted, ways) {
        text.push_str(", not from")?;
        push_slots(text, ways, wanted, false)?;
    }
    Ok(())
}

/// Appends on which of the ways that join at a slot what is wanted is known.
#[tactic(auto, unfolding(crate::specs::Trail::joined_text))]
pub(crate) fn push_joined(
    text: &mut String,
    ways: &[KnownWay],
    wanted: &Wanted,
    slot: usize,
) -> Result<(), AllocError>
    ensures { OnOk result (string_bytes text.new ≡ string_bytes text.old
        ++ joined_text wanted.now slot (ways_seen ways.now)) }
{
    write!(text, "lost where ways join at slot {slot}: known from")?;
    push_slots(text, ways, wanted, true)?;
    push_others(text, ways, wanted)?;
    text.push('\n')
}
