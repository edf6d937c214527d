//! What is known on the ways that join at a slot.
ghost use Rattle.std.specs.Prelude.{◌≡◌, ◌++◌, ◌<◌, length, OnOk, string_bytes};
ghost use Rattle.std.specs.List.{flat_map};
ghost use Rattle.known_ways.specs.Told.{way_seen, ways_seen};
ghost use Rattle.program_listing.specs.Listing.{number_behind, numbers_behind, sources_text, way_text, ways_text};

use known_lines::lines::KnownLines;
use known_ways::way::KnownWay;
use span_context::profile::Profile;
use std::alloc::{AllocError, Global};

/// Of so many ways to a slot it is said what was known on each.
const MOST_WAYS: usize = 8;

/// Appends from where a way leads, behind a comma.
fn push_number(text: &mut String, way: &KnownWay) -> Result<(), AllocError>
    ensures { OnOk result (string_bytes text.new ≡ string_bytes text.old ++ number_behind (way_seen way.now)) }
{
    write!(text, ", {}", way.from)
}

/// Appends from where ways lead, behind a comma each.
fn push_numbers(text: &mut String, ways: &[KnownWay]) -> Result<(), AllocError>
    ensures { OnOk result (string_bytes text.new ≡ string_bytes text.old ++ numbers_behind (ways_seen ways.now)) }
{
    for index in 0..ways.len() {
        push_number(text, &ways[index])?;
    }
    Ok(())
}

/// Appends from where many ways lead to a slot.
fn push_sources(text: &mut String, ways: &[KnownWay]) -> Result<(), AllocError>
    requires { 0 < length ways.now }
    ensures { OnOk result (string_bytes text.new ≡ string_bytes text.old ++ sources_text (ways_seen ways.now)) }
{
    write!(text, "  from slots {}", ways[0].from)?;
    push_numbers(text, &ways[1..])?;
    text.push('\n')?;
    Ok(())
}

/// Appends what is known on a way and isn't known where it leads.
fn push_way(
    alloc: Global,
    text: &mut String,
    profile: Profile,
    lines: &KnownLines,
    way: &KnownWay,
) -> Result<(), AllocError>
    ensures { OnOk result (string_bytes text.new
        ≡ string_bytes text.old ++ way_text profile lines.now (way_seen way.now)) }
{
    let known = KnownLines::of(alloc, profile, &way.known)?;
    write!(text, "  from slot {}: ", way.from)?;
    known.push_in_line(text, lines)?;
    text.push('\n')
}

/// Appends what is known on each of several ways.
fn push_each(
    alloc: Global,
    text: &mut String,
    profile: Profile,
    lines: &KnownLines,
    ways: &[KnownWay],
) -> Result<(), AllocError>
    ensures { OnOk result (string_bytes text.new
        ≡ string_bytes text.old ++ flat_map (way_text profile lines.now) (ways_seen ways.now)) }
{
    for index in 0..ways.len() {
        push_way(alloc, text, profile, lines, &ways[index])?;
    }
    Ok(())
}

/// Appends what was known on each of several ways to a slot and is something else than what is known there; of many
/// only from where they lead.
#[tactic(auto, unfolding(crate::specs::Listing::ways_text))]
pub(crate) fn push_ways(
    alloc: Global,
    text: &mut String,
    profile: Profile,
    lines: &KnownLines,
    ways: &[KnownWay],
) -> Result<(), AllocError>
    ensures { OnOk result (string_bytes text.new
        ≡ string_bytes text.old ++ ways_text profile lines.now (ways_seen ways.now)) }
{
    if ways.len() > MOST_WAYS {
        push_sources(text, ways)
    } else if ways.len() < 2 {
        Ok(())
    } else {
        push_each(alloc, text, profile, lines, ways)
    }
}
