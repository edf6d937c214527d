//! Ways that lead to a slot.
ghost use Rattle.std.specs.Prelude.{◌≡◌, ◌++◌, [], if◌then◌else◌, IfOk};
ghost use Rattle.known_ways.specs.Told.{ways_seen, way_from};

use abstract_state::state::AbsState;
use std::alloc::AllocError;

/// What is known on one way to a slot.
#[derive(Clone, Copy)]
pub struct KnownWay {
    /// The slot of the instruction from which it leads there.
    pub from: usize,
    pub known: AbsState,
}

/// Appends the way that leads from a slot, if a run may come along it.
fn push_known(
    ways: &mut Vec<KnownWay>,
    from: usize,
    known: &Option<AbsState>,
) -> Result<(), AllocError>
    ensures { IfOk result (λ _. ways_seen ways.new.items ≡ ways_seen ways.old.items ++ way_from from known.now) }
{
    match known {
        Some(known) => {
            let way = KnownWay {
                from,
                known: *known,
            };
            ways.push(way)?;
            Ok(())
        }
        None => Ok(()),
    }
}

/// The same, if that leads where one asks.
pub(crate) fn push_way(
    ways: &mut Vec<KnownWay>,
    leads: bool,
    from: usize,
    known: &Option<AbsState>,
) -> Result<(), AllocError>
    ensures { IfOk result (λ _. ways_seen ways.new.items
        ≡ ways_seen ways.old.items ++ (if leads then way_from from known.now else [])) }
{
    if leads {
        push_known(ways, from, known)
    } else {
        Ok(())
    }
}
