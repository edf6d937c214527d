ghost use Rattle.std.specs.Prelude.{◌≡◌, ◌≤◌, List, length, IfOk};
ghost use Rattle.std.specs.List.{flat_map};
ghost use Rattle.std.specs.String.{string_bytes};
ghost use Rattle.change_ops.specs.Changes.{Change as ChangeValue};
ghost use Rattle.change_ops.specs.Spelling.{change_text};
ghost use Rattle.change_ops.specs.declared.size.Size.{Size};
ghost use Rattle.change_join.specs.Groups.{AreGroups};
ghost use Rattle.change_join.specs.Joined.{joined};
ghost use Rattle.change_join.specs.Replacing.{Replaces};

use crate::joint::Joint;
use change_ops::change::Change;
use std::alloc::{AllocError, Global};

/// The texts of the changes, each joined with those before it where they are of one peer and have together no more
/// operations than a change may.
pub fn joined_text(alloc: Global, changes: &[Change]) -> Result<String, AllocError>
    ensures { IfOk result (λ text. string_bytes text ≡ flat_map change_text (joined changes.now)) }
{
    let mut text = String::new(alloc);
    let Some((first, others)) = changes.split_first() else {
        return Ok(text);
    };
    let mut joint = Joint::of(alloc, first)?;
    for change in others {
        if joint.can_take(change) {
            joint.take(change)?;
        } else {
            joint.write(&mut text)?;
            joint = Joint::of(alloc, change)?;
        }
    }
    joint.write(&mut text)?;
    Ok(text)
}

/// The joined changes have the same operations, and are accepted where the changes are, at each size.
pub fn joined_replace()
    ensures { (size : Size) (changes : List ChangeValue) → Replaces size changes (joined changes) }
{}

/// However whole neighboring changes are put together, no fewer are enough.
pub fn joined_are_fewest()
    ensures { (changes : List ChangeValue) (groups : List (List ChangeValue)) → AreGroups changes groups
        → length (joined changes) ≤ length groups }
{}
