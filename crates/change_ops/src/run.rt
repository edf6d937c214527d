//! Characters that were typed one after the other.
ghost use Rattle.std.specs.Prelude.{◌≡◌, ℕ, ◌+◌, ◌^◌, ◌<◌, ◌≤◌, IsTrue, Some, length, slice_get};
ghost use Rattle.change_ops.specs.Runs.{inserts_of, run_within, run_has_characters};

use crate::character::Character;
use crate::id::OpId;
use crate::operation::Op;
use std::marker::Model;

/// A run: 2 to 256 characters, each but the first after the one before it and with the counter greater by one.
pub struct Run {
    pub(crate) id: OpId,
    pub(crate) parent: Option<OpId>,
    pub(crate) characters: Vec<Character>,
}

impl Drop for Run {
    fn drop(self) {
        let Run {
            id: _,
            parent: _,
            characters: _,
        } = self;
    }
}

impl Model for Run {
    ghost use Rattle.std.specs.Prelude.{IsTrue, ◌&&◌};
    ghost use Rattle.change_ops.specs.Runs.{Run as RunValue, run_within, run_has_characters};

    ghost Value = { RunValue };

    ghost view = { λ r. record { id = r.id; parent = r.parent; characters = r.characters.items } };

    ghost invariant = { λ r. IsTrue (run_within
        (record { id = r.id; parent = r.parent; characters = r.characters.items })
        && run_has_characters (record { id = r.id; parent = r.parent; characters = r.characters.items })) };
}

impl Run {
    /// The id of the first character.
    pub fn id(&self) -> OpId
        ensures { result ≡ self.now.id }
    {
        self.id
    }

    /// What the first character stands after: another one, or the text's start.
    pub fn parent(&self) -> Option<OpId>
        ensures { result ≡ self.now.parent }
    {
        self.parent
    }

    /// The characters in order.
    pub fn characters(&self) -> &[Character]
        ensures value { result.now ≡ self.now.characters }
        ensures limits { IsTrue (run_within self.now) }
    {
        self.characters.as_slice()
    }

    /// The insert of the character at an index.
    pub fn insert(&self, index: usize) -> Op
        requires { index < length self.now.characters }
        ensures { slice_get (inserts_of self.now) index ≡ Some result }
    {
        let id = self.id.later(index);
        let parent = match index {
            0 => self.parent,
            _ => Some(self.id.later(index - 1)),
        };
        Op::Insert {
            id,
            parent,
            character: self.characters[index],
        }
    }
}
