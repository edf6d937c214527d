//! Characters that have one format.
ghost use Rattle.std.specs.Prelude.{◌≡◌, ◌<◌, ◌+◌, ◌-◌, ◌^◌, IfOk};
ghost use Rattle.format_runs.specs.Budgets.{format_bytes};

use mark_anchors::format::Format;
use memory_budget::Budget;
use std::alloc::{AllocError, Global};
use std::marker::Model;
use std::sync::Arc;

/// What a format takes that runs share: the counted value, and the handle of its link.
const FORMAT_BYTES: usize = 128;

/// So many characters of a format, which runs share. Contracts see the format and the number.
pub struct Run {
    format: Arc<Format, Global>,
    characters: usize,
}

impl Drop for Run {
    fn drop(self) {
        let Run {
            format: _,
            characters: _,
        } = self;
    }
}

impl Model for Run {
    ghost use Rattle.std.specs.Arc.{arc_value};
    ghost use Rattle.format_runs.specs.Runs.{Run as RunValue};

    ghost Value = { RunValue };

    ghost view = { λ r. record { format = arc_value r.format; characters = r.characters } };
}

impl Run {
    /// So many characters of a format. It is the one way to make a format that other runs don't have already, and it is
    /// paid for.
    pub(crate) fn new(
        alloc: Global,
        format: &Format,
        characters: usize,
        budget: &mut Budget,
    ) -> Result<Run, AllocError>
        ensures run { IfOk result (λ run. run ≡ record { format = format.now; characters = characters }) }
        ensures paid { budget.new ≡ budget.old - format_bytes }
    {
        budget.pay(FORMAT_BYTES);
        let format = Arc::new(alloc, format.clone()?)?;
        Ok(Run { format, characters })
    }

    /// So many characters of the same format, which isn't copied.
    pub(crate) fn of_size(&self, characters: usize) -> Result<Run, AllocError>
        ensures { IfOk result (λ run. run ≡ record { format = self.now.format; characters = characters }) }
    {
        let format = Arc::try_clone(&self.format)?;
        Ok(Run { format, characters })
    }

    /// The characters' format.
    pub fn format(&self) -> &Format
        ensures { result.now ≡ self.now.format }
    {
        &self.format
    }

    /// How many characters there are.
    pub fn characters(&self) -> usize
        ensures { result ≡ self.now.characters }
    {
        self.characters
    }

    /// The run with so many characters more.
    pub(crate) fn longer(self, more: usize) -> Run
        requires { self.characters + more < 2 ^ 63 }
        ensures { result ≡ record { format = self.format; characters = self.characters + more } }
    {
        let Run { format, characters } = self;
        Run {
            format,
            characters: characters + more,
        }
    }
}
