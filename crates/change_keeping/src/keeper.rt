//! What keeps a session's changes.
use change_history::refusal::SubmitError;
use change_ops::change::Change;

/// Why a change is not kept.
#[derive(Clone, Copy)]
pub enum KeepError {
    /// It is not accepted after those that are kept.
    Refused(SubmitError),
    /// What keeps changes failed: it isn't known what is kept, and nothing is kept any more.
    Failed,
}

/// Keeps changes for good before they are shown, or has nothing to keep.
pub trait Keeper {
    ghost use Rattle.std.specs.Prelude.{◌≡◌, Bool, IfOk, IfErr};
    ghost use Rattle.change_keeping.specs.Kept.{Kept, IsKeptAs, IsNotKept};

    /// At which size changes are kept, and what their texts meet.
    ghost kept: { Kept };

    /// Whether it keeps any.
    ghost stores: { Self → Bool };

    /// Keeps a change, and answers its number among all that are kept; None where it keeps none.
    fn keep(&mut self, change: &Change) -> Result<Option<u64>, KeepError>
        ensures ok { IfOk result (IsKeptAs kept (stores self.old) change.now) }
        ensures err { IfErr result (IsNotKept kept (stores self.old) change.now) }
        ensures same { stores self.new ≡ stores self.old };

    /// Whether the change that was kept last is now shown, under its number. Where it isn't, nothing is kept any more.
    fn settle(&mut self, is_shown: bool)
        ensures same { stores self.new ≡ stores self.old };
}

/// No store: nothing is kept, at whatever size.
#[derive(Clone, Copy)]
pub struct NoStore;

impl Keeper for NoStore {
    ghost use Rattle.std.specs.Prelude.{false};
    ghost use Rattle.change_ops.specs.declared.size.Size.TheVariants.{Small};
    ghost use Rattle.change_keeping.specs.Kept.{none_kept};

    ghost kept = { none_kept Small };

    ghost stores = { λ _. false };

    fn keep(&mut self, _change: &Change) -> Result<Option<u64>, KeepError> {
        Ok(None)
    }

    fn settle(&mut self, _is_shown: bool) {}
}
