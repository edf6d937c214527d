use change_history::refusal::SubmitError;
use change_ops::change::Change;

/// What is answered of a change that was accepted.
#[derive(Drop)]
pub struct Accepted {
    /// How many changes were accepted by then, this one too.
    pub number: u64,
    /// The change, for whoever is to be told of it.
    pub change: Change,
}

/// What a history answers to one change.
pub type Answer = Result<Accepted, SubmitError>;
