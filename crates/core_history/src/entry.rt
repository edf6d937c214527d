//! What a core's history consists of.
use crate::known::{KnownJob, KnownProgram, KnownSink, KnownVersion};
use call_history::knowledge::{Board, HistoryPass, Lawful};
use call_history::token::Token;
use change_ops::change::Change;
use hub_core::run::Reply;

/// A call of a core, with what it was given. `P` is a program's token, `S` a sink, `J` a job. No value of it is made.
pub enum Call<P, S, J> {
    Submit(Change),
    Subscribe(P, S),
    /// From a version on.
    SubscribeFrom(P, S, u64),
    TakeJob,
    /// Of the batch of this job.
    Commit(J),
    Pump(usize),
    Reissue(usize),
    Close(usize),
}

/// An entry of a core's history. `V` is a version's token. No value of it is made.
pub enum Entry<P, S, V, J> {
    /// The core was made, with this token of version 0.
    Started(V),
    /// It was called, and answered this.
    Called(Call<P, S, J>, Reply<V, J>),
}

/// An entry of the history of a core. It names no hub, so that a token of the history needs no more of one than the
/// history's name.
pub type CoreEntry = Entry<KnownProgram, KnownSink, KnownVersion, KnownJob>;

/// What the threads that call a core share of its history, beside the lock.
pub type CoreBoard = Board<CoreEntry>;

/// A pass of a core's history.
pub type CorePass = HistoryPass<CoreEntry>;

/// What a caller has seen of a core's history, and the places of its own calls in it.
pub type CoreToken<N> = Token<N, CoreEntry>;

impl Lawful for Entry<KnownProgram, KnownSink, KnownVersion, KnownJob> {
    ghost use Rattle.core_history.specs.Lawful.{IsLawful};

    ghost legal = { IsLawful };
}
