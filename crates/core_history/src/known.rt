//! What is known of values of a hub, whatever hub it is and when the values are gone. No value of these types is made.
use filters::filter::Filter;
use std::marker::Model;
use version_pieces::version::PieceVersion;

/// What is known of a token: its index, and the value that is there.
pub struct KnownToken<T> {
    pub index: u64,
    pub value: T,
}

impl<T> Model for KnownToken<T> {
    ghost use Rattle.std.specs.Coded.{codes};
    ghost use Rattle.version_history.specs.Tokens.{Token};

    ghost Value = { Token T };

    ghost coded = { Prim.hlevel (codes, T.code) };

    ghost view = { λ t. record { index = t.index; value = t.value } };
}

/// What is known of a program's token.
pub type KnownProgram = KnownToken<Filter>;

/// What is known of a version's token.
pub type KnownVersion = KnownToken<PieceVersion>;

/// What is known of a job.
pub struct KnownJob {
    pub subscriber: usize,
    pub number: u64,
    pub program: KnownProgram,
    pub version: KnownVersion,
}

impl Model for KnownJob {
    ghost use Rattle.feeds.specs.Batches.{Job};

    ghost Value = { Job };

    ghost view = { λ j. record {
      subscriber = j.subscriber;
      number = j.number;
      program = j.program;
      version = j.version;
    } };
}

/// What is known of the hub's end of a subscriber's queue.
pub struct KnownSink;

impl Model for KnownSink {
    ghost use Rattle.std.specs.Prelude.{[], None, false};
    ghost use Rattle.call_history.specs.Rules.{no_table};
    ghost use Rattle.subscriber_queues.specs.Queue.{QueueSink};

    ghost Value = { QueueSink };

    // A clause names whatever sink it is of; a value, which is never made, would be this one.
    ghost view = { λ s. record { line = no_table; sent = []; capacity = 0; promise = None; sends = false } };
}
