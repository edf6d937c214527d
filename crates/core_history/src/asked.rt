//! What a call was given, where the core has used it up before the call is recorded.
use std::marker::Brand;

/// Which call is made. Each picks it.
pub(crate) trait Asked {
    ghost use Rattle.subscriber_queues.specs.Queue.{QueueSink};
    ghost use Rattle.core_history.specs.Runs.{CoreCall};

    ghost call: { CoreCall QueueSink };
}

impl Asked for Brand {
    ghost use Rattle.core_history.specs.declared.entry.Call.TheVariants.{TakeJob};

    ghost call = { TakeJob };
}
