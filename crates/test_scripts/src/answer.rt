use crate::findings::push_findings;
use change_history::refusal::SubmitError;
use change_ops::refusal::ChangeError;
use feeds::item::Finding;
use hub_core::error::{CommitError, NoSubscriber, SubscribeError};
use ingest_workers::ingest::HubError;
use std::alloc::{AllocError, Global};
use subscriber_queues::ends::QueueError;

/// What an event answers.
#[derive(Clone, Copy)]
pub enum Answer {
    Done,
    Number(u64),
    /// Of a subscriber and a version.
    Job(usize, u64),
    /// The findings that were found last.
    Found,
}

/// Why an event has no answer.
#[derive(Clone, Copy)]
pub enum Fault {
    Hub(HubError),
    Subscribe(SubscribeError),
    Commit(CommitError),
    Missing(NoSubscriber),
    Queue(QueueError),
    /// There is no job, batch, item or program.
    Nothing,
    /// It took too long.
    Late,
    NoEvent,
    Memory,
}

impl From<HubError> for Fault {
    fn from(error: HubError) -> Fault {
        Fault::Hub(error)
    }
}

impl From<ChangeError> for Fault {
    fn from(error: ChangeError) -> Fault {
        Fault::Hub(HubError::Change(error))
    }
}

impl From<SubscribeError> for Fault {
    fn from(error: SubscribeError) -> Fault {
        Fault::Subscribe(error)
    }
}

impl From<CommitError> for Fault {
    fn from(error: CommitError) -> Fault {
        Fault::Commit(error)
    }
}

impl From<NoSubscriber> for Fault {
    fn from(error: NoSubscriber) -> Fault {
        Fault::Missing(error)
    }
}

impl From<QueueError> for Fault {
    fn from(error: QueueError) -> Fault {
        Fault::Queue(error)
    }
}

impl From<AllocError> for Fault {
    fn from(_error: AllocError) -> Fault {
        Fault::Memory
    }
}

/// The error, with the index of the line that is refused.
fn hub_error_text(alloc: Global, error: HubError) -> Result<String, AllocError> {
    match error {
        HubError::Submit(SubmitError::Refused { index, refusal }) => {
            format!(in alloc; "{refusal} op {index}")
        }
        _ => format!(in alloc; "{error}"),
    }
}

fn fault_text(alloc: Global, fault: Fault) -> Result<String, AllocError> {
    match fault {
        Fault::Hub(error) => hub_error_text(alloc, error),
        Fault::Subscribe(error) => format!(in alloc; "{error}"),
        Fault::Commit(error) => format!(in alloc; "{error}"),
        Fault::Missing(error) => format!(in alloc; "{error}"),
        Fault::Queue(error) => format!(in alloc; "{error}"),
        Fault::Nothing => String::from_str(alloc, "none"),
        Fault::Late => String::from_str(alloc, "late"),
        Fault::NoEvent => String::from_str(alloc, "no event"),
        Fault::Memory => Err(AllocError),
    }
}

/// The text of what a call answers that finds no memory.
pub fn without_memory(call: &str) -> Fault {
    match call {
        "sub" => Fault::Subscribe(SubscribeError::OutOfMemory),
        "commit" => Fault::Commit(CommitError::OutOfMemory),
        "queue" => Fault::Queue(QueueError::OutOfMemory),
        _ => Fault::NoEvent,
    }
}

fn answer_text(alloc: Global, answer: Answer) -> Result<String, AllocError> {
    match answer {
        Answer::Done => String::from_str(alloc, "done"),
        Answer::Number(number) => format!(in alloc; "{number}"),
        Answer::Job(subscriber, version) => format!(in alloc; "{subscriber} {version}"),
        Answer::Found => Ok(String::new(alloc)),
    }
}

/// Tells what an event answered, with what it found; an answer to an event that isn't told of only where it is a fault.
pub fn tell(
    alloc: Global,
    told: &mut String,
    line: (&str, bool),
    answer: Result<Answer, Fault>,
    found: &[Finding],
) -> Result<(), AllocError> {
    let (key, is_untold) = line;
    if is_untold && answer.is_ok() {
        return Ok(());
    }
    told.push_str(key)?;
    told.push_str(": ")?;
    match answer {
        Ok(Answer::Found) => push_findings(alloc, told, found)?,
        Ok(answer) => told.push_str(answer_text(alloc, answer)?.as_str())?,
        Err(fault) => told.push_str(fault_text(alloc, fault)?.as_str())?,
    }
    told.push('\n')
}
