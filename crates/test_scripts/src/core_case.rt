ghost use Rattle.std.specs.Prelude.{◌≡◌, ◌++◌, ◌∷◌, [], All, IfOk, OnOk};
ghost use Rattle.change_ops.specs.declared.size.Size.TheVariants.{Small};
ghost use Rattle.feeds.specs.Orderly.{ListSink as ListSinkValue};
ghost use Rattle.hub_core.specs.Runs.{IsFreshEvent};

use crate::answer::{Answer, Fault, tell};
use crate::findings::{findings_of, push_end};
use crate::programs::{published_program, push};
use crate::script::{change_text, keep, number, parted, unmarked};
use change_history::refusal::SubmitError;
use change_ops::change::{Change, read_change};
use change_ops::size::Size;
use feeds::item::Job;
use feeds::sink::ListSink;
use filters::filter::Filter;
use hub_core::error::{CommitError, NoSubscriber, SubscribeError};
use hub_core::hub::Core;
use hub_core::run::{Event, Reply, run_events};
use ingest_workers::ingest::HubError;
use std::alloc::{AllocError, Global};
use std::marker::Brand;
use std::sync::Wait;
use version_history::published::{Naming, ProgramToken, Published, VersionToken};
use version_pieces::version::PieceVersion;

type Asked<N> = Event<ProgramToken<N>, ListSink<N>>;

type Replied<N> = Reply<VersionToken<N>, Job<N>>;

/// Plays a case on a new core, whose events are handed to it as a whole.
pub fn play_core<R: Wait>(
    rt: &R,
    alloc: Global,
    lines: &str,
    told: &mut String,
) -> Result<(), AllocError> {
    let versions = boxcar::Vec::new(alloc)?;
    let programs = boxcar::Vec::new(alloc)?;
    let lines = String::from_str(alloc, lines)?;
    on_lists::<Brand, _>(rt, alloc, &versions, &programs, lines, told)
}

fn on_lists<N: Naming, R: Wait>(
    rt: &R,
    alloc: Global,
    versions: &boxcar::Vec<PieceVersion>,
    programs: &boxcar::Vec<Filter>,
    lines: String,
    told: &mut String,
) -> Result<(), AllocError>
    requires named { (Small ≡ N.size) × (versions.now ≡ N.versions) × (programs.now ≡ N.programs) }
{
    let published = Published::<N>::new(Size::Small, versions, programs);
    let tokens = published_programs(rt, alloc, &published, lines.as_str())?;
    play_events(
        rt,
        alloc,
        &published,
        tokens.as_slice(),
        lines.as_str(),
        told,
    )?;
    let text = format!(in alloc; "published: {} {}\n", versions.count(), programs.count())?;
    told.push_str(text.as_str())
}

/// Publishes the programs of a case, before all its other events.
fn published_programs<N: Naming, R: Wait>(
    rt: &R,
    alloc: Global,
    published: &Published<'_, N>,
    lines: &str,
) -> Result<Vec<ProgramToken<N>>, AllocError> {
    let mut tokens = Vec::new(alloc);
    for line in lines.lines() {
        let (line, _) = unmarked(line);
        let (key, digits) = parted(line);
        if key != "program" {
            continue;
        }
        let program = published_program(rt, alloc, published, digits);
        push(&mut tokens, program.ok_or(AllocError)?)?;
    }
    Ok(tokens)
}

fn play_events<N: Naming, R: Wait>(
    rt: &R,
    alloc: Global,
    published: &Published<'_, N>,
    programs: &[ProgramToken<N>],
    lines: &str,
    told: &mut String,
) -> Result<(), AllocError> {
    let mut core = Core::new(rt, alloc, published)?;
    let events = events(alloc, programs, lines)?;
    let mut replies = Vec::new(alloc);
    run_events(rt, alloc, &mut core, events, &mut replies)?;
    tell_replies(alloc, published, lines, replies.as_slice(), told)?;
    tell_sinks(alloc, &core, told)
}

fn change(alloc: Global, kept: &str, rest: &str) -> Result<Change, Fault> {
    let text = change_text(alloc, kept, rest)?;
    let (change, _) = read_change(alloc, text.as_str())?;
    Ok(change)
}

fn subscribe<N: Naming>(
    alloc: Global,
    programs: &[ProgramToken<N>],
    rest: &str,
) -> Result<Asked<N>, Fault>
    ensures { IfOk result (IsFreshEvent (λ (s : ListSinkValue). s.sent) (λ (s : ListSinkValue). None) N.size) }
{
    let (capacity, index) = parted(rest);
    let program = programs.get(number(index)).ok_or(Fault::Nothing)?;
    let sink = ListSink::new(alloc, number(capacity))?;
    Ok(Event::Subscribe(program.again(), sink))
}

fn event<N: Naming>(
    alloc: Global,
    programs: &[ProgramToken<N>],
    kept: &str,
    key: &str,
    rest: &str,
) -> Result<Asked<N>, Fault>
    ensures { IfOk result (IsFreshEvent (λ (s : ListSinkValue). s.sent) (λ (s : ListSinkValue). None) N.size) }
{
    match key {
        "submit" => Ok(Event::Submit(change(alloc, kept, rest)?)),
        "sub" => subscribe(alloc, programs, rest),
        "job" => Ok(Event::TakeJob),
        "commit" => Ok(Event::Commit(number(rest))),
        "pump" => Ok(Event::Pump(number(rest))),
        "reissue" => Ok(Event::Reissue(number(rest))),
        "close" => Ok(Event::Close(number(rest))),
        _ => Err(Fault::NoEvent),
    }
}

/// Appends an event; the proof of the loop that does so needs no more than this clause.
fn push_event<N: Naming>(events: &mut Vec<Asked<N>>, event: Asked<N>) -> Result<(), AllocError>
    ensures { OnOk result (events.new.items ≡ events.old.items ++ event ∷ []) }
{
    events.push(event)?;
    Ok(())
}

/// Whether a line is an event of the core: neither text that is kept nor a program.
fn is_event(key: &str) -> bool {
    key != "line" && key != "text" && key != "program"
}

/// The events of a case. One that can't be made ends them.
fn events<N: Naming>(
    alloc: Global,
    programs: &[ProgramToken<N>],
    lines: &str,
) -> Result<Vec<Asked<N>>, AllocError>
    ensures { IfOk result (λ events. All (IsFreshEvent (λ (s : ListSinkValue). s.sent) (λ (s : ListSinkValue). None)
        N.size) events.items) }
{
    let mut events = Vec::new(alloc);
    let mut kept = String::new(alloc);
    for line in lines.lines() {
        let (line, _) = unmarked(line);
        let (key, rest) = parted(line);
        if keep(&mut kept, key, rest)? || !is_event(key) {
            continue;
        }
        let Ok(event) = event(alloc, programs, kept.as_str(), key, rest) else {
            return Ok(events);
        };
        push_event(&mut events, event)?;
        if key == "submit" {
            kept.clear();
        }
    }
    Ok(events)
}

fn of_submit<N: Naming>(
    published: &Published<'_, N>,
    outcome: &Result<VersionToken<N>, SubmitError>,
) -> Result<Answer, Fault> {
    match outcome {
        Ok(token) => Ok(Answer::Number(published.look(token).number())),
        Err(error) => Err(Fault::Hub(HubError::Submit(*error))),
    }
}

/// The job by its number, if its token is of that version.
fn of_job<N: Naming>(published: &Published<'_, N>, job: &Option<Job<N>>) -> Result<Answer, Fault> {
    match job {
        Some(job) if published.look(&job.version).number() == job.number => {
            Ok(Answer::Job(job.subscriber, job.number))
        }
        Some(_) => Err(Fault::NoEvent),
        None => Err(Fault::Nothing),
    }
}

/// What a reissue or a close answers.
fn of_call(outcome: &Result<(), NoSubscriber>) -> Result<Answer, Fault> {
    match outcome {
        Ok(()) => Ok(Answer::Done),
        Err(error) => Err(Fault::Missing(*error)),
    }
}

fn of_commit(outcome: &Result<(), CommitError>) -> Result<Answer, Fault> {
    match outcome {
        Ok(()) => Ok(Answer::Done),
        Err(error) => Err(Fault::Commit(*error)),
    }
}

fn of_pump(outcome: &Result<usize, NoSubscriber>) -> Result<Answer, Fault> {
    match outcome {
        Ok(count) => Ok(Answer::Number(*count as u64)),
        Err(error) => Err(Fault::Missing(*error)),
    }
}

fn of_subscribe(outcome: &Result<usize, SubscribeError>) -> Result<Answer, Fault> {
    match outcome {
        Ok(id) => Ok(Answer::Number(*id as u64)),
        Err(error) => Err(Fault::Subscribe(*error)),
    }
}

fn answer_of<N: Naming>(published: &Published<'_, N>, reply: &Replied<N>) -> Result<Answer, Fault> {
    match reply {
        Reply::Submitted(outcome) => of_submit(published, outcome),
        Reply::Subscribed(outcome) => of_subscribe(outcome),
        Reply::Handed(job) => of_job(published, job),
        Reply::Committed(outcome) => of_commit(outcome),
        Reply::Pumped(outcome) => of_pump(outcome),
        Reply::Reissued(outcome) => of_call(outcome),
        Reply::Closed(outcome) => of_call(outcome),
    }
}

/// Tells what each event was replied.
fn tell_replies<N: Naming>(
    alloc: Global,
    published: &Published<'_, N>,
    lines: &str,
    replies: &[Replied<N>],
    told: &mut String,
) -> Result<(), AllocError> {
    let mut index = 0usize;
    for line in lines.lines() {
        let (line, is_untold) = unmarked(line);
        let (key, _) = parted(line);
        if !is_event(key) {
            continue;
        }
        let answer = match replies.get(index) {
            Some(reply) => answer_of(published, reply),
            None => Err(Fault::NoEvent),
        };
        tell(alloc, told, (key, is_untold), answer, &[])?;
        index = index.saturating_add(1);
    }
    Ok(())
}

/// Tells what each sink was sent, if anything was, also that of a closed subscriber.
fn tell_sinks<N: Naming>(
    alloc: Global,
    core: &Core<'_, N, ListSink<N>>,
    told: &mut String,
) -> Result<(), AllocError> {
    for id in 0..core.size().subscribers() {
        let Some(sink) = core.sink(id) else {
            return Ok(());
        };
        let found = findings_of(alloc, sink.sent())?;
        push_end(alloc, told, "sink", id, found.as_slice())?;
    }
    Ok(())
}
