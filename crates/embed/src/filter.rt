//! A filter and its verdicts, on one thread and without a hub.
use anyhow::{Context, Result};
use bpf_words::words::Words;
use change_history::history::History;
use change_ops::change::read_change;
use change_ops::size::Size;
use feeds::batch::verdict;
use filters::accept::accept;
use filters::filter::Filter;
use filters::rules::RuleSet;
use span_context::profile::Profile;
use span_view::view::view;
use std::alloc::Global;

/// The program of these digits. Every run of what is accepted ends with a number, on every span.
pub fn accepted(alloc: Global, digits: &str) -> Result<Filter> {
    let bytes = hex::decode(alloc, digits)?;
    let words = Words::new(bytes.as_slice())?; // 1 to 9: the bytes are no program
    let program = accept(alloc, &words, RuleSet::Straight(Profile::Two)); // 10 to 27: the first slot at fault
    program.ok().context("the program isn't accepted")
}

/// The verdict on each span of the text that the changes make. Whoever has the same changes finds the same.
pub fn verdicts(alloc: Global, program: &Filter, changes: &[&str]) -> Result<Vec<u64>> {
    let mut history = History::new(alloc, Size::Small); // how much the text may hold: up to 32,768 characters
    for text in changes {
        let (change, _rest) = read_change(alloc, text)?; // 40 to 45: the first line at fault
        history.accept(change)?; // 45 to 50: what is refused changes nothing
    }
    let version = history.version(alloc)?; // its spans are Peritext's, of all that was accepted
    let mut verdicts = Vec::new(alloc);
    let mut buffer = String::new(alloc); // where a span's text is put together that lies in several pieces
    for index in 0..version.span_count() {
        let Some(span) = view(&version, index, &mut buffer)? else {
            break;
        };
        let number = verdict(program, &span); // a run always ends, with a number
        verdicts.push(number)?;
    }
    Ok(verdicts)
}
