use bpf_words::words::Words;
use filters::accept::accept;
use filters::filter::Filter;
use filters::rules::RuleSet;
use span_context::profile::Profile;
use std::alloc::{AllocError, Global};
use std::sync::Wait;
use version_history::published::{Naming, ProgramToken, Published};

fn verified_program(alloc: Global, digits: &str) -> Option<Filter> {
    let bytes = hex::decode(alloc, digits).ok()?;
    let words = Words::new(bytes.as_slice()).ok()?;
    accept(alloc, &words, RuleSet::Straight(Profile::One)).ok()
}

/// Publishes the program of these digits.
pub fn published_program<N: Naming, R: Wait>(
    rt: &R,
    alloc: Global,
    published: &Published<'_, N>,
    digits: &str,
) -> Option<ProgramToken<N>> {
    let program = verified_program(alloc, digits)?;
    published.publish_program(rt, program).ok()
}

/// Appends to a list.
pub fn push<T: Drop>(list: &mut Vec<T>, item: T) -> Result<(), AllocError> {
    list.push(item)?;
    Ok(())
}
