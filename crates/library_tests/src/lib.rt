//! Tests of what only a direct call shows: public calls that no command reaches, each once, with values found by hand.
//! What commands reach is tested by the cases of `test_cases`.
#![tactic(auto)]

#[cfg(test)]
mod alike_counts;
#[cfg(test)]
mod context_layout;
#[cfg(test)]
mod cut_changes;
#[cfg(test)]
#[cfg(test)]
mod full_text;
#[cfg(test)]
mod marks_calls;
#[cfg(test)]
mod refusal_names;
#[cfg(test)]
mod sequence_calls;
#[cfg(test)]
mod spoiled_labels;
#[cfg(test)]
mod spoiled_readers;
#[cfg(test)]
mod view_calls;
